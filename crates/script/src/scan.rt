//! Lines, and the words of a line.

ghost use Rattle.std.specs.Iterator.{at_most};
ghost use Rattle.std.specs.List.{before_first, position_or_len};
ghost use Rattle.std.specs.Prelude.{◌≡◌, ℕ, ◌+◌, ◌≤◌, ◌==◌, Bool, [], length, drop, MatchOption};
ghost use Rattle.script.specs.Scan.{FirstLine, blank, start_at, end_at, word_at};

/// Spaces, tabs and carriage returns stand between words.
fn blank(byte: u8) -> bool
    ensures { result ≡ blank byte }
{
    matches!(byte, b' ' | b'\t' | b'\r')
}

/// Where the first byte stands that `stops` holds of. If it holds of none, that is the text's end.
fn find<F: Fn(u8) -> bool>(text: &[u8], stops: F) -> usize
    requires { F.IsAlwaysCallable stops }
    ensures is { (p : ℕ → Bool) → ((b : ℕ) (r : Bool) → F.post stops b r → r ≡ p b) → result ≡ position_or_len p text.now }
    ensures inside { result ≤ length text.now }
{
    text.iter()
        .position(|byte| stops(*byte))
        .unwrap_or(text.len())
}

/// Where the line that begins at `at` ends: at the next line feed, or with the text.
// With an offset and not a slice: it is public, and its promise speaks of one.
pub fn line_end(text: &[u8], at: usize) -> usize
    ensures is { result ≡ at + position_or_len (λ b. b == 10) (drop at text.now) }
    ensures inside { (at ≤ result) × (at ≤ length text.now → result ≤ length text.now) }
{
    if at > text.len() {
        return at;
    }
    at + find(&text[at..], |byte| byte == b'\n')
}

/// The lines of a text, one after another. A line feed ends its line and stands in none, and no line begins behind the
/// last byte.
#[derive(Drop)]
pub struct Lines<'a> {
    rest: &'a [u8],
}

impl<'a> Lines<'a> {
    /// The lines of this text, of which none is taken yet.
    pub fn of(text: &'a [u8]) -> Lines<'a>
        ensures { result.rest.now ≡ text.now }
    {
        Lines { rest: text }
    }
}

impl<'a> Iterator for Lines<'a> {
    type Item = &'a [u8];

    ghost next_gives = { λ was first is. MatchOption first (was.rest.now ≡ []) (λ line. FirstLine was.rest.now line.now is.rest.now) };

    ghost remaining = { λ lines. at_most (length lines.rest.now) };

    fn next(&mut self) -> Option<&'a [u8]> {
        if self.rest.is_empty() {
            return None;
        }
        let (line, behind) = self.rest.split_at(line_end(self.rest, 0));
        self.rest = behind.get(1..).unwrap_or(&[]);
        Some(line)
    }
}

/// The line without its comment.
pub(crate) fn code(line: &[u8]) -> &[u8]
    ensures { result.now ≡ before_first (λ b. b == 35) line.now }
{
    &line[..find(line, |byte| byte == b'#')]
}

/// A text of words, read up to `at`.
#[derive(Drop)]
pub(crate) struct Words<'a> {
    text: &'a [u8],
    at: usize,
    ghost inside: { at ≤ length text.now },
}

impl<'a> Words<'a> {
    /// The words of a text, of which none is read yet.
    pub(crate) fn new(text: &'a [u8]) -> Words<'a>
        ensures text { result.text.now ≡ text.now }
        ensures at { result.at ≡ 0 }
    {
        Words { text, at: 0 }
    }

    /// Where the next word begins. Past the last word it is the text's end.
    fn start(&self) -> usize
        ensures is { result ≡ start_at self.now.text.now self.now.at }
        ensures inside { result ≤ length self.now.text.now }
    {
        self.at + find(&self.text[self.at..], |byte| !blank(byte))
    }

    /// No word is left.
    pub(crate) fn is_done(&self) -> bool
        ensures { result ≡ (start_at self.now.text.now self.now.at == length self.now.text.now) }
    {
        self.start() == self.text.len()
    }

    /// The next word, which is empty past the last.
    #[tactic(auto, unfolding(crate::specs::Scan::end_at))]
    pub(crate) fn word(&mut self) -> &'a [u8]
        ensures word { result.now ≡ word_at self.old.text.now self.old.at }
        ensures at { self.new.at ≡ end_at self.old.text.now self.old.at }
        ensures text { self.new.text.now ≡ self.old.text.now }
    {
        let text = self.text;
        let start = self.start();
        self.at = start + find(&text[start..], blank);
        &text[start..self.at]
    }
}

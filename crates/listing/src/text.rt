//! The text of each command.

ghost use Rattle.std.specs.Prelude.{◌≡◌, ◌+◌, ◌≤◌, ◌++◌, length, take, drop};
ghost use Rattle.listing.specs.Texts.{text_of, kind_text, term_text, settings_text, offsets_text, hex_text, hex_width};

use command::{Command, RawSettings};
use digits::{Text, put};

/// Room for any command's text, and a line feed after it.
pub const LINE_ROOM: usize = 112;

/// A text with that room.
pub type Line = Text<LINE_ROOM>;

/// The text of the command.
// Not a Display: printing can fail, and this cannot.
pub fn text_of(command: &Command) -> Line
    ensures inside { length result ≤ 111 }
    ensures text { result ≡ text_of command.now }
{
    let mut line = Line::new();
    write_text(command, &mut line);
    line
}

/// Puts the command's text at the front of `out` and answers how long it is. The rest of the list stays.
pub fn put_text(command: &Command, out: &mut [u8; LINE_ROOM]) -> usize
    ensures inside { result ≤ 111 }
    ensures front { take result out.new ≡ text_of command.now }
    ensures back { drop result out.new ≡ drop result out.old }
{
    put(out, 0, text_of(command).as_slice())
}

/// Makes the line the command's text, whatever it was. A line that is used again is not made anew for each command.
pub fn write_text(command: &Command, line: &mut Line)
    ensures inside { length line.new ≤ 111 }
    ensures text { line.new ≡ text_of command.now }
{
    line.clear();
    match command {
        Command::Settings(settings) => {
            put_settings(line, settings);
            put_term(line, settings.term, settings.n);
        }
        Command::Radius(radius) => {
            line.put(b"radius ");
            line.put_number(*radius);
        }
        Command::Open => line.put(b"open"),
        Command::Hull { day, offsets } => {
            line.put(b"hull ");
            line.put_number(*day);
            put_offsets(line, offsets);
        }
        Command::Joinery { day, word } => {
            line.put(b"joinery ");
            line.put_number(*day);
            put_word(line, *word);
        }
        Command::Day(day) => {
            line.put(b"day ");
            line.put_number(*day);
        }
        Command::Pick => line.put(b"pick"),
    }
}

/// The settings but for the term.
fn put_settings(line: &mut Line, settings: &RawSettings)
    requires { length line.old + 64 ≤ LINE_ROOM }
    ensures is { line.new ≡ line.old ++ settings_text settings.now.kind settings.now.k settings.now.f settings.now.limit }
    ensures bound { length line.new ≤ length line.old + 64 }
{
    line.put(b"settings ");
    put_kind(line, settings.kind);
    line.put(b" k ");
    line.put_number(u32::from(settings.k));
    line.put(b" f ");
    line.put_number(u32::from(settings.f));
    line.put(b" F ");
    line.put_number(u32::from(settings.limit));
    line.put(b" ");
}

fn put_kind(line: &mut Line, kind: u8)
    requires { length line.old + 15 ≤ LINE_ROOM }
    ensures is { line.new ≡ line.old ++ kind_text kind }
    ensures bound { length line.new ≤ length line.old + 15 }
{
    match kind {
        0 => line.put(b"hull"),
        1 => line.put(b"joinery"),
        _ => {
            line.put(b"kind ");
            line.put_number(u32::from(kind));
        }
    }
}

fn put_term(line: &mut Line, term: u8, n: u32)
    requires { length line.old + 28 ≤ LINE_ROOM }
    ensures is { line.new ≡ line.old ++ term_text term n }
    ensures bound { length line.new ≤ length line.old + 28 }
{
    match term {
        0 => line.put(b"by number "),
        1 => line.put(b"by days "),
        _ => {
            line.put(b"term ");
            line.put_number(u32::from(term));
            line.put(b" n ");
        }
    }
    line.put_number(n);
}

fn put_offsets(line: &mut Line, offsets: &[i32; 8])
    requires { length line.old + 96 ≤ LINE_ROOM }
    ensures is { line.new ≡ line.old ++ offsets_text offsets.now }
    ensures bound { length line.new ≤ length line.old + 96 }
{
    for offset in offsets {
        line.put(b" ");
        line.put_offset(*offset);
    }
}

/// The word in two, four, eight or sixteen hexadecimal digits.
fn put_word(line: &mut Line, word: u64)
    requires { length line.old + 19 ≤ LINE_ROOM }
    ensures is { line.new ≡ line.old ++ hex_text word }
    ensures bound { length line.new ≤ length line.old + 19 }
{
    line.put(b" 0x");
    line.put_hex(word, hex_width(word));
}

fn hex_width(word: u64) -> usize
    ensures is { result ≡ hex_width word }
    ensures bound { result ≤ 16 }
{
    match word {
        ..=0xFF => 2,
        ..=0xFFFF => 4,
        ..=0xFFFF_FFFF => 8,
        _ => 16,
    }
}

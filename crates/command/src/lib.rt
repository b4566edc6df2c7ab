//! The commands of a feed, with whatever operands their widths can carry, and the bytes of each.
//!
//! `specs/Commands.antt` is the one definition of the bytes: writing and reading go by it.

#![tactic(auto)]

ghost use Rattle.std.specs.Prelude.{◌≡◌, ℕ, ◌^◌, ◌<◌, length, pos, FitsSigned, slice_index_or};
ghost use Rattle.std.specs.Int.{w32};
ghost use Rattle.command.specs.Commands.{Carried, size_of, verb_of};

pub mod verb;

pub use verb::Verb;

/// How to set up a book, as a command says it.
#[derive(Clone, Copy, PartialEq, Eq, Debug)]
pub struct RawSettings {
    // Bytes and no enums: whatever the widths can carry is a command.
    /// the kind of piece
    pub kind: u8,
    pub k: u8,
    /// the fineness
    pub f: u8,
    /// the fine limit F
    pub limit: u8,
    pub term: u8,
    /// how many pieces or days the term has
    pub n: u32,
}

/// A command with its raw operands. Whether they make sense is judged above.
#[derive(Clone, Copy, PartialEq, Eq, Debug)]
pub enum Command {
    /// how to set up a book
    Settings(RawSettings),
    /// a further radius
    Radius(u32),
    /// the end of setting up
    Open,
    /// a hull panel and its day
    Hull { day: u32, offsets: [i32; 8] },
    /// a joinery part and its day
    Joinery { day: u32, word: u64 },
    /// another day
    Day(u32),
    /// a pick
    Pick,
}

/// The greatest number of bytes that a command has.
pub const LONGEST: usize = 37;

impl Command {
    /// What it is, without its operands.
    pub fn verb(&self) -> Verb
        ensures { result ≡ verb_of self.now }
    {
        match self {
            Command::Settings(_) => Verb::Settings,
            Command::Radius(_) => Verb::Radius,
            Command::Open => Verb::Open,
            Command::Hull { .. } => Verb::Hull,
            Command::Joinery { .. } => Verb::Joinery,
            Command::Day(_) => Verb::Day,
            Command::Pick => Verb::Pick,
        }
    }

    /// How many bytes it has.
    pub fn size(&self) -> usize
        ensures { result ≡ size_of self.now }
    {
        self.verb().width()
    }

    /// Every command's operands fit their widths. It does nothing: its contract is the fact, and reading an operand
    /// makes known that it is a number of its type.
    pub fn carried(&self)
        ensures { Carried self.now }
    {
        match self {
            Command::Settings(
                RawSettings {
                    kind,
                    k,
                    f,
                    limit,
                    term,
                    n,
                },
            ) => {
                let _bytes = [*kind, *k, *f, *limit, *term];
                let _n = *n;
            }
            Command::Radius(number) | Command::Day(number) => {
                let _number = *number;
            }
            Command::Hull { day, offsets } => {
                let _day = *day;
                eight(offsets);
            }
            Command::Joinery { day, word } => {
                let _day = *day;
                let _word = *word;
            }
            Command::Open | Command::Pick => {}
        }
    }
}

/// Each of the eight is a number of its type.
fn eight(offsets: &[i32; 8])
    ensures len { length offsets.now ≡ 8 }
    ensures each { (i : ℕ) → i < 8 → FitsSigned w32 (slice_index_or offsets.now i (pos 0)) }
{
    for offset in offsets {
        let _offset = *offset;
    }
}

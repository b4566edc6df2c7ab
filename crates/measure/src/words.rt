//! Words of a request, read one after another.

ghost use Rattle.std.specs.Iterator.{at_most};
ghost use Rattle.measure.specs.Reading.{Shortened, left};

use refusal::Refusal;
use std::alloc::{AllocError, AllocFailed};
use std::fmt;
use std::str::SplitWhitespace;

/// Why a line got no answer.
#[derive(Clone, Copy)]
pub enum Trouble {
    Refused(Refusal),
    Expected(Expected),
    OutOfMemory,
}

/// What should stand where a line is not understood.
#[derive(Clone, Copy)]
pub enum Expected {
    Text,
    Request,
    Kind,
    Board,
    Term,
    Unit,
    Number,
    Offset,
    Fittings,
    To,
    By,
    And,
    Or,
    Arrival,
    Day,
    At,
    Posts,
    Over,
    End,
}

impl Expected {
    /// The word itself, or what to call it.
    pub fn text(self) -> &'static str {
        match self {
            Expected::Text => "text in UTF-8",
            Expected::Request => "hull, joinery, sheet, board, cut, table, counts or reach",
            Expected::Kind => "hull, joinery, sheet or board",
            Expected::Board => "hull or joinery",
            Expected::Term => "by, both or either",
            Expected::Unit => "number or days",
            Expected::Number => "a number",
            Expected::Offset => "an offset",
            Expected::Fittings => "a word of fittings such as 15 or 0x0F",
            Expected::To => "to",
            Expected::By => "by",
            Expected::And => "and",
            Expected::Or => "or",
            Expected::Arrival => "arrival",
            Expected::Day => "day",
            Expected::At => "at",
            Expected::Posts => "posts",
            Expected::Over => "over",
            Expected::End => "the end of the line",
        }
    }
}

impl From<Expected> for Trouble {
    fn from(expected: Expected) -> Trouble {
        Trouble::Expected(expected)
    }
}

impl From<Refusal> for Trouble {
    fn from(refusal: Refusal) -> Trouble {
        Trouble::Refused(refusal)
    }
}

impl From<AllocError> for Trouble {
    fn from(_error: AllocError) -> Trouble {
        Trouble::OutOfMemory
    }
}

impl<T: Drop> From<AllocFailed<T>> for Trouble {
    fn from(_refused: AllocFailed<T>) -> Trouble {
        Trouble::OutOfMemory
    }
}

impl fmt::Display for Trouble {
    fn fmt<W: fmt::Write>(&self, f: &mut fmt::Formatter<W>) -> fmt::Result {
        match self {
            Trouble::Refused(refusal) => write!(f, "{refusal}"),
            Trouble::Expected(expected) => {
                let what = expected.text();
                write!(f, "not understood, expected {what}")
            }
            Trouble::OutOfMemory => write!(f, "out of memory"),
        }
    }
}

/// The words of a line that are yet to be read.
#[derive(Drop)]
pub struct Words<'a> {
    rest: SplitWhitespace<'a>,
}

impl<'a> Words<'a> {
    pub fn new(line: &'a str) -> Words<'a> {
        Words {
            rest: line.split_whitespace(),
        }
    }

    /// The next word, where `expected` should stand.
    fn some(&mut self, expected: Expected) -> Result<&'a str, Expected>
        ensures { Shortened self.old self.new result }
    {
        self.next().ok_or(expected)
    }

    /// Reads the word that is expected.
    pub fn word(&mut self, expected: Expected) -> Result<(), Trouble> {
        match self.next() {
            Some(word) if word == expected.text() => Ok(()),
            _ => Err(expected.into()),
        }
    }

    pub fn end(&mut self) -> Result<(), Trouble> {
        match self.next() {
            None => Ok(()),
            Some(_) => Err(Expected::End.into()),
        }
    }

    pub fn number(&mut self) -> Result<u32, Trouble>
        ensures { Shortened self.old self.new result }
    {
        number_in(self.some(Expected::Number)?)
    }

    /// The number that follows the word that is expected.
    pub fn number_after(&mut self, expected: Expected) -> Result<u32, Trouble> {
        self.word(expected)?;
        self.number()
    }

    /// A number with a sign, where one that no offset can be is refused as any offset out of range.
    pub fn offset(&mut self) -> Result<i32, Trouble>
        ensures { Shortened self.old self.new result }
    {
        let word = self.some(Expected::Offset)?;
        let wide = word.parse::<i64>().map_err(|_| Expected::Offset)?;
        Ok(i32::try_from(wide).map_err(|_| Refusal::PieceOutOfRange)?)
    }

    /// A word of fittings, in decimal or after 0x.
    pub fn fittings(&mut self) -> Result<u64, Trouble>
        ensures { Shortened self.old self.new result }
    {
        let word = self.some(Expected::Fittings)?;
        let read = match word.strip_prefix("0x") {
            Some(digits) => u64::from_str_radix(digits, 16),
            None => word.parse::<u64>(),
        };
        Ok(read.map_err(|_| Expected::Fittings)?)
    }
}

impl<'a> Iterator for Words<'a> {
    type Item = &'a str;

    ghost remaining = { λ words. at_most (left words) };

    fn next(&mut self) -> Option<&'a str> {
        self.rest.next()
    }
}

pub fn number_in(word: &str) -> Result<u32, Trouble> {
    Ok(word.parse::<u32>().map_err(|_| Expected::Number)?)
}

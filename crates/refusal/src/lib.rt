//! Everything that a call can refuse, with the number and the layer that users see.
//!
//! `specs/Codes.antt` is the one table: every contract that speaks of a refusal goes by it.

#![tactic(auto)]

ghost use Rattle.std.specs.Prelude.{◌≡◌, Some};
ghost use Rattle.refusal.specs.Codes.{code, depth};
ghost use Rattle.refusal.specs.Texts.{breach_text, reason_text, refusal_text};

use std::fmt;

pub mod range;

pub use range::UpToMillion;

/// Where a table breaks a law: at entry (`row`, `column`), and, where the entry exceeds the way round
/// through a third grade, that grade.
#[derive(Clone, Copy, PartialEq, Eq, Debug)]
pub struct Breach {
    pub row: u8,
    pub column: u8,
    pub through: Option<u8>,
}

/// Why a call was refused. A refused call leaves everything as it was.
#[derive(Clone, Copy, PartialEq, Eq, Debug)]
pub enum Refusal {
    SettingOutOfRange,
    RadiusListFull,
    RadiusNotAllowed,
    ShelfTooShort,
    PostsUsedUp,
    DayNotAllowed,
    ListTooShort,
    NothingCounts,
    NoRadiusPasses,
    ArrivalNotKept,
    PieceOutOfRange,
    TableLength,
    LawBroken(Breach),
    OutOfPlace,
    UnknownByte,
    CutShort,
}

/// The layer that a refusal comes from. A lower layer is tested first.
#[derive(Clone, Copy, PartialEq, Eq, Debug)]
pub enum Layer {
    Bytes,
    Pieces,
    Book,
}

impl Refusal {
    /// The number by which users know the refusal, 1 to 16.
    pub fn number(self) -> u8
        ensures { result ≡ (code self).number }
    {
        match self {
            Refusal::SettingOutOfRange => 1,
            Refusal::RadiusListFull => 2,
            Refusal::RadiusNotAllowed => 3,
            Refusal::ShelfTooShort => 4,
            Refusal::PostsUsedUp => 5,
            Refusal::DayNotAllowed => 6,
            Refusal::ListTooShort => 7,
            Refusal::NothingCounts => 8,
            Refusal::NoRadiusPasses => 9,
            Refusal::ArrivalNotKept => 10,
            Refusal::PieceOutOfRange => 11,
            Refusal::TableLength => 12,
            Refusal::LawBroken(_) => 13,
            Refusal::OutOfPlace => 14,
            Refusal::UnknownByte => 15,
            Refusal::CutShort => 16,
        }
    }

    /// The layer that it comes from.
    pub fn layer(self) -> Layer
        ensures { result ≡ (code self).layer }
    {
        match self {
            Refusal::PieceOutOfRange | Refusal::TableLength | Refusal::LawBroken(_) =>
                Layer::Pieces,
            Refusal::UnknownByte | Refusal::CutShort => Layer::Bytes,
            _ => Layer::Book,
        }
    }
}

impl Refusal {
    /// Why, in words. Where a table breaks a law, the place follows.
    fn reason(self) -> &'static str
        ensures { result.now ≡ reason_text self }
    {
        match self {
            Refusal::SettingOutOfRange => "a setting, kind, term, n or c is out of range",
            Refusal::RadiusListFull => "the radius list is full",
            Refusal::RadiusNotAllowed => "the radius is not allowed",
            Refusal::ShelfTooShort => "the shelf is too short",
            Refusal::PostsUsedUp => "1000000 posts are made",
            Refusal::DayNotAllowed => "the day is below the book's or above 1000000",
            Refusal::ListTooShort => "the answer list or the work list is too short",
            Refusal::NothingCounts => "no piece counts",
            Refusal::NoRadiusPasses => "no radius passes",
            Refusal::ArrivalNotKept => "the arrival is not kept",
            Refusal::PieceOutOfRange => "an offset or grade is out of range",
            Refusal::TableLength => "the table has not 256 numbers",
            Refusal::LawBroken(_) => "the table breaks a law at ",
            Refusal::OutOfPlace => "the command is out of place or of the other kind",
            Refusal::UnknownByte => "unknown byte",
            Refusal::CutShort => "the command is cut short",
        }
    }
}

impl Layer {
    /// The layer's number: 1 for bytes, 2 for pieces and tables, 3 for the rest.
    pub fn number(self) -> u8
        ensures { result ≡ depth self }
    {
        match self {
            Layer::Bytes => 1,
            Layer::Pieces => 2,
            Layer::Book => 3,
        }
    }
}

impl fmt::Display for Breach {
    ghost output = { λ breach. Some (breach_text breach) };

    fn fmt<W: fmt::Write>(&self, f: &mut fmt::Formatter<W>) -> fmt::Result {
        let row = self.row;
        let column = self.column;
        match self.through {
            None => write!(f, "row {row} column {column}"),
            Some(through) => write!(f, "row {row} column {column} through {through}"),
        }
    }
}

impl fmt::Display for Refusal {
    ghost output = { λ refusal. Some (refusal_text refusal) };

    fn fmt<W: fmt::Write>(&self, f: &mut fmt::Formatter<W>) -> fmt::Result {
        let reason = self.reason();
        match self {
            Refusal::LawBroken(breach) => write!(f, "{reason}{breach}"),
            _ => write!(f, "{reason}"),
        }
    }
}

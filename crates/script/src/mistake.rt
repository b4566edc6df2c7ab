//! What is wrong with a line.

ghost use Rattle.std.specs.Prelude.{◌≡◌, Some};
ghost use Rattle.script.specs.Mistakes.{mistake_text};

use std::fmt;

/// Why a line is no command.
#[derive(Clone, Copy, PartialEq, Eq, Debug)]
pub enum Mistake {
    /// its first word is no command's
    NoSuchCommand,
    /// a word that the command has is missing or misspelt
    Misspelt,
    /// a number is missing, misspelt or out of range
    NotANumber,
    /// more follows than the command has
    TooMuch,
}

impl Mistake {
    /// What it is, in words.
    fn words(self) -> &'static str
        ensures { result.now ≡ mistake_text self }
    {
        match self {
            Mistake::NoSuchCommand => "no such command",
            Mistake::Misspelt => "a word is missing or misspelt",
            Mistake::NotANumber => "a number is missing, misspelt or out of range",
            Mistake::TooMuch => "more follows than the command has",
        }
    }
}

impl fmt::Display for Mistake {
    ghost output = { λ mistake. Some (mistake_text mistake) };

    fn fmt<W: fmt::Write>(&self, f: &mut fmt::Formatter<W>) -> fmt::Result {
        let words = self.words();
        write!(f, "{words}")
    }
}

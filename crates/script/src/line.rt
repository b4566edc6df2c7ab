//! A line read as a command.

ghost use Rattle.std.specs.Prelude.{◌≡◌, Ok, codes};
ghost use Rattle.fault.specs.Faults.{and_then};
ghost use Rattle.script.specs.Lines.{expect_at, operand_at, offsets_at, kind_at, unit_at, term_at, settings_at, written_at, code_of, line_of};

use crate::mistake::Mistake;
use crate::number::Operand;
use crate::scan::{Words, code};
use command::{Command, RawSettings};

/// The command that the line writes, or none if it is blank or only a comment.
#[tactic(auto, using(crate::proofs::Words::more))]
pub fn parse(line: &[u8]) -> Result<Option<Command>, Mistake>
    ensures { result ≡ line_of line.now }
{
    let mut words = Words::new(code(line));
    if words.is_done() {
        return Ok(None);
    }
    let command = words.command()?;
    if !words.is_done() {
        return Err(Mistake::TooMuch);
    }
    Ok(Some(command))
}

impl Words<'_> {
    ghost use Rattle.script.specs.Reading.{Reads};

    /// The command that the next words write.
    fn command(&mut self) -> Result<Command, Mistake>
        ensures { Reads written_at self.old result self.new }
    {
        match self.word() {
            b"hull" => {
                let day = self.operand()?;
                let offsets = self.offsets()?;
                Ok(Command::Hull { day, offsets })
            }
            b"joinery" => {
                let day = self.operand()?;
                let word = self.operand()?;
                Ok(Command::Joinery { day, word })
            }
            b"day" => Ok(Command::Day(self.operand()?)),
            b"pick" => Ok(Command::Pick),
            b"radius" => Ok(Command::Radius(self.operand()?)),
            b"open" => Ok(Command::Open),
            b"settings" => self.settings(),
            _ => Err(Mistake::NoSuchCommand),
        }
    }

    /// What follows `settings`.
    fn settings(&mut self) -> Result<Command, Mistake>
        ensures { Reads settings_at self.old result self.new }
    {
        let kind = self.kind()?;
        let k = self.named(b"k")?;
        let f = self.named(b"f")?;
        let limit = self.named(b"F")?;
        let (term, n) = self.term()?;
        Ok(Command::Settings(RawSettings {
            kind,
            k,
            f,
            limit,
            term,
            n,
        }))
    }

    /// `hull` for 0, `joinery` for 1, or `kind` and any number.
    fn kind(&mut self) -> Result<u8, Mistake>
        ensures { Reads kind_at self.old result self.new }
    {
        match self.word() {
            b"hull" => Ok(0),
            b"joinery" => Ok(1),
            b"kind" => self.operand(),
            _ => Err(Mistake::Misspelt),
        }
    }

    /// `by number` or `by days` and n for 0 and 1, or `term` and any number and `n` and n.
    #[tactic(auto, using(crate::proofs::Begins::term_begins))]
    fn term(&mut self) -> Result<(u8, u32), Mistake>
        ensures { Reads (λ xs at. and_then (term_at xs at) (λ t. Ok ((t.0, t.1), t.2))) self.old result self.new }
    {
        match self.word() {
            b"by" => {
                let term = self.unit()?;
                let n = self.operand()?;
                Ok((term, n))
            }
            b"term" => {
                let term = self.operand()?;
                let n = self.named(b"n")?;
                Ok((term, n))
            }
            _ => Err(Mistake::Misspelt),
        }
    }

    /// `number` for 0 or `days` for 1.
    fn unit(&mut self) -> Result<u8, Mistake>
        ensures { Reads unit_at self.old result self.new }
    {
        match self.word() {
            b"number" => Ok(0),
            b"days" => Ok(1),
            _ => Err(Mistake::Misspelt),
        }
    }

    /// The next word, which has to be `name`, and an operand.
    fn named<T: Operand>(&mut self, name: &[u8]) -> Result<T, Mistake>
        ensures { Reads (λ xs at. and_then (expect_at name.now xs at) (λ end. operand_at T.written xs end)) self.old result self.new }
    {
        if self.word() != name {
            return Err(Mistake::Misspelt);
        }
        self.operand()
    }

    /// The next word as an operand.
    fn operand<T: Operand>(&mut self) -> Result<T, Mistake>
        ensures { Reads (operand_at T.written) self.old result self.new }
    {
        T::read(self.word()).ok_or(Mistake::NotANumber)
    }

    /// Eight whole numbers.
    fn offsets(&mut self) -> Result<[i32; 8], Mistake>
        ensures { Reads (offsets_at 8) self.old result self.new }
    {
        let mut offsets = [0; 8];
        for offset in &mut offsets {
            *offset = self.operand()?;
        }
        Ok(offsets)
    }
}

//! Pieces read from words.

ghost use Rattle.measure.specs.Reading.{Shortened};

use crate::words::{Trouble, Words};
use grade::Grade;
use refusal::Refusal;
use tape::{Joined, Panel, Part};

/// A piece that a line can name by some of its words.
pub trait Read: Sized {
    fn read(words: &mut Words<'_>) -> Result<Self, Trouble>
        ensures { Shortened words.old words.new result };
}

impl Read for Panel {
    fn read(words: &mut Words<'_>) -> Result<Panel, Trouble> {
        let mut offsets = [0; 8];
        for offset in offsets.iter_mut() {
            *offset = words.offset()?;
        }
        Ok(Panel::new(offsets)?)
    }
}

impl Read for Part {
    fn read(words: &mut Words<'_>) -> Result<Part, Trouble> {
        Ok(Part {
            word: words.fittings()?,
        })
    }
}

/// A number that no grade can be is refused as any grade out of range.
impl Read for Grade {
    fn read(words: &mut Words<'_>) -> Result<Grade, Trouble> {
        let number = u8::try_from(words.number()?).map_err(|_| Refusal::PieceOutOfRange)?;
        Ok(Grade::new(number)?)
    }
}

impl<A: Read + Drop, B: Read> Read for Joined<A, B> {
    fn read(words: &mut Words<'_>) -> Result<Joined<A, B>, Trouble> {
        Ok(Joined {
            left: A::read(words)?,
            right: B::read(words)?,
        })
    }
}

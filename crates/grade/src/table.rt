//! The checked table.

ghost use Rattle.std.specs.Prelude.{◌≡◌, ◌<◌, length, replicate, is_ok, Decides};
ghost use Rattle.grade.specs.Tables.{Bounded, Direct, Hollow, Lawful, Mirrored, entry};
ghost use Rattle.grade.specs.Verdicts.{Verdict};

use crate::flaw::first_flaw;
use refusal::Refusal;

/// A table that obeys the laws of a distance. A new one is 0 throughout, and only `check` changes it.
#[derive(Clone, Copy)]
pub struct CheckedTable {
    numbers: [u32; 256],
    ghost bounded: { Bounded numbers },
    ghost hollow: { Hollow numbers },
    ghost mirrored: { Mirrored numbers },
    ghost direct: { Direct numbers },
}

impl CheckedTable {
    /// A table that is 0 throughout.
    pub fn new() -> CheckedTable
        ensures { result.numbers ≡ replicate 256 0 }
    {
        CheckedTable { numbers: [0; 256] }
    }

    /// The numbers, row by row.
    pub fn numbers(&self) -> &[u32; 256]
        ensures { result.now ≡ self.now.numbers }
    {
        &self.numbers
    }

    /// Takes over `numbers` if they are 256 and obey the laws, and otherwise says what is first in the way
    /// and keeps what it had.
    pub fn check(&mut self, numbers: &[u32]) -> Result<(), Refusal>
        ensures verdict { Verdict numbers.now self.old.numbers self.new.numbers result }
        ensures exactly { Decides (is_ok result) ((length numbers.now ≡ 256) × Lawful numbers.now) }
    {
        let numbers = <&[u32; 256]>::try_from(numbers).map_err(|_| Refusal::TableLength)?;
        if let Some(breach) = first_flaw(numbers) {
            return Err(Refusal::LawBroken(breach));
        }
        self.numbers = *numbers;
        Ok(())
    }
}

/// The entry at a row and a column.
pub(crate) fn entry_at(numbers: &[u32; 256], row: u8, column: u8) -> u32
    requires row { row < 16 }
    requires column { column < 16 }
    ensures { result ≡ entry numbers.now row column }
{
    numbers[usize::from(row) * 16 + usize::from(column)]
}

//! Sheet grades and their tape.

ghost use Rattle.std.specs.Prelude.{◌≡◌, ◌%◌, ◌<◌};
ghost use Rattle.refusal.specs.Makes.{MadeIf};
ghost use Rattle.refusal.specs.declared.Refusal.TheVariants.{PieceOutOfRange};
ghost use Rattle.grade.specs.Tables.{entry};
ghost use Rattle.std.proofs.Common.{rules};

use crate::table::{CheckedTable, entry_at};
use refusal::Refusal;
use tape::Tape;

/// A sheet, told by its grade, 0 to 15. A plain number; `Grade::new` checks it.
#[derive(Clone, Copy, PartialEq, Eq, Debug)]
pub struct Grade {
    pub number: u8,
}

impl Grade {
    /// The grade `number`, unless it is above 15.
    pub fn new(number: u8) -> Result<Grade, Refusal>
        ensures { MadeIf (number < 16) (λ g. g.number ≡ number) PieceOutOfRange result }
    {
        if number > 15 {
            return Err(Refusal::PieceOutOfRange);
        }
        Ok(Grade { number })
    }
}

/// The tape of sheet grades: row a, column b of its table, which has been checked.
#[derive(Clone, Copy)]
pub struct GradeTape {
    pub table: CheckedTable,
}

impl Tape<Grade> for GradeTape {
    ghost dist = { λ t a b. entry t.table.numbers (a.number % 16) (b.number % 16) };

    ghost range = { Prim.search rules };

    ghost zero = { Prim.search rules };

    ghost symmetric = { Prim.search rules };

    ghost triangle = { Prim.search rules };

    fn measure(&self, a: &Grade, b: &Grade) -> u32
        ensures value { result ≡ entry self.now.table.numbers (a.now.number % 16) (b.now.number % 16) }
        ensures exact { a.now.number < 16 → b.now.number < 16 → result ≡ entry self.now.table.numbers a.now.number b.now.number }
    {
        let row = a.number % 16;
        let column = b.number % 16;
        entry_at(self.table.numbers(), row, column)
    }
}

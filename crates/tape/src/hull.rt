//! Hull panels and their tape.

ghost use Rattle.std.specs.Prelude.{◌≡◌, min};
ghost use Rattle.refusal.specs.Makes.{MadeIf};
ghost use Rattle.refusal.specs.declared.Refusal.TheVariants.{PieceOutOfRange};
ghost use Rattle.tape.specs.Limits.{limit};
ghost use Rattle.tape.specs.Hull.{InRange, widest};
ghost use Rattle.std.proofs.Common.{arith, rules};
ghost use Rattle.tape.specs.Gaps.{widest-zero, widest_turn, widest_through};

use crate::distance::Tape;
use refusal::Refusal;

/// The greatest offset of a panel, in tenths of a millimetre, to either side.
pub const GREATEST_OFFSET: u32 = 500_000;

/// A hull panel: its offset at each of eight stations, in tenths of a millimetre. A panel with fewer
/// stations has 0 at the others. Plain numbers; `Panel::new` checks them.
#[derive(Clone, Copy, PartialEq, Eq, Debug)]
pub struct Panel {
    pub offsets: [i32; 8],
}

impl Panel {
    /// A panel with these offsets, unless one is outside −500,000 to 500,000.
    pub fn new(offsets: [i32; 8]) -> Result<Panel, Refusal>
        ensures { MadeIf (InRange offsets) (λ p. p.offsets ≡ offsets) PieceOutOfRange result }
    {
        if offsets.iter().any(|x| x.unsigned_abs() > GREATEST_OFFSET) {
            return Err(Refusal::PieceOutOfRange);
        }
        Ok(Panel { offsets })
    }
}

/// The tape of hull panels: the greatest of the eight absolute differences.
#[derive(Clone, Copy)]
pub struct HullTape;

impl Tape<Panel> for HullTape {
    ghost dist = { λ _ a b. min (widest 8 a.offsets b.offsets) limit };

    ghost range = { Prim.search rules };

    ghost zero = { λ t a. omega (arith, widest-zero 8 a.offsets) };

    ghost symmetric = { λ t a b. omega (arith, widest_turn 8 a.offsets b.offsets) };

    ghost triangle = { λ t a b c. omega (arith, widest_through 8 a.offsets b.offsets c.offsets) };

    fn measure(&self, a: &Panel, b: &Panel) -> u32
        ensures value { result ≡ min (widest 8 a.now.offsets b.now.offsets) limit }
        ensures exact { InRange a.now.offsets → InRange b.now.offsets → result ≡ widest 8 a.now.offsets b.now.offsets }
    {
        let mut most = 0;
        // A loop: over zip, map and max the proof did not close.
        for (x, y) in a.offsets.iter().zip(&b.offsets) {
            most = x.abs_diff(*y).max(most);
        }
        most.min(1_000_000)
    }
}

//! A tape that stops at a limit.

ghost use Rattle.std.specs.Prelude.{◌≡◌};
ghost use Rattle.refusal.specs.Makes.{MadeIf, OneToMillion};
ghost use Rattle.refusal.specs.declared.Refusal.TheVariants.{SettingOutOfRange};
ghost use Rattle.tape.specs.Combined.{cut_off};
ghost use Rattle.tape.specs.Laid.{Laid};
ghost use Rattle.std.proofs.Common.{rules};

use crate::distance::Tape;
use refusal::{Refusal, UpToMillion};

/// A tape over the tape `inner` that gives no distance above `cap`.
#[derive(Drop)]
pub struct Cut<T> {
    inner: T,
    cap: UpToMillion,
}

impl<T: Drop> Cut<T> {
    /// `inner` cut off at `cap`, unless `cap` is outside 1 to 1,000,000.
    pub fn new(inner: T, cap: u32) -> Result<Cut<T>, Refusal>
        ensures { MadeIf (OneToMillion cap) (λ t. (t.inner ≡ inner) × (t.cap.number ≡ cap)) SettingOutOfRange result }
    {
        let cap = UpToMillion::new(cap)?;
        Ok(Cut { inner, cap })
    }
}

/// The smaller of the inner distance and the cap.
impl<P, T: Tape<P>> Tape<P> for Cut<T> {
    ghost dist = { λ t a b. cut_off t.cap.number (T.Tape.dist t.inner a b) };

    ghost range = { Prim.search rules };

    ghost zero = { Prim.search rules };

    ghost symmetric = { Prim.search rules };

    ghost triangle = { Prim.search rules };

    fn measure(&self, a: &P, b: &P) -> u32 {
        self.inner.measure(a, b).min(self.cap.number)
    }
}

/// Lays a tape between two pieces, cut off at `cut` where there is one.
pub fn lay<P, T: Tape<P> + Drop>(tape: T, cut: Option<u32>, a: &P, b: &P) -> Result<u32, Refusal>
    ensures { Laid (T.Tape.dist tape a.now b.now) cut result }
{
    match cut {
        None => Ok(tape.measure(a, b)),
        Some(cap) => {
            let tape = Cut::new(tape, cap)?;
            Ok(tape.measure(a, b))
        }
    }
}

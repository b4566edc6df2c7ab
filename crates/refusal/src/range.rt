//! A range that several settings share.

ghost use Rattle.std.specs.Prelude.{◌≡◌, ◌<◌, ◌≤◌};
ghost use Rattle.refusal.specs.Makes.{MadeIf, OneToMillion};
ghost use Rattle.refusal.specs.declared.Refusal.TheVariants.{SettingOutOfRange};

use crate::Refusal;

/// A number from 1 to 1,000,000: the length of a term, or the limit of a cut tape.
#[derive(Clone, Copy)]
pub struct UpToMillion {
    pub number: u32,
    ghost positive: { 0 < number },
    ghost bounded: { number ≤ 1000000 },
}

impl UpToMillion {
    /// The number `number`, unless it is outside 1 to 1,000,000.
    pub fn new(number: u32) -> Result<UpToMillion, Refusal>
        ensures { MadeIf (OneToMillion number) (λ n. n.number ≡ number) SettingOutOfRange result }
    {
        if number < 1 || number > 1_000_000 {
            return Err(Refusal::SettingOutOfRange);
        }
        Ok(UpToMillion { number })
    }
}

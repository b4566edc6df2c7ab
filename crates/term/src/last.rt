//! The terms of the last n pieces and of the last n days.

ghost use Rattle.std.specs.Prelude.{true, false, ◌≡◌, ℕ, ◌<◌, ◌≤◌, ltb};
ghost use Rattle.refusal.specs.Makes.{MadeIf, OneToMillion};
ghost use Rattle.refusal.specs.declared.Refusal.TheVariants.{SettingOutOfRange};
ghost use Rattle.term.specs.Formulas.{Rule, by_days, by_number};
ghost use Rattle.std.proofs.Common.{rules};

use crate::window::{Clock, Stamp, Term};
use refusal::{Refusal, UpToMillion};
use std::marker::PhantomData;

/// What the length of a term is counted in.
pub trait Unit {
    /// whether fewer than n of them went by since a piece was posted
    ghost rule: { ℕ → Rule };

    /// How many of them went by since the piece posted at `stamp`.
    fn since(stamp: Stamp, clock: Clock) -> u32
        ensures { (n : ℕ) → rule n stamp.arrival stamp.day clock.posts clock.day ≡ ltb result n };

    ghost newest: { (n a d : ℕ) → 0 < n → rule n a d a d ≡ true };

    ghost expired: { (n a d posts day posts2 day2 : ℕ) → posts ≤ posts2 → day ≤ day2 → rule n a d posts day ≡ false → rule n a d posts2 day2 ≡ false };

    ghost newer: { (n a d a2 d2 posts day : ℕ) → a ≤ a2 → d ≤ d2 → rule n a d posts day ≡ true → rule n a2 d2 posts day ≡ true };
}

/// Counted in posts.
#[derive(Clone, Copy)]
pub struct Posts;

/// Counted in days.
#[derive(Clone, Copy)]
pub struct Days;

impl Unit for Posts {
    ghost rule = { by_number };

    ghost newest = { Prim.search rules };

    ghost expired = { Prim.search rules };

    ghost newer = { Prim.search rules };

    fn since(stamp: Stamp, clock: Clock) -> u32 {
        clock.posts.saturating_sub(stamp.arrival)
    }
}

impl Unit for Days {
    ghost rule = { by_days };

    ghost newest = { Prim.search rules };

    ghost expired = { Prim.search rules };

    ghost newer = { Prim.search rules };

    fn since(stamp: Stamp, clock: Clock) -> u32 {
        clock.day.saturating_sub(stamp.day)
    }
}

/// The last n posts or days: a piece counts while fewer than n went by since.
#[derive(Clone, Copy)]
pub struct Last<U> {
    n: UpToMillion,
    unit: PhantomData<U>,
}

/// By number: the last n pieces count.
pub type ByNumber = Last<Posts>;

/// By days: the pieces of the last n days count.
pub type ByDays = Last<Days>;

impl<U> Last<U> {
    /// The last `n`, unless `n` is outside 1 to 1,000,000.
    pub fn new(n: u32) -> Result<Last<U>, Refusal>
        ensures { MadeIf (OneToMillion n) (λ t. t.n.number ≡ n) SettingOutOfRange result }
    {
        let n = UpToMillion::new(n)?;
        Ok(Last {
            n,
            unit: PhantomData,
        })
    }
}

impl<U: Unit> Term for Last<U> {
    ghost counts = { λ t a d posts day. U.rule t.n.number a d posts day };

    ghost newest = { λ t a d. U.newest t.n.number a d t.n.positive };

    ghost expired = { λ t a d posts day posts2 day2 h k l m. U.expired t.n.number a d posts day posts2 day2 l m };

    ghost newer = { λ t a d a2 d2 posts day h k l m. U.newer t.n.number a d a2 d2 posts day h k };

    fn still(&self, stamp: Stamp, clock: Clock) -> bool {
        U::since(stamp, clock) < self.n.number
    }
}

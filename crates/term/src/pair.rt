//! Terms over two terms.

ghost use Rattle.term.specs.Formulas.{both, either};
ghost use Rattle.term.specs.Tests.{and_goes, or_goes};
ghost use Rattle.std.proofs.Common.{rules};

use crate::window::{Clock, Stamp, Term};

// Two types: they differ in an operation, && or ||, which a third type and a trait with laws would have to name.

/// A piece counts while it counts by both terms.
#[derive(Drop)]
pub struct Both<S, T> {
    pub first: S,
    pub second: T,
}

/// A piece counts while it counts by either term.
#[derive(Drop)]
pub struct Either<S, T> {
    pub first: S,
    pub second: T,
}

impl<S: Term, T: Term> Term for Both<S, T> {
    ghost counts = { λ t a d posts day. both (S.Term.counts t.first) (T.Term.counts t.second) a d posts day };

    ghost newest = { Prim.search rules };

    ghost expired = { λ t a d posts day posts2 day2 h k l m.
        and_goes _ _ _ _ _
        (S.Term.expired t.first a d posts day posts2 day2 h k l m)
        (T.Term.expired t.second a d posts day posts2 day2 h k l m) };

    ghost newer = { λ t a d a2 d2 posts day h k l m.
        and_goes _ _ _ _ _
        (S.Term.newer t.first a d a2 d2 posts day h k l m)
        (T.Term.newer t.second a d a2 d2 posts day h k l m) };

    fn still(&self, stamp: Stamp, clock: Clock) -> bool {
        self.first.still(stamp, clock) && self.second.still(stamp, clock)
    }
}

impl<S: Term, T: Term> Term for Either<S, T> {
    ghost counts = { λ t a d posts day. either (S.Term.counts t.first) (T.Term.counts t.second) a d posts day };

    ghost newest = { Prim.search rules };

    ghost expired = { λ t a d posts day posts2 day2 h k l m.
        or_goes _ _ _ _ _
        (S.Term.expired t.first a d posts day posts2 day2 h k l m)
        (T.Term.expired t.second a d posts day posts2 day2 h k l m) };

    ghost newer = { λ t a d a2 d2 posts day h k l m.
        or_goes _ _ _ _ _
        (S.Term.newer t.first a d a2 d2 posts day h k l m)
        (T.Term.newer t.second a d a2 d2 posts day h k l m) };

    fn still(&self, stamp: Stamp, clock: Clock) -> bool {
        self.first.still(stamp, clock) || self.second.still(stamp, clock)
    }
}

//! Tests that a place passes or fails.

ghost use Rattle.std.specs.Prelude.{◌≡◌, Bool, ◌==◌, nat_le};
ghost use Rattle.rules.specs.declared.place.Place.{Place};

use rules::Place;
use tape::Tape;
use term::{Clock, Term};

/// A question about a place of the shelf.
// Not a closure: a list is filtered by the function `passes`, and of a closure a contract has but a relation, `F.post`.
pub trait Test<P> {
    ghost passes: { Self → Place P → Bool };

    fn passes_at(&self, place: &Place<P>) -> bool
        ensures { result ≡ passes self.now place.now };
}

/// Its piece counts.
#[derive(Drop)]
pub struct Counting<'a, W> {
    pub term: &'a W,
    pub clock: Clock,
}

impl<'a, P, W: Term> Test<P> for Counting<'a, W> {
    ghost passes = { λ t x. W.Term.counts t.term.now x.arrival x.day t.clock.posts t.clock.day };

    fn passes_at(&self, place: &Place<P>) -> bool {
        self.term.still(place.stamp(), self.clock)
    }
}

/// Its arrival is no smaller than another.
#[derive(Clone, Copy)]
pub struct Since {
    pub arrival: u32,
}

impl<P> Test<P> for Since {
    ghost passes = { λ t x. nat_le t.arrival x.arrival };

    fn passes_at(&self, place: &Place<P>) -> bool {
        self.arrival <= place.arrival
    }
}

/// Its piece is within a radius of another.
#[derive(Drop)]
pub struct Near<'a, P, T> {
    pub tape: &'a T,
    pub piece: &'a P,
    pub radius: u32,
}

impl<'a, P, T: Tape<P>> Test<P> for Near<'a, P, T> {
    ghost passes = { λ t x. nat_le (T.Tape.dist t.tape.now x.piece t.piece.now) t.radius };

    fn passes_at(&self, place: &Place<P>) -> bool {
        self.tape.measure(&place.piece, self.piece) <= self.radius
    }
}

/// It stands for what an attractor took.
#[derive(Clone, Copy)]
pub struct StandingFor {
    pub attractor: u32,
}

impl<P> Test<P> for StandingFor {
    ghost passes = { λ t x. (x.attractor == t.attractor) };

    fn passes_at(&self, place: &Place<P>) -> bool {
        place.attractor == self.attractor
    }
}

//! How far a board reaches: one text for every kind of piece, every tape and every term.

#![tactic(auto)]

ghost use Rattle.std.specs.Prelude.{◌≡◌, ℕ, ◌≤◌};
ghost use Rattle.reach.specs.Covers.{Covers};

use tape::Tape;
use term::{Clock, Stamp, Term};

/// A piece, and when it was posted.
#[derive(Clone, Copy)]
pub struct Posted<P> {
    pub piece: P,
    pub stamp: Stamp,
}

/// The least radius that a board needs so that every posted piece that counts at `clock` lies within it.
pub fn reach<P, T: Tape<P>, W: Term>(
    tape: &T,
    term: &W,
    board: &P,
    posted: &[Posted<P>],
    clock: Clock,
) -> u32
    ensures covers { Covers (T.Tape.dist tape.now board.now) (W.Term.counts term.now) clock result posted.now }
    ensures least { (m : ℕ) → Covers (T.Tape.dist tape.now board.now) (W.Term.counts term.now) clock m posted.now → result ≤ m }
{
    let mut most = 0;
    // A loop: over filter, map and max the proof did not close.
    for x in posted {
        if term.still(x.stamp, clock) {
            most = tape.measure(board, &x.piece).max(most);
        }
    }
    most
}

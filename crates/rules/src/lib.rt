//! The rules of the book, and the theorem that holds of every run of it.
//!
//! No call of the book runs here. `specs/` has the rules as definitions over a view of the book: `Views` is what it
//! holds, `Steps` what a post and a turn of the day do to it, `Picking` how a pick chooses, and `Calls` what each call
//! answers, refuses and leaves. `Runs` says which runs there are, and `Promises` what is promised of them all.

#![tactic(auto)]

ghost use Rattle.rules.specs.Promises.{RunsHold, RunsHoldUnder};

use tape::Tape;
use term::Term;

pub mod picked;
pub mod place;

pub use picked::{Grain, Picked};
pub use place::Place;

/// Every run of a book, under every tape and every term that obey their laws: each answered pick covers the window
/// (cover) and is not beaten by more than its factor (factor), a pick is refused only for cause (refusal), and a
/// shelf of the stated size never runs out (room).
pub fn runs_hold<P>()
    ensures { RunsHold P }
{}

/// The same, of a given tape and term: whatever implements the traits obeys their laws.
pub fn runs_hold_under<P, T: Tape<P>, W: Term>(tape: &T, term: &W)
    ensures { RunsHoldUnder P (T.Tape.dist tape.now) (W.Term.counts term.now) }
{}

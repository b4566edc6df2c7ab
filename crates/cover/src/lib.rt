//! How far a few chosen pieces reach over many: the mathematics of centres, for every kind of piece.
//!
//! Nothing here runs. Each function is a theorem: its contract is the statement, and the check demands the
//! proof. A choice of centres reaches as far as the farthest piece lies from its nearest centre.

#![tactic(auto)]

ghost use Rattle.cover.specs.Choices.{FarthestFirst, Pigeonhole};

/// Of pieces that lie at least e apart, one to a centre and one more, two share their nearest centre.
pub fn pigeonhole<P>()
    ensures { Pigeonhole P }
{}

/// Centres chosen farthest-first reach at most twice as far as any other choice of as many.
pub fn farthest_first<P>()
    ensures { FarthestFirst P }
{}

//! Worked cases of the rules, at hull panels, joinery parts and sheet grades.
//!
//! Nothing here runs: the one function is a theorem, and its contract is all cases together.

#![tactic(auto)]

ghost use Rattle.worked.specs.Cases.{Worked};

/// Every worked case comes out as it should.
pub fn worked_cases()
    ensures { Worked }
{}

//! Lists of places, packed from the front of a slice: which of them pass a test, and what stays.

#![tactic(auto)]

pub mod search;
pub mod stay;
pub mod test;

pub use search::{all_of, first_of, least_of};
pub use stay::{keep, marks, pack, remove};
pub use test::{Counting, Near, Since, StandingFor, Test};

//! Pieces, and tapes that measure the distance between two of them.
//!
//! A tape answers a whole number from 0 to 1,000,000 that obeys the laws of a distance: a piece is at 0 from
//! itself, the order of two pieces does not matter, and no way round through a third piece is shorter.

#![tactic(auto)]

pub mod cut;
pub mod distance;
pub mod hull;
pub mod joined;
pub mod joinery;

pub use cut::{Cut, lay};
pub use distance::Tape;
pub use hull::{HullTape, Panel};
pub use joined::{Joined, JoinedTape};
pub use joinery::{JoineryTape, Part};

//! How a pick reads the shelf: the trial that finds its radius, and the centres, farthest-first.

#![tactic(auto)]

pub mod centres;
mod lists;
pub mod radii;
pub mod trial;

pub use centres::{choose_centres, farthest};
pub use radii::{Lists, Radii};
pub use trial::first_passing;

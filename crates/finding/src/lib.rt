//! How a find and a hand out read the shelf.

#![tactic(auto)]

pub mod hand;
pub mod seek;
mod walk;

pub use hand::piece_at;
pub use seek::find_place;

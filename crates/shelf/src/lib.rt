//! The shelf: the places that the pieces of a book lie on, how a find, a hand out and a pick read them, and how a
//! change of a radius writes its part of them.

#![tactic(auto)]

pub mod changing;
mod choosing;
pub mod lent;

pub use changing::change_at;
pub use lent::Shelf;

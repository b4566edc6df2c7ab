//! One radius of a book: its row, its part of the shelf, and what a post and a turn of the day do to them.

#![tactic(auto)]

pub mod change;
mod coarse;
mod fine;
mod keeping;
pub mod kept;
mod layout;
mod lists;
pub mod radius;
pub mod settings;
mod step;

pub use change::{Change, Expiring, Posting};
pub use kept::Row;
pub use radius::Radius;
pub use settings::Settings;

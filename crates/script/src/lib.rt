//! Commands as text, one to a line.

#![tactic(auto)]

pub mod line;
pub mod mistake;
mod number;
mod scan;

pub use line::parse;
pub use mistake::Mistake;
pub use scan::{Lines, line_end};

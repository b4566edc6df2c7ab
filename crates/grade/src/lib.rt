//! Sheet grades, the tables that say how far apart they are, and the tape over a checked table.

#![tactic(auto)]

mod flaw;
pub mod sheet;
pub mod table;

pub use sheet::{Grade, GradeTape};
pub use table::CheckedTable;

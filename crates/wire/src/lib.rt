//! Commands written into bytes and read from them.

#![tactic(auto)]

pub mod law;
pub mod reading;
pub mod writing;

pub use law::{read_writes_back, written_reads_back};
pub use reading::read;
pub use writing::write;

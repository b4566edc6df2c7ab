//! Terms: how long a piece counts.
//!
//! A piece is posted with an arrival, its number among the posts, and a day. The window of a book is the
//! pieces that still count, and a term tells which those are.

#![tactic(auto)]

pub mod last;
pub mod pair;
pub mod span;
pub mod window;

pub use last::{ByDays, ByNumber, Days, Last, Posts, Unit};
pub use pair::{Both, Either};
pub use span::Span;
pub use window::{Clock, Stamp, Term};

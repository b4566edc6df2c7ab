//! The book: it follows a stream of pieces of one kind, and forgets those whose term is over.
//!
//! Judged settings begin a book that is being set up; radii are entered; opening moves it into an open book, which
//! takes no more radii. The shelf, on which its pieces lie, is lent to each call, and so are the tape and the term.

#![tactic(auto)]

mod choosing;
pub mod open;
mod opening;
mod passing;
mod seeking;
pub mod setup;
mod stepping;

pub use open::Book;
pub use opening::judge;
pub use setup::Setup;
pub use shelf::Shelf;

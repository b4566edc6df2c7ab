//! A feed's commands, one at a time, over every kind of piece.
//!
//! A session takes commands as they come: settings choose the kind of piece and begin a book, radii are entered, the
//! book is opened, and pieces, days and picks follow. `specs/Halls.antt` says what each command answers and what it
//! leaves, `specs/Talks.antt` what all the answers of a session promise.

#![tactic(auto)]

mod beginning;
pub mod session;
mod taking;

pub use session::Session;

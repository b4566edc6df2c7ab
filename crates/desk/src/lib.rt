//! The commands of a feed at the book of one kind of piece, one text for every kind.
//!
//! `specs/Asks.antt` says what each command answers and where it leaves the book, and `specs/Accounts.antt` what the
//! answers promise by the commands that were taken alone.

#![tactic(auto)]

pub mod ask;
pub mod desk;
mod taking;

pub use ask::Ask;
pub use desk::Desk;

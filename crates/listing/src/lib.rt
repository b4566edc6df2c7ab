//! The text of a command, as one writes it by hand.

#![tactic(auto)]

pub mod text;

pub use text::{LINE_ROOM, Line, put_text, text_of, write_text};

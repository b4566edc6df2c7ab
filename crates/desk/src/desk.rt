//! The book of one kind of piece, as the commands of a feed lead it.

use book::{Book, Setup};
use row::Settings;
use term::Span;

/// How far a book has come: radii are entered, or it is open.
#[derive(Drop)]
pub enum Stage<P> {
    SettingUp(Setup<P>),
    Open(Book<P>),
}

/// A book with the settings and the term that it was begun with.
#[derive(Drop)]
pub struct Desk<P> {
    pub(crate) settings: Settings,
    pub(crate) span: Span,
    pub(crate) stage: Stage<P>,
}

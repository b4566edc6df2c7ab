//! A session.

use desk::Desk;
use tape::{Panel, Part};

/// Where a session stands: nothing has begun, or it has a desk for the kind of piece that its settings chose.
#[derive(Drop)]
pub(crate) enum Hall {
    Idle,
    OfPanels(Desk<Panel>),
    OfParts(Desk<Part>),
}

/// What a feed has led to.
#[derive(Drop)]
pub struct Session {
    pub(crate) hall: Hall,
}

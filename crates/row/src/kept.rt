//! The row of a radius.

use term::Stamp;

/// What a book keeps of one radius: how long its lists are, and the lost mark. The lists themselves lie on the
/// radius' part of the shelf.
#[derive(Clone, Copy)]
pub struct Row {
    pub radius: u32,
    pub attractors: usize,
    pub representatives: usize,
    pub entries: usize,
    pub lost: Option<Stamp>,
}

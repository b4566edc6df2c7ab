//! An open book.

ghost use Rattle.std.specs.Prelude.{◌≡◌, ◌≤◌, length};
ghost use Rattle.book.specs.Rows.{RadiiBounded, RowsWithin};

use row::{Row, Settings};
use std::marker::PhantomData;

/// An open book of pieces of one kind: a row for each radius, the posts made, and the day.
#[derive(Drop)]
pub struct Book<P> {
    pub(crate) settings: Settings,
    // No heap: room for 24 rows, of which `count` are used.
    pub(crate) rows: [Row; 24],
    pub(crate) count: usize,
    pub(crate) posts: u32,
    pub(crate) day: u32,
    pub(crate) kind: PhantomData<P>,
    ghost few: { count ≤ 24 },
    ghost long: { length rows ≡ 24 },
    ghost within: { RowsWithin settings rows },
    ghost bounded: { RadiiBounded rows },
    ghost posted: { posts ≤ 1000000 },
}

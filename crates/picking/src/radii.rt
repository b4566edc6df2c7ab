//! The radii of a book with their parts of the shelf.

ghost use Rattle.std.specs.Prelude.{◌≡◌, ℕ, ◌*◌, ◌<◌, ◌≤◌, length, slice_index_or};
ghost use Rattle.picking.specs.Trials.{no_row};
ghost use Rattle.row.specs.Seen.{Within, judged};
ghost use Rattle.rules.specs.Limits.{part_size};

use row::{Row, Settings};
use rules::Place;

/// The radii of a book, one after another: the row of each, and its part of the shelf.
#[derive(Drop)]
pub struct Radii<'a, P> {
    pub rows: &'a [Row],
    pub places: &'a [Place<P>],
    pub settings: Settings,
    ghost within: { (j : ℕ) → j < length rows.now → Within settings (slice_index_or rows.now j no_row) },
    ghost long: { length rows.now * part_size (judged settings) ≤ length places.now },
}

/// The lists of one radius, to be read: its row, which counts them, and its part of the shelf, on which they lie.
#[derive(Drop)]
pub struct Lists<'a, P> {
    pub row: &'a Row,
    pub part: &'a [Place<P>],
    pub settings: Settings,
    ghost within: { Within settings row.now },
    ghost size: { length part.now ≡ part_size (judged settings) },
}

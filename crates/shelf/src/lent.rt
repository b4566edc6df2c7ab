//! A shelf of lent places, and the radii that lie on it.

ghost use Rattle.std.specs.Prelude.{◌≡◌, ℕ, ◌*◌, ◌<◌, ◌≤◌, length, slice_index_or};
ghost use Rattle.picking.specs.Trials.{no_row};
ghost use Rattle.row.specs.Seen.{Within, judged};
ghost use Rattle.rules.specs.Limits.{part_size};

use picking::Radii;
use row::{Row, Settings};
use rules::Place;

/// The shelf of a book: places for pieces of any kind, lent to it. Any numbers may lie on it at first.
#[derive(Drop)]
pub struct Shelf<'a, P> {
    pub places: &'a mut [Place<P>],
}

impl<P> Shelf<'_, P> {
    /// How many places it has.
    pub fn len(&self) -> usize
        ensures { result ≡ length self.now.places.now }
    {
        self.places.len()
    }

    /// The radii with these rows, on its places.
    pub fn radii<'b>(&'b self, rows: &'b [Row], settings: Settings) -> Radii<'b, P>
        requires within { (j : ℕ) → j < length rows.now → Within settings (slice_index_or rows.now j no_row) }
        requires long { length rows.now * part_size (judged settings) ≤ length self.now.places.now }
        ensures rows { result.rows.now ≡ rows.now }
        ensures places { result.places.now ≡ self.now.places.now }
        ensures settings { result.settings ≡ settings }
    {
        Radii {
            rows,
            places: self.places,
            settings,
        }
    }
}

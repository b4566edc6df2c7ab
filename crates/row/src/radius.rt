//! A radius with its part of the shelf.

ghost use Rattle.std.specs.Prelude.{◌≡◌, length};
ghost use Rattle.rules.specs.Limits.{part_size};
ghost use Rattle.row.specs.Seen.{Within, judged};

use crate::kept::Row;
use crate::settings::Settings;
use rules::Place;

/// A radius of a book: its row, and its part of the shelf, on which its lists lie.
#[derive(Drop)]
pub struct Radius<'a, P> {
    pub row: &'a mut Row,
    pub part: &'a mut [Place<P>],
    pub settings: Settings,
    ghost within: { Within settings row.now },
    ghost size: { length part.now ≡ part_size (judged settings) },
}

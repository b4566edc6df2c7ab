//! A change of one radius on its part of the shelf.

ghost use Rattle.std.specs.Prelude.{◌≡◌, ◌+◌, ◌≤◌, length};
ghost use Rattle.packed.specs.Lists.{Between, cut};
ghost use Rattle.row.specs.Seen.{Within, judged, seen_row};
ghost use Rattle.rules.specs.Limits.{part_size};
ghost use Rattle.rules.specs.Promises.{RowFits};

use row::{Change, Radius, Row, Settings};
use rules::Place;

/// Changes the radius of a row and its part.
// Not in `change_at`: of a part cut where a radius is made of it, it was tried and not proved that the shelf gets it back.
fn change_on<P: Copy, C: Change<P>>(
    row: &mut Row,
    part: &mut [Place<P>],
    settings: Settings,
    change: &C,
)
    requires within { Within settings row.old }
    requires size { length part.old ≡ part_size (judged settings) }
    requires bounded { row.old.radius ≤ 1000000 }
    ensures seen { RowFits (judged settings) (C.Change.does change.now settings (seen_row settings row.old part.old)) → seen_row settings row.new part.new ≡ C.Change.does change.now settings (seen_row settings row.old part.old) }
    ensures kept { Within settings row.new }
    ensures radius { row.new.radius ≡ row.old.radius }
{
    let mut radius = Radius {
        row,
        part,
        settings,
    };
    change.change(&mut radius);
}

/// Changes the radius whose part of the shelf begins at `at`.
pub fn change_at<P: Copy, C: Change<P>>(
    row: &mut Row,
    places: &mut [Place<P>],
    at: usize,
    settings: Settings,
    change: &C,
)
    requires room { at + part_size (judged settings) ≤ length places.old }
    requires within { Within settings row.old }
    requires bounded { row.old.radius ≤ 1000000 }
    ensures seen { RowFits (judged settings) (C.Change.does change.now settings (seen_row settings row.old (cut at (part_size (judged settings)) places.old))) → seen_row settings row.new (cut at (part_size (judged settings)) places.new) ≡ C.Change.does change.now settings (seen_row settings row.old (cut at (part_size (judged settings)) places.old)) }
    ensures kept { Within settings row.new }
    ensures radius { row.new.radius ≡ row.old.radius }
    ensures between { Between at (at + part_size (judged settings)) places.old places.new }
{
    change_on(
        row,
        &mut places[at..at + settings.part_size()],
        settings,
        change,
    );
}

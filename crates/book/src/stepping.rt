//! A change of every radius, each on its own part of the shelf.

ghost use Rattle.std.specs.Prelude.{◌≡◌, ◌+◌, ◌*◌, ◌<◌, ◌≤◌, map, length, take, drop, slice_index_or, slice_set};
ghost use Rattle.packed.specs.Lists.{Between, cut};
ghost use Rattle.picking.specs.Trials.{no_row};
ghost use Rattle.row.specs.Seen.{Within, judged, seen_row, seen_rows};
ghost use Rattle.rules.specs.Limits.{part_size};
ghost use Rattle.rules.specs.Promises.{RowFits};
ghost use Rattle.std.specs.List.{AllByRecursion as Every};

use crate::open::Book;
use row::Change;
use rules::Place;
use shelf::change_at;

impl<P: Copy> Book<P> {
    /// Changes the radius at `j`.
    fn change_row<C: Change<P>>(&mut self, places: &mut [Place<P>], j: usize, change: &C)
        requires there { j < self.old.count }
        requires long { self.old.count * part_size (judged self.old.settings) ≤ length places.old }
        ensures seen { RowFits (judged self.old.settings) (C.Change.does change.now self.old.settings (seen_row self.old.settings (slice_index_or self.old.rows j no_row) (cut (j * part_size (judged self.old.settings)) (part_size (judged self.old.settings)) places.old))) → seen_rows self.old.settings (take self.old.count self.new.rows) places.new ≡ slice_set (seen_rows self.old.settings (take self.old.count self.old.rows) places.old) j (C.Change.does change.now self.old.settings (seen_row self.old.settings (slice_index_or self.old.rows j no_row) (cut (j * part_size (judged self.old.settings)) (part_size (judged self.old.settings)) places.old))) }
        ensures settings { self.new.settings ≡ self.old.settings }
        ensures count { self.new.count ≡ self.old.count }
        ensures posts { self.new.posts ≡ self.old.posts }
        ensures day { self.new.day ≡ self.old.day }
        ensures rest { drop self.old.count self.new.rows ≡ drop self.old.count self.old.rows }
        ensures surplus { drop (self.old.count * part_size (judged self.old.settings)) places.new ≡ drop (self.old.count * part_size (judged self.old.settings)) places.old }
    {
        let settings = self.settings;
        let mut row = self.rows[j];
        change_at(&mut row, places, j * settings.part_size(), settings, change);
        self.rows[j] = row;
    }

    /// Changes every radius.
    pub(crate) fn change_rows<C: Change<P>>(&mut self, places: &mut [Place<P>], change: &C)
        requires long { self.old.count * part_size (judged self.old.settings) ≤ length places.old }
        ensures seen { Every (RowFits (judged self.old.settings)) (map (C.Change.does change.now self.old.settings) (seen_rows self.old.settings (take self.old.count self.old.rows) places.old)) → seen_rows self.old.settings (take self.old.count self.new.rows) places.new ≡ map (C.Change.does change.now self.old.settings) (seen_rows self.old.settings (take self.old.count self.old.rows) places.old) }
        ensures settings { self.new.settings ≡ self.old.settings }
        ensures count { self.new.count ≡ self.old.count }
        ensures posts { self.new.posts ≡ self.old.posts }
        ensures day { self.new.day ≡ self.old.day }
        ensures rest { drop self.old.count self.new.rows ≡ drop self.old.count self.old.rows }
        ensures surplus { drop (self.old.count * part_size (judged self.old.settings)) places.new ≡ drop (self.old.count * part_size (judged self.old.settings)) places.old }
    {
        // By the index: a row and its part of the shelf are found by it.
        let n = self.count;
        for j in 0..n {
            self.change_row(places, j, change);
        }
    }
}

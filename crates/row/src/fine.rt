//! A piece is refined: the first fine entry near it takes it, or it makes a new one.

ghost use Rattle.std.specs.Prelude.{◌≡◌, ◌<◌, [], ◌∷◌, ◌++◌};
ghost use Rattle.rules.specs.Steps as rule;
ghost use Rattle.rules.specs.Steps.{make_room};
ghost use Rattle.row.specs.Edits.{with_fine};
ghost use Rattle.row.specs.Radii.{Same, seen};
ghost use Rattle.row.specs.Seen.{judged};

use crate::radius::Radius;
use packed::{Near, first_of, least_of, remove};
use rules::Place;
use tape::Tape;

impl<P: Copy> Radius<'_, P> {
    /// Where the fine limit is reached, the entry with the least latest arrival goes, and leaves the lost mark.
    fn make_room(&mut self)
        ensures same { Same self.old self.new }
        ensures seen { let made = make_room self.old.settings.limit (seen self.old).fine self.old.row.now.lost in seen self.new ≡ with_fine made.0 made.1 (seen self.old) }
        ensures room { self.new.row.now.entries < self.old.settings.limit }
    {
        if self.row.entries == self.settings.limit {
            let firsts = self.settings.firsts_at();
            let latests = self.settings.latests_at();
            let count = self.row.entries;
            let i = least_of(self.latests());
            let gone = self.part[latests + i];
            self.row.lost = Some(gone.stamp());
            remove(&mut self.part[firsts..firsts + count], i);
            self.row.entries = remove(&mut self.part[latests..latests + count], i);
        }
    }

    /// A new entry with a piece as first and latest goes last.
    fn append_entry(&mut self, place: Place<P>)
        requires { self.old.row.now.entries < self.old.settings.limit }
        ensures same { Same self.old self.new }
        ensures seen { seen self.new ≡ with_fine ((seen self.old).fine ++ (record { first = place; latest = place } ∷ [])) self.old.row.now.lost (seen self.old) }
    {
        let count = self.row.entries;
        self.part[self.settings.firsts_at() + count] = place;
        self.part[self.settings.latests_at() + count] = place;
        self.row.entries += 1;
    }

    /// The first entry whose first piece is within the step takes a piece; if there is none, a new entry goes last.
    pub(crate) fn refine<T: Tape<P>>(&mut self, tape: &T, place: Place<P>)
        ensures same { Same self.old self.new }
        ensures seen { seen self.new ≡ rule.refine (T.Tape.dist tape.now) (judged self.old.settings) place (seen self.old) }
    {
        let near = Near {
            tape,
            piece: &place.piece,
            radius: self.row.radius / self.settings.fineness,
        };
        match first_of(self.firsts(), &near) {
            Some(i) => self.part[self.settings.latests_at() + i] = place,
            None => {
                self.make_room();
                self.append_entry(place);
            }
        }
    }
}

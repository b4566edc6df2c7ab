//! A piece settles: the oldest attractor near it takes it, or it becomes one itself.

ghost use Rattle.std.specs.Prelude.{◌≡◌, ◌<◌, ◌≤◌, [], ◌∷◌, ◌++◌, length};
ghost use Rattle.rules.specs.Limits.{representative_room};
ghost use Rattle.rules.specs.Steps as rule;
ghost use Rattle.rules.specs.Steps.{standing_for};
ghost use Rattle.row.specs.Edits.{less_oldest, stands_with, takes, with_attractors, with_representatives};
ghost use Rattle.row.specs.Radii.{Same, seen};

use crate::radius::Radius;
use packed::{Near, Since, StandingFor, first_of, remove};
use rules::Place;
use tape::Tape;

/// The piece of a place as the representative of an attractor.
fn standing_for<P: Copy>(place: Place<P>, attractor: u32) -> Place<P>
    ensures { result ≡ standing_for attractor place }
{
    Place { attractor, ..place }
}

impl<P: Copy> Radius<'_, P> {
    /// Where k + 1 attractors stand, the oldest goes.
    fn trim_attractors(&mut self)
        ensures same { Same self.old self.new }
        ensures seen { seen self.new ≡ with_attractors (less_oldest self.old.settings.k (seen self.old).attractors) (seen self.old) }
        ensures room { self.new.row.now.attractors ≤ self.old.settings.k }
    {
        if self.row.attractors > self.settings.k {
            self.row.attractors = remove(&mut self.part[..self.row.attractors], 0);
        }
    }

    /// Puts a place last among the attractors.
    fn append_attractor(&mut self, place: Place<P>)
        requires { self.old.row.now.attractors ≤ self.old.settings.k }
        ensures same { Same self.old self.new }
        ensures seen { seen self.new ≡ with_attractors ((seen self.old).attractors ++ (place ∷ [])) (seen self.old) }
    {
        self.part[self.row.attractors] = place;
        self.row.attractors += 1;
    }

    /// Puts a place last among the representatives, if there is room.
    fn append_representative(&mut self, place: Place<P>)
        ensures same { Same self.old self.new }
        ensures seen { self.old.row.now.representatives < representative_room self.old.settings.k → seen self.new ≡ with_representatives ((seen self.old).representatives ++ (place ∷ [])) (seen self.old) }
    {
        if self.row.representatives < self.settings.representative_room() {
            let start = self.settings.representatives_at();
            self.part[start + self.row.representatives] = place;
            self.row.representatives += 1;
        }
    }

    /// With k + 1 attractors, what is older than the oldest of them is removed.
    fn clean_up(&mut self)
        ensures same { Same self.old self.new }
        ensures seen { seen self.new ≡ rule.clean_up self.old.settings.k (seen self.old) }
    {
        if self.row.attractors == self.settings.attractor_room() {
            let since = Since {
                arrival: self.part[0].arrival,
            };
            self.keep_representatives(&since);
            self.keep_entries(&since);
        }
    }

    /// The attractor of an arrival takes a piece: its representative becomes the piece.
    fn attract(&mut self, place: Place<P>, attractor: u32)
        ensures same { Same self.old self.new }
        ensures seen { seen self.new ≡ takes place attractor (seen self.old) }
    {
        if let Some(i) = first_of(self.representatives(), &StandingFor { attractor }) {
            let start = self.settings.representatives_at();
            self.part[start + i] = standing_for(place, attractor);
        }
    }

    /// Whether a piece of an arrival still stands beside the attractors after a clean-up.
    fn stands(&self, arrival: u32) -> bool
        ensures { result ≡ stands_with self.now.settings.k arrival (seen self.now).attractors }
    {
        self.row.attractors < self.settings.attractor_room() || self.part[0].arrival <= arrival
    }

    /// A piece becomes an attractor, and its own representative. It is told what follows if that fits.
    fn enrol(&mut self, place: Place<P>)
        ensures same { Same self.old self.new }
        ensures seen { length (rule.clean_up self.old.settings.k (rule.enrol self.old.settings.k place (seen self.old))).representatives ≤ representative_room self.old.settings.k → seen self.new ≡ rule.clean_up self.old.settings.k (rule.enrol self.old.settings.k place (seen self.old)) }
    {
        self.trim_attractors();
        self.append_attractor(place);
        self.clean_up();
        if self.stands(place.arrival) {
            self.append_representative(standing_for(place, place.arrival));
        }
    }

    /// The oldest attractor within twice the radius takes a piece; if there is none, it becomes one itself.
    pub(crate) fn settle<T: Tape<P>>(&mut self, tape: &T, place: Place<P>)
        requires { self.old.row.now.radius ≤ 1000000 }
        ensures same { Same self.old self.new }
        ensures seen { length (rule.settle (T.Tape.dist tape.now) self.old.settings.k place (seen self.old)).representatives ≤ representative_room self.old.settings.k → seen self.new ≡ rule.settle (T.Tape.dist tape.now) self.old.settings.k place (seen self.old) }
    {
        let near = Near {
            tape,
            piece: &place.piece,
            radius: 2 * self.row.radius,
        };
        match first_of(self.attractors(), &near) {
            Some(i) => {
                let attractor = self.part[i].arrival;
                self.attract(place, attractor);
            }
            None => self.enrol(place),
        }
    }
}

//! A turn of the day and a post, at one radius.

ghost use Rattle.std.specs.Prelude.{◌≡◌, ◌≤◌};
ghost use Rattle.rules.specs.Promises.{RowFits};
ghost use Rattle.rules.specs.Steps as rule;
ghost use Rattle.row.specs.Radii.{Same, seen};
ghost use Rattle.row.specs.Seen.{judged};

use crate::radius::Radius;
use packed::Counting;
use rules::Place;
use tape::Tape;
use term::{Clock, Term};

impl<P: Copy> Radius<'_, P> {
    /// Removes what no longer counts.
    pub(crate) fn expire<W: Term>(&mut self, term: &W, clock: Clock)
        ensures same { Same self.old self.new }
        ensures seen { seen self.new ≡ rule.expire (W.Term.counts term.now) clock.posts clock.day (seen self.old) }
    {
        let counting = Counting { term, clock };
        self.keep_attractors(&counting);
        self.keep_representatives(&counting);
        self.keep_entries(&counting);
    }

    /// Posts a piece: what no longer counts goes, and the piece settles and is refined. It is told what follows if
    /// that fits.
    pub(crate) fn post<T: Tape<P>, W: Term>(&mut self, tape: &T, term: &W, place: Place<P>)
        requires { self.old.row.now.radius ≤ 1000000 }
        ensures same { Same self.old self.new }
        ensures seen { RowFits (judged self.old.settings) (rule.post_row (T.Tape.dist tape.now) (W.Term.counts term.now) (judged self.old.settings) place (seen self.old)) → seen self.new ≡ rule.post_row (T.Tape.dist tape.now) (W.Term.counts term.now) (judged self.old.settings) place (seen self.old) }
    {
        let clock = Clock {
            posts: place.arrival,
            day: place.day,
        };
        self.expire(term, clock);
        self.settle(tape, place);
        self.refine(tape, place);
    }
}

//! What a call does to each radius alike.

ghost use Rattle.std.specs.Prelude.{◌≡◌, ◌≤◌};
ghost use Rattle.rules.specs.Promises.{RowFits};
ghost use Rattle.rules.specs.Steps as rule;
ghost use Rattle.rules.specs.Views as view;
ghost use Rattle.row.specs.declared.settings.Settings.{Settings};
ghost use Rattle.row.specs.Radii.{Same, seen};
ghost use Rattle.row.specs.Seen.{judged};

use crate::radius::Radius;
use rules::Place;
use tape::Tape;
use term::{Clock, Term};

/// A change of one radius, as the rules have it, promised where what follows fits its part of the shelf.
// Not a closure: the rules' change has to be named as a function, `does`, and of a closure a contract has but a relation.
pub trait Change<P> {
    ghost does: { Self → Settings → view.Row P → view.Row P };

    fn change(&self, radius: &mut Radius<'_, P>)
        requires bounded { radius.old.row.now.radius ≤ 1000000 }
        ensures same { Same radius.old radius.new }
        ensures seen { RowFits (judged radius.old.settings) (does self.now radius.old.settings (seen radius.old)) → seen radius.new ≡ does self.now radius.old.settings (seen radius.old) };
}

/// A post.
#[derive(Drop)]
pub struct Posting<'a, 'b, P, T, W> {
    pub tape: &'a T,
    pub term: &'b W,
    pub place: Place<P>,
}

impl<'a, 'b, P: Copy, T: Tape<P>, W: Term> Change<P> for Posting<'a, 'b, P, T, W> {
    ghost does = { λ t s row. rule.post_row (T.Tape.dist t.tape.now) (W.Term.counts t.term.now) (judged s) t.place row };

    fn change(&self, radius: &mut Radius<'_, P>) {
        radius.post(self.tape, self.term, self.place);
    }
}

/// A turn of the day.
#[derive(Drop)]
pub struct Expiring<'a, W> {
    pub term: &'a W,
    pub clock: Clock,
}

impl<'a, P: Copy, W: Term> Change<P> for Expiring<'a, W> {
    ghost does = { λ t s row. rule.expire (W.Term.counts t.term.now) t.clock.posts t.clock.day row };

    fn change(&self, radius: &mut Radius<'_, P>) {
        radius.expire(self.term, self.clock);
    }
}

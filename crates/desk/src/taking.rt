//! Commands taken.

ghost use Rattle.std.specs.Prelude.{◌≡◌, List, length};
ghost use Rattle.cover.specs.Distances.{Distance};
ghost use Rattle.row.specs.Seen.{judged};
ghost use Rattle.rules.specs.Calls.{beginning};
ghost use Rattle.rules.specs.Promises.{Story};
ghost use Rattle.rules.specs.Runs.{SettingUp};
ghost use Rattle.rules.specs.declared.place.Place.{Place};
ghost use Rattle.term.specs.Formulas.{Rule};
ghost use Rattle.term.specs.Spans.{spanned};
ghost use Rattle.desk.specs.Accounts.{Kept, Led, begun_with, heard};
ghost use Rattle.desk.specs.Asks.{stage_after};
ghost use Rattle.desk.specs.Seen.{Took, stage_of};

use crate::ask::Ask;
use crate::desk::{Desk, Stage};
use book::{Setup, Shelf};
use label::Label;
use refusal::Refusal;
use row::Settings;
use rules::Place;
use std::mem;
use tape::Tape;
use term::Span;

impl<P> Desk<P> {
    /// A book that begins with these settings and this term.
    pub fn begin(settings: Settings, span: Span) -> Desk<P>
        ensures stage { (places : List (Place P)) → stage_of result places ≡ SettingUp (beginning (judged settings)) }
        ensures run { (dist : Distance P) (counts : Rule) (places : List (Place P)) → Led dist counts (stage_of result places) (begun_with (judged settings)) }
        ensures term { result.span ≡ span }
    {
        Desk {
            settings,
            span,
            stage: Stage::SettingUp(Setup::begin(settings)),
        }
    }
}

impl<P: Copy> Desk<P> {
    // Apart from `take`: here each command keeps its own promise, and there, in one place, come those of a run.
    fn perform<T: Tape<P>>(
        &mut self,
        ask: Ask<P>,
        places: &mut [Place<P>],
        tape: &T,
    ) -> Result<Option<Label>, Refusal>
        ensures { Took (T.Tape.dist tape.now) (spanned self.old.span) ask result self.old places.old self.new places.new }
    {
        let shelf = &mut Shelf { places };
        match (ask, &mut self.stage) {
            (Ask::Radius(radius), Stage::SettingUp(setup)) => setup.enter(radius).map(|()| None),
            (Ask::Open, Stage::SettingUp(setup)) => {
                let setup = mem::replace(setup, Setup::begin(self.settings));
                self.stage = Stage::Open(setup.open());
                Ok(None)
            }
            (Ask::Post { piece, day }, Stage::Open(book)) => book
                .post(shelf, tape, &self.span, piece, day)
                .map(|()| None),
            (Ask::Turn(day), Stage::Open(book)) => {
                book.turn(shelf, &self.span, day).map(|()| None)
            }
            (Ask::Pick, Stage::Open(book)) => {
                let mut arrivals = [0; 12];
                let mut work = [0; 64];
                book.pick(shelf, tape, &self.span, &mut arrivals, &mut work)
                    .map(|picked| Some(Label { picked, arrivals }))
            }
            _ => Err(Refusal::OutOfPlace),
        }
    }

    /// Takes a command. It answers a label to a pick, and nothing to what else it performs.
    ///
    /// In every run what it leaves is what the rules say, and each answer keeps its promise by the commands that were
    /// taken before: cover, factor and floor of a label, refusal for cause alone, and room.
    pub fn take<T: Tape<P>>(
        &mut self,
        ask: Ask<P>,
        places: &mut [Place<P>],
        tape: &T,
    ) -> Result<Option<Label>, Refusal>
        ensures took { Took (T.Tape.dist tape.now) (spanned self.old.span) ask result self.old places.old self.new places.new }
        ensures run { (t : Story P) → Led (T.Tape.dist tape.now) (spanned self.old.span) (stage_of self.old places.old) t → (stage_of self.new places.new ≡ stage_after (T.Tape.dist tape.now) (spanned self.old.span) (length places.old) (stage_of self.old places.old) ask) × Led (T.Tape.dist tape.now) (spanned self.old.span) (stage_of self.new places.new) (heard (length places.old) result ask t) }
        ensures holds { (t : Story P) → Led (T.Tape.dist tape.now) (spanned self.old.span) (stage_of self.old places.old) t → Kept (T.Tape.dist tape.now) (spanned self.old.span) t ask result }
    {
        self.perform(ask, places, tape)
    }
}

//! Posts, and turns of the day.

ghost use Rattle.std.specs.Prelude.{◌≡◌, ℕ, ◌+◌, ◌*◌, ◌≤◌, true, false, List, ◌∷◌, length, take, is_ok, Ok};
ghost use Rattle.cover.specs.Distances.{Distance, Metric};
ghost use Rattle.row.specs.Seen.{judged};
ghost use Rattle.rules.specs.Calls.{PostRule, TurnRule, posted, short, why_not_post, why_not_turn};
ghost use Rattle.rules.specs.Limits.{bad_day, part_size};
ghost use Rattle.rules.specs.Promises.{Fits, RowFits, Served, story};
ghost use Rattle.rules.specs.Runs.{Event, Opened, Post, Reached, Turn};
ghost use Rattle.rules.specs.Words.{after};
ghost use Rattle.rules.specs.declared.place.Place.{Place};
ghost use Rattle.std.specs.List.{AllByRecursion as Every};
ghost use Rattle.book.specs.Seen.{Surplus, seen};

use crate::open::Book;
use picking::Radii;
use refusal::Refusal;
use row::{Expiring, Posting};
use rules::Place;
use shelf::Shelf;
use tape::Tape;
use term::{Clock, Term};

impl<P> Book<P> {
    /// Its radii on a shelf that is long enough.
    pub(crate) fn radii<'a>(&'a self, shelf: &'a Shelf<'_, P>) -> Radii<'a, P>
        requires { false ≡ short (seen self.now shelf.now.places.now) }
        ensures rows { result.rows.now ≡ take self.now.count self.now.rows }
        ensures places { result.places.now ≡ shelf.now.places.now }
        ensures settings { result.settings ≡ self.now.settings }
    {
        shelf.radii(&self.rows[..self.count], self.settings)
    }

    /// Its last post and its day.
    pub(crate) fn clock(&self) -> Clock
        ensures { result ≡ record { posts = self.now.posts; day = self.now.day } }
    {
        Clock {
            posts: self.posts,
            day: self.day,
        }
    }

    /// Whether a shelf of so many places is too short.
    pub(crate) fn is_short(&self, places: usize) -> bool
        ensures { (xs : List (Place P)) → length xs ≡ places → result ≡ short (seen self.now xs) }
    {
        places < self.count * self.settings.part_size()
    }

    /// Whether a day is refused.
    fn is_bad_day(&self, day: u32) -> bool
        ensures { result ≡ bad_day self.now.day day }
    {
        day < self.day || day > 1_000_000
    }

    /// Refuses what a post with so many places and a day is refused for.
    fn may_post(&self, places: usize, day: u32) -> Result<(), Refusal>
        ensures { (xs : List (Place P)) → length xs ≡ places → result ≡ after (why_not_post (seen self.now xs) day) (Ok tt) }
    {
        if self.is_short(places) {
            return Err(Refusal::ShelfTooShort);
        }
        if self.posts >= 1_000_000 {
            return Err(Refusal::PostsUsedUp);
        }
        if self.is_bad_day(day) {
            return Err(Refusal::DayNotAllowed);
        }
        Ok(())
    }

    /// The same of a turn of the day.
    fn may_turn(&self, places: usize, day: u32) -> Result<(), Refusal>
        ensures { (xs : List (Place P)) → length xs ≡ places → result ≡ after (why_not_turn (seen self.now xs) day) (Ok tt) }
    {
        if self.is_short(places) {
            return Err(Refusal::ShelfTooShort);
        }
        if self.is_bad_day(day) {
            return Err(Refusal::DayNotAllowed);
        }
        Ok(())
    }
}

impl<P: Copy> Book<P> {
    /// Posts a piece on a day. Where what follows fits the shelf, as it does in every run, it is what the rules say.
    pub fn post<T: Tape<P>, W: Term>(
        &mut self,
        shelf: &mut Shelf<'_, P>,
        tape: &T,
        term: &W,
        piece: P,
        day: u32,
    ) -> Result<(), Refusal>
        ensures answer { result ≡ after (why_not_post (seen self.old shelf.old.places.now) day) (Ok tt) }
        ensures rule { Fits (Opened (posted (T.Tape.dist tape.now) (W.Term.counts term.now) piece day (seen self.old shelf.old.places.now))) → PostRule (T.Tape.dist tape.now) (W.Term.counts term.now) (seen self.old shelf.old.places.now) piece day result (seen self.new shelf.new.places.now) }
        ensures refused { is_ok result ≡ false → (self.new ≡ self.old) × (shelf.new.places.now ≡ shelf.old.places.now) }
        ensures surplus { Surplus self.old shelf.old.places.now shelf.new.places.now }
        ensures run { (es : List (Event P)) → Reached (T.Tape.dist tape.now) (W.Term.counts term.now) es (Opened (seen self.old shelf.old.places.now)) → Reached (T.Tape.dist tape.now) (W.Term.counts term.now) (Post piece day result ∷ es) (Opened (seen self.new shelf.new.places.now)) }
        ensures room { (es : List (Event P)) → Reached (T.Tape.dist tape.now) (W.Term.counts term.now) es (Opened (seen self.old shelf.old.places.now)) → Served (story es) (Post piece day result) × Fits (Opened (seen self.new shelf.new.places.now)) }
        ensures lent { shelf.new.places.ghost_name ≡ shelf.old.places.ghost_name }
    {
        self.may_post(shelf.len(), day)?;
        self.posts += 1;
        self.day = day;
        let place = Place {
            piece,
            arrival: self.posts,
            day,
            attractor: 0,
        };
        self.change_rows(shelf.places, &Posting { tape, term, place });
        Ok(())
    }

    /// Turns the day.
    pub fn turn<W: Term>(
        &mut self,
        shelf: &mut Shelf<'_, P>,
        term: &W,
        day: u32,
    ) -> Result<(), Refusal>
        ensures rule { TurnRule (W.Term.counts term.now) (seen self.old shelf.old.places.now) day result (seen self.new shelf.new.places.now) }
        ensures refused { is_ok result ≡ false → (self.new ≡ self.old) × (shelf.new.places.now ≡ shelf.old.places.now) }
        ensures surplus { Surplus self.old shelf.old.places.now shelf.new.places.now }
        ensures run { (dist : Distance P) → Metric dist → (es : List (Event P)) → Reached dist (W.Term.counts term.now) es (Opened (seen self.old shelf.old.places.now)) → Reached dist (W.Term.counts term.now) (Turn day result ∷ es) (Opened (seen self.new shelf.new.places.now)) }
        ensures room { (dist : Distance P) → Metric dist → (es : List (Event P)) → Reached dist (W.Term.counts term.now) es (Opened (seen self.old shelf.old.places.now)) → Served (story es) (Turn day result) × Fits (Opened (seen self.new shelf.new.places.now)) }
        ensures lent { shelf.new.places.ghost_name ≡ shelf.old.places.ghost_name }
    {
        self.may_turn(shelf.len(), day)?;
        self.day = day;
        let clock = self.clock();
        self.change_rows(shelf.places, &Expiring { term, clock });
        Ok(())
    }
}

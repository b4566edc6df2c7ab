//! Picks.

ghost use Rattle.std.specs.Prelude.{◌≡◌, ℕ, false, ◌||◌, List, ◌∷◌, length, nat_lt, Ok};
ghost use Rattle.row.specs.Seen.{judged};
ghost use Rattle.rules.specs.Calls.{PickRule, nothing_in, short, why_not_pick};
ghost use Rattle.rules.specs.Limits.{work_needed};
ghost use Rattle.rules.specs.Promises.{Answered, Served, story};
ghost use Rattle.rules.specs.Runs.{Event, Opened, Pick, Reached};
ghost use Rattle.rules.specs.Words.{after};
ghost use Rattle.rules.specs.declared.place.Place.{Place};
ghost use Rattle.book.specs.Seen.{seen};

use crate::open::Book;
use picking::first_passing;
use refusal::Refusal;
use rules::Picked;
use shelf::Shelf;
use tape::Tape;
use term::Term;

impl<P> Book<P> {
    /// Refuses what a pick with so many places, answers and work is refused for before a radius is tried.
    fn may_pick(&self, places: usize, answers: usize, work: usize) -> Result<(), Refusal>
        ensures { (xs : List (Place P)) (answers2 work2 : List ℕ) → length xs ≡ places → length answers2 ≡ answers → length work2 ≡ work → result ≡ after (why_not_pick (seen self.now xs) answers2 work2) (Ok tt) }
    {
        if self.is_short(places) {
            return Err(Refusal::ShelfTooShort);
        }
        if self.lists_short(answers, work) {
            return Err(Refusal::ListTooShort);
        }
        if self.is_empty() {
            return Err(Refusal::NothingCounts);
        }
        Ok(())
    }

    /// Whether an answer list or a work list is too short.
    fn lists_short(&self, answers: usize, work: usize) -> bool
        ensures { result ≡ (nat_lt answers self.now.settings.k || nat_lt work (work_needed (judged self.now.settings))) }
    {
        answers < self.settings.k || work < self.settings.work_needed()
    }

    /// Whether no piece counts: the first radius has no representative.
    fn is_empty(&self) -> bool
        ensures { (xs : List (Place P)) → false ≡ short (seen self.now xs) → result ≡ nothing_in (seen self.now xs).rows }
    {
        self.count == 0 || self.rows[0].representatives == 0
    }

    // Tape, term and lists are lent to each call, since a book holds nothing of its caller's.
    /// Picks at most k centres with a radius. Writes the centres' arrivals to the front of the answer list.
    ///
    /// In every run, under every lawful tape and term: each answered pick names one to k centres that count, and every
    /// piece that counts lies within its radius of one of them; no choice of one to k pieces beats it by more than its
    /// factor; it is refused for want of a radius only if every choice reaches farther than the last radius; and with
    /// all its places it is never refused for want of places.
    pub fn pick<T: Tape<P>, W: Term>(
        &self,
        shelf: &Shelf<'_, P>,
        tape: &T,
        term: &W,
        answers: &mut [u32],
        work: &mut [u32],
    ) -> Result<Picked, Refusal>
        ensures rule { PickRule (T.Tape.dist tape.now) (W.Term.counts term.now) (seen self.now shelf.now.places.now) answers.old work.old result answers.new work.new }
        ensures run { (es : List (Event P)) → Reached (T.Tape.dist tape.now) (W.Term.counts term.now) es (Opened (seen self.now shelf.now.places.now)) → Reached (T.Tape.dist tape.now) (W.Term.counts term.now) (Pick answers.old work.old result answers.new ∷ es) (Opened (seen self.now shelf.now.places.now)) }
        ensures holds { (es : List (Event P)) → Reached (T.Tape.dist tape.now) (W.Term.counts term.now) es (Opened (seen self.now shelf.now.places.now)) → Answered (T.Tape.dist tape.now) (W.Term.counts term.now) (story es) result answers.new × Served (story es) (Pick answers.old work.old result answers.new) }
    {
        self.may_pick(shelf.len(), answers.len(), work.len())?;
        let radii = self.radii(shelf);
        let Some(j) = first_passing(&radii, tape) else {
            return Err(Refusal::NoRadiusPasses);
        };
        shelf.pick_at(
            &self.rows[..self.count],
            j,
            self.settings,
            self.clock(),
            tape,
            term,
            answers,
            work,
        )
    }
}

//! Pieces found and handed out.

ghost use Rattle.std.specs.Prelude.{◌≡◌, List, ◌∷◌};
ghost use Rattle.cover.specs.Distances.{Distance, Metric};
ghost use Rattle.rules.specs.Calls.{FindRule, HandOutRule};
ghost use Rattle.rules.specs.Laws.{Lawful};
ghost use Rattle.rules.specs.Promises.{Served, story};
ghost use Rattle.rules.specs.Runs.{Event, Find, HandOut, Opened, Reached};
ghost use Rattle.term.specs.Formulas.{Rule};
ghost use Rattle.book.specs.Seen.{seen};

use crate::open::Book;
use finding::{find_place, piece_at};
use refusal::Refusal;
use shelf::Shelf;

impl<P: Copy> Book<P> {
    /// The lowest place of the piece of an arrival among attractors, representatives and latest pieces.
    pub fn find(&self, shelf: &Shelf<'_, P>, arrival: u32) -> Result<usize, Refusal>
        ensures rule { FindRule (seen self.now shelf.now.places.now) arrival result }
        ensures run { (dist : Distance P) (counts : Rule) (es : List (Event P)) → Reached dist counts es (Opened (seen self.now shelf.now.places.now)) → Reached dist counts (Find arrival result ∷ es) (Opened (seen self.now shelf.now.places.now)) }
        ensures room { (dist : Distance P) → Metric dist → (counts : Rule) → Lawful counts → (es : List (Event P)) → Reached dist counts es (Opened (seen self.now shelf.now.places.now)) → Served (story es) (Find arrival result) }
    {
        if self.is_short(shelf.len()) {
            return Err(Refusal::ShelfTooShort);
        }
        find_place(&self.radii(shelf), arrival).ok_or(Refusal::ArrivalNotKept)
    }

    /// The piece at a place that those lists use.
    pub fn hand_out(&self, shelf: &Shelf<'_, P>, at: usize) -> Result<P, Refusal>
        ensures rule { HandOutRule (seen self.now shelf.now.places.now) at result }
        ensures run { (dist : Distance P) (counts : Rule) (es : List (Event P)) → Reached dist counts es (Opened (seen self.now shelf.now.places.now)) → Reached dist counts (HandOut at result ∷ es) (Opened (seen self.now shelf.now.places.now)) }
        ensures room { (dist : Distance P) → Metric dist → (counts : Rule) → Lawful counts → (es : List (Event P)) → Reached dist counts es (Opened (seen self.now shelf.now.places.now)) → Served (story es) (HandOut at result) }
    {
        if self.is_short(shelf.len()) {
            return Err(Refusal::ShelfTooShort);
        }
        piece_at(&self.radii(shelf), at).ok_or(Refusal::ArrivalNotKept)
    }
}

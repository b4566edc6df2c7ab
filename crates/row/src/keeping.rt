//! Of each list of a radius, what passes a test is kept.

ghost use Rattle.std.specs.Prelude.{◌≡◌, filter};
ghost use Rattle.row.specs.Edits.{with_attractors, with_fine, with_representatives};
ghost use Rattle.row.specs.Radii.{Same, seen};

use crate::radius::Radius;
use packed::{Test, all_of, keep, marks, pack};
use rules::Place;

impl<P: Copy> Radius<'_, P> {
    /// Keeps the attractors that pass.
    pub(crate) fn keep_attractors<Q: Test<P>>(&mut self, test: &Q)
        ensures same { Same self.old self.new }
        ensures seen { seen self.new ≡ with_attractors (filter (Q.Test.passes test.now) (seen self.old).attractors) (seen self.old) }
    {
        self.row.attractors = keep(&mut self.part[..self.row.attractors], test);
    }

    /// Keeps the representatives that pass.
    pub(crate) fn keep_representatives<Q: Test<P>>(&mut self, test: &Q)
        ensures same { Same self.old self.new }
        ensures seen { seen self.new ≡ with_representatives (filter (Q.Test.passes test.now) (seen self.old).representatives) (seen self.old) }
    {
        let start = self.settings.representatives_at();
        let end = start + self.row.representatives;
        self.row.representatives = keep(&mut self.part[start..end], test);
    }

    /// Keeps the fine entries whose latest piece passes.
    pub(crate) fn keep_entries<Q: Test<P>>(&mut self, test: &Q)
        ensures same { Same self.old self.new }
        ensures seen { seen self.new ≡ with_fine (filter (λ e. Q.Test.passes test.now e.latest) (seen self.old).fine) self.old.row.now.lost (seen self.old) }
    {
        // Nearly always all of them do.
        if all_of(self.latests(), test) {
            return;
        }
        let stay = marks(self.latests(), test);
        let firsts = self.settings.firsts_at();
        let latests = self.settings.latests_at();
        let count = self.row.entries;
        pack(&mut self.part[firsts..firsts + count], &stay);
        self.row.entries = pack(&mut self.part[latests..latests + count], &stay);
    }
}

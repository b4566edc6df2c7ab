//! The lists of a radius on its part of the shelf.

ghost use Rattle.std.specs.Prelude.{◌≡◌, ◌*◌, ◌<◌, ◌≤◌, map, length};
ghost use Rattle.picking.specs.Seen.{listed, row_at};
ghost use Rattle.row.specs.Seen.{judged};
ghost use Rattle.rules.specs.Limits.{attractor_room, part_size, representative_room};

use crate::radii::{Lists, Radii};
use rules::Place;

impl<'a, P> Radii<'a, P> {
    /// Where the part of the radius at `j` begins.
    pub fn start(&self, j: usize) -> usize
        requires { j < length self.now.rows.now }
        ensures { result ≡ j * part_size (judged self.now.settings) }
    {
        j * self.settings.part_size()
    }

    /// The lists of the radius at `j`.
    pub fn lists(&self, j: usize) -> Lists<'a, P>
        requires { j < length self.now.rows.now }
        ensures seen { listed result ≡ row_at self.now j }
        ensures settings { result.settings ≡ self.now.settings }
    {
        Lists {
            row: &self.rows[j],
            part: &self.places[self.start(j)..][..self.settings.part_size()],
            settings: self.settings,
        }
    }
}

impl<'a, P> Lists<'a, P> {
    /// The attractors.
    pub fn attractors(&self) -> &'a [Place<P>]
        ensures list { result.now ≡ (listed self.now).attractors }
        ensures few { length result.now ≤ attractor_room self.now.settings.k }
    {
        &self.part[..self.row.attractors]
    }

    /// The coarse representatives.
    pub fn representatives(&self) -> &'a [Place<P>]
        ensures list { result.now ≡ (listed self.now).representatives }
        ensures few { length result.now ≤ representative_room self.now.settings.k }
    {
        &self.part[self.settings.representatives_at()..][..self.row.representatives]
    }

    /// The latest pieces of the fine entries.
    pub fn latests(&self) -> &'a [Place<P>]
        ensures list { result.now ≡ map (λ e. e.latest) (listed self.now).fine }
        ensures few { length result.now ≤ self.now.settings.limit }
    {
        &self.part[self.settings.latests_at()..][..self.row.entries]
    }
}

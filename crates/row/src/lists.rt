//! The lists of a radius.

ghost use Rattle.std.specs.Prelude.{◌≡◌};
ghost use Rattle.packed.specs.Lists.{cut};
ghost use Rattle.row.specs.Radii.{seen};
ghost use Rattle.row.specs.Seen.{firsts_at, latests_at};

use crate::radius::Radius;
use rules::Place;

impl<P> Radius<'_, P> {
    /// The attractors, oldest first.
    pub(crate) fn attractors(&self) -> &[Place<P>]
        ensures { result.now ≡ (seen self.now).attractors }
    {
        &self.part[..self.row.attractors]
    }

    /// The coarse representatives.
    pub(crate) fn representatives(&self) -> &[Place<P>]
        ensures { result.now ≡ (seen self.now).representatives }
    {
        let start = self.settings.representatives_at();
        &self.part[start..start + self.row.representatives]
    }

    /// The first pieces of the fine entries.
    pub(crate) fn firsts(&self) -> &[Place<P>]
        ensures { result.now ≡ cut (firsts_at self.now.settings) self.now.row.now.entries self.now.part.now }
    {
        let start = self.settings.firsts_at();
        &self.part[start..start + self.row.entries]
    }

    /// Their latest pieces.
    pub(crate) fn latests(&self) -> &[Place<P>]
        ensures { result.now ≡ cut (latests_at self.now.settings) self.now.row.now.entries self.now.part.now }
    {
        let start = self.settings.latests_at();
        &self.part[start..start + self.row.entries]
    }
}

//! Where the lists of a radius lie on its part of the shelf.

ghost use Rattle.std.specs.Prelude.{◌≡◌};
ghost use Rattle.rules.specs.Limits.{attractor_room, part_size, representative_room, representatives_at, work_needed};
ghost use Rattle.row.specs.Seen.{firsts_at, judged, latests_at};

use crate::settings::Settings;

/// The part of the shelf that one radius has: attractors first, then coarse representatives, the first pieces of the
/// fine entries, and their latest pieces.
impl Settings {
    /// How many attractors there is room for.
    pub fn attractor_room(self) -> usize
        ensures { result ≡ attractor_room self.k }
    {
        self.k + 1
    }

    /// How many coarse representatives there is room for.
    pub fn representative_room(self) -> usize
        ensures { result ≡ representative_room self.k }
    {
        2 * self.k + 2
    }

    /// Where the coarse representatives begin.
    pub fn representatives_at(self) -> usize
        ensures { result ≡ representatives_at (judged self) }
    {
        self.attractor_room()
    }

    /// Where the first pieces of the fine entries begin.
    pub fn firsts_at(self) -> usize
        ensures { result ≡ firsts_at self }
    {
        self.representative_room() + self.attractor_room()
    }

    /// Where the latest pieces of the fine entries begin.
    pub fn latests_at(self) -> usize
        ensures { result ≡ latests_at self }
    {
        self.firsts_at() + self.limit
    }

    /// How many places the part has.
    pub fn part_size(self) -> usize
        ensures { result ≡ part_size (judged self) }
    {
        self.latests_at() + self.limit
    }

    /// How many numbers a pick needs in its work list.
    pub fn work_needed(self) -> usize
        ensures { result ≡ work_needed (judged self) }
    {
        self.representative_room().max(self.limit)
    }
}

//! A book that is being set up.

ghost use Rattle.std.specs.Prelude.{◌≡◌, ℕ, ◌<◌, ◌≤◌, length, slice_index};

use row::Settings;
use std::marker::PhantomData;

/// A book of pieces of one kind that is being set up: its settings, and the radii entered so far. The first is 0.
#[derive(Drop)]
pub struct Setup<P> {
    pub(crate) settings: Settings,
    // No heap: room for 24 radii, of which `count` are used.
    pub(crate) radii: [u32; 24],
    pub(crate) count: usize,
    pub(crate) kind: PhantomData<P>,
    ghost some: { 1 ≤ count },
    ghost few: { count ≤ 24 },
    ghost long: { length radii ≡ 24 },
    ghost bounded: { (j : ℕ) → j < 24 → slice_index radii j ≤ 1000000 },
}

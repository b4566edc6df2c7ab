//! The settings of a book.

ghost use Rattle.std.specs.Prelude.{◌≤◌};

/// Judged settings: how many centres a pick may have, the fineness, and how many fine entries a radius keeps.
#[derive(Clone, Copy)]
pub struct Settings {
    pub k: usize,
    pub fineness: u32,
    pub limit: usize,
    ghost some: { 1 ≤ k },
    ghost few: { k ≤ 12 },
    ghost fine: { 2 ≤ fineness },
    ghost finest: { fineness ≤ 64 },
    ghost entry: { 1 ≤ limit },
    ghost entries: { limit ≤ 64 },
}

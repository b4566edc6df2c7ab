//! What a pick answers.

/// Which list a pick has used: the latest pieces of the fine entries, or the coarse representatives.
#[derive(Clone, Copy, PartialEq, Eq, Debug)]
pub enum Grain {
    Fine,
    Coarse,
}

/// The number of centres; the radius within which every piece that counts has a centre; the floor, a radius that
/// is too small for every choice of at most k centres, absent where none was tried before; and the list used.
#[derive(Clone, Copy, PartialEq, Eq, Debug)]
pub struct Picked {
    pub count: usize,
    pub radius: u32,
    pub floor: Option<u32>,
    pub grain: Grain,
}

//! What a term is.

ghost use Rattle.std.specs.Prelude.{Bool, true, false, ◌≡◌, ℕ, ◌≤◌};

/// When a piece was posted: its arrival, which is its number among the posts, and its day.
#[derive(Clone, Copy)]
pub struct Stamp {
    pub arrival: u32,
    pub day: u32,
}

/// Where a book stands: how many posts it has had, and its day.
#[derive(Clone, Copy)]
pub struct Clock {
    pub posts: u32,
    pub day: u32,
}

/// A term tells whether a piece with arrival a and day d counts when there have been A posts and the day
/// is D. A piece's expiry is final, and a newer piece counts whenever an older one does.
///
/// The laws are asked where they have a meaning, at a ≤ A and d ≤ D, and nowhere else.
pub trait Term {
    /// whether a piece counts, from a, d, A and D
    ghost counts: { Self → ℕ → ℕ → ℕ → ℕ → Bool };

    /// Whether the piece posted at `stamp` still counts at `clock`: an answer for all numbers.
    fn still(&self, stamp: Stamp, clock: Clock) -> bool
        ensures { result ≡ counts self.now stamp.arrival stamp.day clock.posts clock.day };

    ghost newest: { (t : Self) (a d : ℕ) → counts t a d a d ≡ true };

    ghost expired: { (t : Self) (a d posts day posts2 day2 : ℕ) → a ≤ posts → d ≤ day → posts ≤ posts2 → day ≤ day2 → counts t a d posts day ≡ false → counts t a d posts2 day2 ≡ false };

    ghost newer: { (t : Self) (a d a2 d2 posts day : ℕ) → a ≤ a2 → d ≤ d2 → a2 ≤ posts → d2 ≤ day → counts t a d posts day ≡ true → counts t a2 d2 posts day ≡ true };
}

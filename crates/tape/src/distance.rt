//! What a tape is.

ghost use Rattle.std.specs.Prelude.{◌≡◌, ℕ, ◌+◌, ◌≤◌};
ghost use Rattle.tape.specs.Limits.{limit};

/// A tape measures the distance between two pieces of its kind. The distance depends on the two pieces and
/// the tape alone, and different pieces may be at 0.
pub trait Tape<P> {
    /// the distance
    ghost dist: { Self → P → P → ℕ };

    fn measure(&self, a: &P, b: &P) -> u32
        ensures { result ≡ dist self.now a.now b.now };

    ghost range: { (t : Self) (a b : P) → dist t a b ≤ limit };

    ghost zero: { (t : Self) (a : P) → dist t a a ≡ 0 };

    ghost symmetric: { (t : Self) (a b : P) → dist t a b ≡ dist t b a };

    ghost triangle: { (t : Self) (a b c : P) → dist t a c ≤ dist t a b + dist t b c };
}

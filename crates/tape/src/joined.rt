//! Pieces told by two things at once, and their tape.

ghost use Rattle.tape.specs.Combined.{together};
ghost use Rattle.std.proofs.Common.{rules};

use crate::distance::Tape;

/// A joined piece: two pieces, each of any kind.
#[derive(Clone, Copy, PartialEq, Eq, Debug)]
pub struct Joined<A, B> {
    pub left: A,
    pub right: B,
}

/// The tape of joined pieces: one tape for each of the two.
#[derive(Drop)]
pub struct JoinedTape<S, T> {
    pub left: S,
    pub right: T,
}

/// The sum of both distances, or 1,000,000 if that is smaller.
impl<A, B, S: Tape<A>, T: Tape<B>> Tape<Joined<A, B>> for JoinedTape<S, T> {
    ghost dist = { λ t a b. together (S.Tape.dist t.left a.left b.left) (T.Tape.dist t.right a.right b.right) };

    ghost range = { Prim.search rules };

    ghost zero = { Prim.search rules };

    ghost symmetric = { Prim.search rules };

    ghost triangle = { Prim.search rules };

    fn measure(&self, a: &Joined<A, B>, b: &Joined<A, B>) -> u32 {
        let sum = self.left.measure(&a.left, &b.left) + self.right.measure(&a.right, &b.right);
        sum.min(1_000_000)
    }
}

//! Joinery parts and their tape.

ghost use Rattle.std.specs.Prelude.{◌≡◌, min};
ghost use Rattle.tape.specs.Joinery.{differing};
ghost use Rattle.std.proofs.Common.{arith, rules};
ghost use Rattle.tape.specs.Hamming.{hamming_zero, hamming_turn, hamming_through};

use crate::distance::Tape;

/// A joinery part: a word with one bit for each fitting. Every word is a part.
#[derive(Clone, Copy, PartialEq, Eq, Debug)]
pub struct Part {
    pub word: u64,
}

/// The tape of joinery parts: the number of bits in which the words differ.
#[derive(Clone, Copy)]
pub struct JoineryTape;

impl Tape<Part> for JoineryTape {
    ghost dist = { λ _ a b. min (differing a.word b.word) 64 };

    ghost range = { Prim.search rules };

    ghost zero = { λ t a. omega (arith, hamming_zero a.word) };

    ghost symmetric = { λ t a b. omega (arith, hamming_turn a.word b.word) };

    ghost triangle = { λ t a b c. omega (arith, hamming_through a.word b.word c.word) };

    fn measure(&self, a: &Part, b: &Part) -> u32
        ensures value { result ≡ min (differing a.now.word b.now.word) 64 }
        ensures exact { result ≡ differing a.now.word b.now.word }
    {
        (a.word ^ b.word).count_ones()
    }
}

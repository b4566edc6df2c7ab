//! Numbers, as commands have them.

ghost use Rattle.std.specs.Prelude.{◌≡◌, ℕ, ◌≤◌, List, Option};
ghost use Rattle.script.specs.Numerals.{numeral_of, whole_of, hexadecimal_of};

/// What a command has as an operand.
pub(crate) trait Operand: Sized {
    // What a word writes.
    ghost written: { List ℕ → Option Self };

    /// The operand that the word writes.
    fn read(word: &[u8]) -> Option<Self>
        ensures { result ≡ written word.now };
}

/// In decimal digits.
impl Operand for u32 {
    ghost written = { numeral_of 10 4294967295 };

    #[tactic(auto, using(crate::proofs::Narrowing::to_32_bits))]
    fn read(word: &[u8]) -> Option<u32> {
        u32::try_from(numeral::<10>(word)?).ok()
    }
}

/// In decimal digits.
impl Operand for u8 {
    ghost written = { numeral_of 10 255 };

    #[tactic(auto, using(crate::proofs::Narrowing::to_8_bits))]
    fn read(word: &[u8]) -> Option<u8> {
        u8::try_from(u32::read(word)?).ok()
    }
}

/// In decimal digits, a minus before them if it is negative.
impl Operand for i32 {
    ghost written = { whole_of };

    fn read(word: &[u8]) -> Option<i32> {
        match word {
            [b'-', digits @ ..] => i32::try_from(-i64::from(u32::read(digits)?)).ok(),
            _ => i32::try_from(u32::read(word)?).ok(),
        }
    }
}

/// In hexadecimal digits after `0x`.
impl Operand for u64 {
    ghost written = { hexadecimal_of };

    fn read(word: &[u8]) -> Option<u64> {
        match word {
            [b'0', b'x', digits @ ..] => numeral::<16>(digits),
            _ => None,
        }
    }
}

/// The number that the digits write, if 64 bits hold it.
fn numeral<const BASE: u32>(digits: &[u8]) -> Option<u64>
    requires { (2 ≤ BASE) × (BASE ≤ 16) }
    ensures { result ≡ numeral_of BASE 18446744073709551615 digits.now }
{
    if digits.is_empty() {
        return None;
    }
    let mut value = 0u64;
    for byte in digits {
        let digit = char::from(*byte).to_digit(BASE)?;
        value = value
            .checked_mul(u64::from(BASE))?
            .checked_add(u64::from(digit))?;
    }
    Some(value)
}

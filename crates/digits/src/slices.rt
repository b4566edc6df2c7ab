//! Bytes and numbers put into a list that is lent, one after another: each call answers where its text ends.

ghost use Rattle.std.specs.Prelude.{◌≡◌, ℕ, ◌+◌, ◌<◌, ◌≤◌, true, [], ◌∷◌, ◌++◌, length, take, drop, decimal};
ghost use Rattle.std.specs.Fmt.{digit_glyph, signed_decimal};
ghost use Rattle.digits.specs.Digits.{hex_digits};

/// Puts the bytes at `at` and answers where they end.
pub fn put(out: &mut [u8], at: usize, bytes: &[u8]) -> usize
    requires { at + length bytes.now ≤ length out.old }
    ensures end { result ≡ at + length bytes.now }
    ensures front { take result out.new ≡ take at out.old ++ bytes.now }
    ensures back { (k : ℕ) → result ≤ k → drop k out.new ≡ drop k out.old }
{
    let end = at + bytes.len();
    out[at..end].copy_from_slice(bytes);
    end
}

/// One digit, of any base up to 16.
fn put_digit(out: &mut [u8], at: usize, digit: u8) -> usize
    requires at_in_bounds { at < length out.old }
    requires digit_bound { digit < 16 }
    ensures end { result ≡ at + 1 }
    ensures front { take result out.new ≡ take at out.old ++ (digit_glyph true digit ∷ []) }
    ensures back { (k : ℕ) → result ≤ k → drop k out.new ≡ drop k out.old }
{
    out[at] = digit_byte(digit);
    at + 1
}

fn digit_byte(digit: u8) -> u8
    requires { digit < 16 }
    ensures { result ≡ digit_glyph true digit }
{
    if digit < 10 {
        b'0' + digit
    } else {
        b'7' + digit
    }
}

fn put_decimal(out: &mut [u8], at: usize, n: u64) -> usize
    requires { at + length (decimal n) ≤ length out.old }
    ensures end { result ≡ at + length (decimal n) }
    ensures front { take result out.new ≡ take at out.old ++ decimal n }
    ensures back { (k : ℕ) → result ≤ k → drop k out.new ≡ drop k out.old }
{
    if n < 10 {
        return put_digit(out, at, n as u8);
    }
    let last = put_decimal(out, at, n / 10);
    put_digit(out, last, (n % 10) as u8)
}

/// The number in decimal digits, of which it has at most ten.
pub fn put_number(out: &mut [u8], at: usize, n: u32) -> usize
    requires { at + 10 ≤ length out.old }
    ensures end { result ≡ at + length (decimal n) }
    ensures bound { result ≤ at + 10 }
    ensures front { take result out.new ≡ take at out.old ++ decimal n }
    ensures back { (k : ℕ) → result ≤ k → drop k out.new ≡ drop k out.old }
{
    put_decimal(out, at, u64::from(n))
}

/// The count in decimal digits, of which it has at most twenty.
pub fn put_count(out: &mut [u8], at: usize, n: usize) -> usize
    requires { at + 20 ≤ length out.old }
    ensures end { result ≡ at + length (decimal n) }
    ensures bound { result ≤ at + 20 }
    ensures front { take result out.new ≡ take at out.old ++ decimal n }
    ensures back { (k : ℕ) → result ≤ k → drop k out.new ≡ drop k out.old }
{
    put_decimal(out, at, n as u64)
}

/// The number in decimal digits, after a minus if it is negative.
pub fn put_offset(out: &mut [u8], at: usize, x: i32) -> usize
    requires { at + 11 ≤ length out.old }
    ensures end { result ≡ at + length (signed_decimal x) }
    ensures bound { result ≤ at + 11 }
    ensures front { take result out.new ≡ take at out.old ++ signed_decimal x }
    ensures back { (k : ℕ) → result ≤ k → drop k out.new ≡ drop k out.old }
{
    if x < 0 {
        let digits = put(out, at, b"-");
        return put_number(out, digits, x.unsigned_abs());
    }
    put_number(out, at, x.unsigned_abs())
}

/// The last `count` hexadecimal digits of the number.
pub fn put_hex(out: &mut [u8], at: usize, n: u64, count: usize) -> usize
    requires { at + count ≤ length out.old }
    ensures end { result ≡ at + count }
    ensures front { take result out.new ≡ take at out.old ++ hex_digits count n }
    ensures back { (k : ℕ) → result ≤ k → drop k out.new ≡ drop k out.old }
{
    if count == 0 {
        return at;
    }
    let last = put_hex(out, at, n / 16, count - 1);
    put_digit(out, last, (n % 16) as u8)
}

//! Bytes and numbers put into a text: into a list that is lent, or to the end of a text that has its own room.

#![tactic(auto)]

ghost use Rattle.std.specs.Prelude.{◌≡◌, ◌+◌, ◌≤◌, [], ◌++◌, length, decimal};
ghost use Rattle.std.specs.Fmt.{signed_decimal};
ghost use Rattle.digits.specs.Digits.{hex_digits};

mod slices;

pub use slices::{put, put_count, put_hex, put_number, put_offset};
use std::marker::Model;

/// A text in fixed room, to whose end bytes and numbers are put.
#[derive(Drop)]
pub struct Text<const ROOM: usize> {
    bytes: [u8; ROOM],
    len: usize,
}

impl<const ROOM: usize> Model for Text<ROOM> {
    ghost use Rattle.std.specs.Prelude.{ℕ, ◌≤◌, List, take};

    ghost Value = { List ℕ };

    ghost view = { λ text. take text.len text.bytes };

    ghost invariant = { λ text. text.len ≤ ROOM };
}

impl<const ROOM: usize> Text<ROOM> {
    pub fn new() -> Self
        ensures { result ≡ [] }
    {
        Text {
            bytes: [0; ROOM],
            len: 0,
        }
    }

    pub fn as_slice(&self) -> &[u8]
        ensures { result.now ≡ self.now }
    {
        &self.bytes[..self.len]
    }

    /// Takes all away that was put.
    pub fn clear(&mut self)
        ensures { self.new ≡ [] }
    {
        self.len = 0;
    }

    /// Puts the bytes.
    pub fn put(&mut self, bytes: &[u8])
        requires { length self.old + length bytes.now ≤ ROOM }
        ensures { self.new ≡ self.old ++ bytes.now }
    {
        self.len = put(&mut self.bytes, self.len, bytes);
    }

    // Two methods for numbers: they promise two different rooms.
    /// The number in decimal digits, of which it has at most ten.
    pub fn put_number(&mut self, n: u32)
        requires { length self.old + 10 ≤ ROOM }
        ensures is { self.new ≡ self.old ++ decimal n }
        ensures bound { length self.new ≤ length self.old + 10 }
    {
        self.len = put_number(&mut self.bytes, self.len, n);
    }

    /// The count in decimal digits, of which it has at most twenty.
    pub fn put_count(&mut self, n: usize)
        requires { length self.old + 20 ≤ ROOM }
        ensures is { self.new ≡ self.old ++ decimal n }
        ensures bound { length self.new ≤ length self.old + 20 }
    {
        self.len = put_count(&mut self.bytes, self.len, n);
    }

    /// The number in decimal digits, after a minus if it is negative.
    pub fn put_offset(&mut self, x: i32)
        requires { length self.old + 11 ≤ ROOM }
        ensures is { self.new ≡ self.old ++ signed_decimal x }
        ensures bound { length self.new ≤ length self.old + 11 }
    {
        self.len = put_offset(&mut self.bytes, self.len, x);
    }

    /// The last `count` hexadecimal digits of the number.
    pub fn put_hex(&mut self, n: u64, count: usize)
        requires { length self.old + count ≤ ROOM }
        ensures is { self.new ≡ self.old ++ hex_digits count n }
        ensures end { length self.new ≡ length self.old + count }
    {
        self.len = put_hex(&mut self.bytes, self.len, n, count);
    }
}

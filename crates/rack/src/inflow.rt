//! The feed as it arrives.

ghost use Rattle.std.specs.Prelude.{◌≡◌, ◌+◌, ◌<◌, ◌≤◌, [], length, drop, min, IfOk, slice_range};
ghost use Rattle.std.specs.Io.{StartsWith};
ghost use Rattle.rack.specs.Waiting.{Waiting};

use std::io;
use std::io::{Read, Stdin};
use std::marker::Model;

/// How many bytes wait at most.
pub const BUFFER: usize = 65536;

/// Input of which the bytes from `start` to `end` have arrived and wait. The first of them has this offset in the feed.
#[derive(Drop)]
pub struct Inflow {
    input: Stdin,
    bytes: [u8; BUFFER],
    start: usize,
    end: usize,
    offset: usize,
}

impl Model for Inflow {
    ghost Value = { Waiting };

    ghost view = { λ f. record { bytes = slice_range f.bytes f.start f.end; offset = f.offset } };

    ghost invariant = { λ f. (length f.bytes ≡ 65536) × (f.start ≤ f.end) × (f.end ≤ 65536) };
}

impl Inflow {
    /// The input from its beginning, of which nothing has arrived.
    pub fn new(input: Stdin) -> Inflow
        ensures { result ≡ record { bytes = []; offset = 0 } }
    {
        Inflow {
            input,
            bytes: [0; BUFFER],
            start: 0,
            end: 0,
            offset: 0,
        }
    }

    /// The bytes that wait.
    pub fn waiting(&self) -> &[u8]
        ensures { result.now ≡ self.now.bytes }
    {
        &self.bytes[self.start..self.end]
    }

    /// The offset of the first of them.
    pub fn offset(&self) -> usize
        ensures { result ≡ self.now.offset }
    {
        self.offset
    }

    /// Waits for more of the feed, puts it behind the bytes that wait, and answers how many bytes came.
    pub fn fill(&mut self) -> io::Result<usize>
        requires { length self.old.bytes < BUFFER }
        ensures kept { StartsWith self.new.bytes self.old.bytes }
        ensures more { IfOk result (λ got. length self.new.bytes ≡ length self.old.bytes + got) }
        ensures offset { self.new.offset ≡ self.old.offset }
    {
        self.bytes.copy_within(self.start..self.end, 0);
        self.end -= self.start;
        self.start = 0;
        let got = self.input.read(&mut self.bytes[self.end..])?;
        self.end += got;
        Ok(got)
    }

    /// Takes bytes away from the front of those that wait.
    pub fn consume(&mut self, count: usize)
        requires { count ≤ length self.old.bytes }
        ensures bytes { self.new.bytes ≡ drop count self.old.bytes }
        ensures offset { self.new.offset ≡ min (self.old.offset + count) usize.MAX }
    {
        self.start += count;
        self.offset = self.offset.saturating_add(count);
    }
}

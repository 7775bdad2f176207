//! The line.
ghost use Rattle.std.specs.Prelude.{◌≡◌, ◌≤◌, ◌<◌, ◌+◌, ◌∷◌, ◌++◌, [], length, decimal, OnOk};
ghost use Rattle.std.specs.Fmt.{signed_decimal};
ghost use Rattle.backward_line.specs.declared.line.TheConstants.{LINE_ROOM};

use itoa::{Buffer, write_digits};
use std::marker::Model;

/// The most bytes of a line.
pub const LINE_ROOM: usize = 320;

/// What is made of a line so far: its end.
#[derive(Drop)]
pub struct BackwardLine {
    bytes: [u8; LINE_ROOM],
    start: usize,
}

impl Model for BackwardLine {
    ghost use Rattle.std.specs.Prelude.{◌≤◌, ℕ, List, drop};
    ghost use Rattle.backward_line.specs.declared.line.TheConstants.{LINE_ROOM};

    ghost Value = { List ℕ };

    ghost view = { λ line. drop line.start line.bytes };

    ghost invariant = { λ line. line.start ≤ LINE_ROOM };
}

impl BackwardLine {
    /// Nothing of a line.
    pub fn new() -> BackwardLine
        ensures { result ≡ [] }
    {
        BackwardLine {
            bytes: [0; LINE_ROOM],
            start: LINE_ROOM,
        }
    }

    /// The bytes that are made.
    pub fn as_slice(&self) -> &[u8]
        ensures { result.now ≡ self.now }
    {
        &self.bytes[self.start..]
    }

    /// A byte before them.
    pub fn put_byte(&mut self, byte: u8)
        requires { length self.old < LINE_ROOM }
        ensures { self.new ≡ byte ∷ self.old }
    {
        self.start -= 1;
        self.bytes[self.start] = byte;
    }

    /// Bytes before them.
    pub fn put_word(&mut self, word: &[u8])
        requires { length word.now + length self.old ≤ LINE_ROOM }
        ensures { self.new ≡ word.now ++ self.old }
    {
        let end = self.start;
        let start = end - word.len();
        self.bytes[start..end].copy_from_slice(word);
        self.start = start;
    }

    /// A number's decimal digits before them, at most 20.
    pub fn put_number(&mut self, n: u64)
        requires { length self.old + 20 ≤ LINE_ROOM }
        ensures text { self.new ≡ decimal n ++ self.old }
        ensures room { length self.new ≤ length self.old + 20 }
    {
        self.start = write_digits(n, &mut self.bytes, self.start);
    }

    /// A number's decimal digits with its sign before them, at most 40 bytes.
    pub fn put_signed(&mut self, n: i128)
        requires { length self.old + 40 ≤ LINE_ROOM }
        ensures text { self.new ≡ signed_decimal n ++ self.old }
        ensures room { length self.new ≤ length self.old + 40 }
    {
        let size = n.unsigned_abs();
        if size > u64::MAX as u128 {
            let mut buffer = Buffer::new();
            self.put_word(buffer.format(n).as_bytes());
            return;
        }
        self.put_number(size as u64);
        if n < 0 {
            self.put_byte(b'-');
        }
    }
}

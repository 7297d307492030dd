//! A short text, made with no memory.
ghost use Rattle.std.specs.Prelude.{◌≡◌, ◌+◌, ◌*◌, ◌≤◌, [], ◌++◌, length, decimal};
ghost use Rattle.ndef_cli.specs.Quoting.{quoted, quoted_byte, quoted_bytes};

use crate::quoting::{digits_of, is_plain};
use arrayvec::ArrayVec;
use itoa::Buffer;
use std::marker::Model;

/// The most bytes of a `Line`.
pub const ROOM: usize = 1088;

/// A text of at most `SIZE` bytes.
#[derive(Drop)]
pub struct ArrayLine<const SIZE: usize> {
    bytes: ArrayVec<u8, SIZE>,
}

/// A text of at most 1088 bytes: that of any ending, with an id between quotation marks.
pub type Line = ArrayLine<ROOM>;

impl<const SIZE: usize> Model for ArrayLine<SIZE> {
    ghost use Rattle.std.specs.Prelude.{List, ℕ};

    ghost Value = { List ℕ };

    ghost view = { λ l. l.bytes.items };
}

impl<const SIZE: usize> ArrayLine<SIZE> {
    /// The empty text.
    pub fn new() -> ArrayLine<SIZE>
        ensures { result ≡ [] }
    {
        ArrayLine {
            bytes: ArrayVec::new(),
        }
    }

    /// Appends a text, which must fit in the rest of the line.
    pub fn push(&mut self, text: &[u8])
        requires { length self.old + length text.now ≤ SIZE }
        ensures { self.new ≡ self.old ++ text.now }
    {
        self.bytes.try_extend_from_slice(text).unwrap();
    }

    /// Appends a number in decimal digits, at most 20 of them.
    pub fn push_number(&mut self, number: u64)
        requires { length self.old + 20 ≤ SIZE }
        ensures text { self.new ≡ self.old ++ decimal number }
        ensures room { length self.new ≤ length self.old + 20 }
    {
        let mut buffer = Buffer::new();
        self.push(buffer.format(number).as_bytes());
    }

    /// Appends a byte in the form that it has between quotation marks.
    fn push_quoted_byte(&mut self, byte: u8)
        requires { length self.old + 4 ≤ SIZE }
        ensures text { self.new ≡ self.old ++ quoted_byte byte }
        ensures room { length self.new ≤ length self.old + 4 }
    {
        if is_plain(byte) {
            self.push(&[byte]);
        } else {
            self.push(b"\\x");
            self.push(&digits_of(byte));
        }
    }

    /// Appends the bytes in the form that they have between quotation marks.
    fn push_quoted_bytes(&mut self, bytes: &[u8])
        requires { length self.old + 4 * length bytes.now ≤ SIZE }
        ensures text { self.new ≡ self.old ++ quoted_bytes bytes.now }
        ensures room { length self.new ≤ length self.old + 4 * length bytes.now }
    {
        for byte in bytes {
            self.push_quoted_byte(*byte);
        }
    }

    /// Appends the bytes between quotation marks.
    pub fn push_quoted(&mut self, bytes: &[u8])
        requires { length self.old + 4 * length bytes.now + 2 ≤ SIZE }
        ensures text { self.new ≡ self.old ++ quoted bytes.now }
        ensures room { length self.new ≤ length self.old + 4 * length bytes.now + 2 }
    {
        self.push(b"\"");
        self.push_quoted_bytes(bytes);
        self.push(b"\"");
    }

    /// Its bytes.
    pub fn as_slice(&self) -> &[u8]
        ensures value { result.now ≡ self.now }
        ensures room { length self.now ≤ SIZE }
    {
        self.bytes.as_slice()
    }
}

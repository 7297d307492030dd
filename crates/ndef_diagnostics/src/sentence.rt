//! A short text, made with no memory.
ghost use Rattle.std.specs.Prelude.{◌≡◌, ◌+◌, ◌≤◌, [], ◌++◌, length, decimal};

use arrayvec::ArrayVec;
use itoa::Buffer;
use std::marker::Model;

/// The most bytes of a sentence.
pub const ROOM: usize = 192;

/// A sentence of English: at most 192 bytes of ASCII.
#[derive(Drop)]
pub struct Sentence {
    bytes: ArrayVec<u8, ROOM>,
}

impl Model for Sentence {
    ghost use Rattle.std.specs.Prelude.{List, ℕ};

    ghost Value = { List ℕ };

    ghost view = { λ s. s.bytes.items };
}

impl Sentence {
    /// The empty text.
    pub(crate) fn new() -> Sentence
        ensures { result ≡ [] }
    {
        Sentence {
            bytes: ArrayVec::new(),
        }
    }

    /// Appends a text, which must fit in the rest of the sentence.
    pub(crate) fn push(&mut self, text: &[u8])
        requires { length self.old + length text.now ≤ ROOM }
        ensures { self.new ≡ self.old ++ text.now }
    {
        self.bytes.try_extend_from_slice(text).unwrap();
    }

    /// Appends a number in decimal digits, at most 20 of them.
    pub(crate) fn push_number(&mut self, number: u64)
        requires { length self.old + 20 ≤ ROOM }
        ensures text { self.new ≡ self.old ++ decimal number }
        ensures room { length self.new ≤ length self.old + 20 }
    {
        let mut buffer = Buffer::new();
        self.push(buffer.format(number).as_bytes());
    }

    /// Its bytes, at most 192.
    pub fn as_slice(&self) -> &[u8]
        ensures value { result.now ≡ self.now }
        ensures room { length self.now ≤ ROOM }
    {
        self.bytes.as_slice()
    }
}

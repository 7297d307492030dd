//! The records with which any bytes begin, one after another.
ghost use Rattle.std.specs.Prelude.{◌≡◌, ◌-◌, false, length};
ghost use Rattle.std.specs.Iterator.{at_most};
ghost use Rattle.ndef_c.specs.Walks.{WalksOn};

use crate::record::{NdefRecord, record_at};

/// A walk over records, up to the one that ends its message, or else up to a place where no record begins (NDEF 1.0,
/// messages).
#[derive(Drop)]
pub(crate) struct Walk<'a> {
    /// The bytes in which they lie.
    bytes: &'a [u8],
    /// The offset at which the next one would begin.
    at: usize,
    /// Whether the message has ended.
    ended: bool,
}

impl<'a> Walk<'a> {
    /// The records from a place on.
    pub(crate) fn from(bytes: &'a [u8], at: usize) -> Walk<'a>
        ensures bytes { result.bytes.now ≡ bytes.now }
        ensures at { result.at ≡ at }
        ensures going { result.ended ≡ false }
    {
        Walk {
            bytes,
            at,
            ended: false,
        }
    }
}

impl<'a> Iterator for Walk<'a> {
    type Item = NdefRecord;

    ghost next_gives = { WalksOn };

    ghost remaining = { λ walk. at_most (length walk.bytes.now - walk.at) };

    fn next(&mut self) -> Option<NdefRecord> {
        if self.ended {
            return None;
        }
        let found = record_at(self.bytes, self.at)?;
        self.at = found.end;
        self.ended = found.last == 1;
        Some(found)
    }
}

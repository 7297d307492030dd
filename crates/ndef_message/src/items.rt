//! The records of a message, where they lie.
ghost use Rattle.std.specs.Prelude.{◌≡◌};
ghost use Rattle.std.specs.Iterator.{YieldsFirst, item_count};
ghost use Rattle.ndef_message.specs.Machine.Seen.{AreRuns, pieces_of, runs_of};

use crate::Item;
use crate::item::split_item;
use std::marker::Model;

/// The records of a viewed message, in order. Contracts see the runs of those that are left.
#[derive(Debug, Drop)]
pub struct Items<'a> {
    /// The bytes of the records that are left.
    bytes: &'a [u8],
}

impl<'a> Model for Items<'a> {
    ghost use Rattle.std.specs.Prelude.{List};
    ghost use Rattle.ndef_format.specs.Records.{Run};
    ghost use Rattle.ndef_message.specs.Machine.Seen.{AreRuns, pieces_of, runs_of};

    ghost Value = { List Run };

    ghost view = { λ s. runs_of (pieces_of s.bytes.now) };

    ghost invariant = { λ s. AreRuns s.bytes.now };
}

impl<'a> Items<'a> {
    /// The records that the bytes are.
    pub(crate) fn new(bytes: &'a [u8]) -> Items<'a>
        requires { AreRuns bytes.now }
        ensures { result ≡ runs_of (pieces_of bytes.now) }
    {
        Items { bytes }
    }
}

impl<'a> Iterator for Items<'a> {
    type Item = Item<'a>;

    ghost next_gives = { YieldsFirst (λ rest. rest) };

    ghost remaining = { item_count (λ rest. rest) };

    fn next(&mut self) -> Option<Item<'a>> {
        if self.bytes.is_empty() {
            return None;
        }
        let (item, rest) = split_item(self.bytes);
        self.bytes = rest;
        Some(item)
    }
}

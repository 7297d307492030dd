//! A message.
ghost use Rattle.std.specs.Cmp.Lexicographic.{lists_equiv, lists_per, pointwise};
ghost use Rattle.std.specs.Hash as fed;
ghost use Rattle.std.specs.Hash.{items_Alike};
ghost use Rattle.std.specs.Iterator.Adapters.{IterYieldsInOrder, IterYieldsInReverse};
ghost use Rattle.std.specs.Prelude.{◌≡◌, ◌<◌, ◌↔◌, ◌^◌, length, slice_get, option_map, IsTrue};
ghost use Rattle.std.specs.List.{AllByRecursion};
ghost use Rattle.std.specs.Slice.Iter.{iter_rest};
ghost use Rattle.ndef_value.specs.contracts.record.RecordEq.TheImpl.Laws as equiv;
ghost use Rattle.ndef_value.specs.contracts.record.RecordHash.TheImpl.Laws as hashed;
ghost use Rattle.ndef_value.specs.contracts.record.RecordPartialEq.TheImpl.Laws as per;
ghost use Rattle.ndef_format.specs.Messages.{Item};
ghost use Rattle.ndef_format.specs.Canonical.{IsItem, AreItems};
ghost use Rattle.ndef_value.specs.Message.{GivesMessage};

use crate::{MOST_RECORDS, Record};
use std::hash::{Hash, Hasher};
use std::marker::Model;
use std::slice;
use thiserror::Error;

/// A message (NDEF 1.0): 1 to 65535 records.
#[derive(Debug, Drop)]
pub struct Message {
    records: Vec<Record>,
}

impl Model for Message {
    ghost use Rattle.std.specs.Prelude.{List};
    ghost use Rattle.ndef_format.specs.Messages.{Item};
    ghost use Rattle.ndef_format.specs.Canonical.{AreItems};

    ghost Value = { List Item };

    ghost view = { λ m. m.records.items };

    ghost invariant = { λ m. AreItems m.records.items };
}

/// The reason why there is no message of some records, which are handed back.
#[derive(Debug, Drop, Error)]
pub enum MessageError {
    /// There are none.
    #[error("a message with no records")]
    NoRecords(Vec<Record>),
    /// There are more than 65535.
    #[error("a message of more than 65535 records")]
    TooMany(Vec<Record>),
}

/// Each record of a list is one: its parts go together.
fn are_items(records: &[Record])
    ensures { AllByRecursion IsItem records.now }
{
    for item in records {
        // For the proof alone.
        let _tnf = item.tnf();
    }
}

impl Message {
    /// A message of the records, in their order; the records back where there are none or more than
    /// 65535. It allocates no memory.
    pub fn new(records: Vec<Record>) -> Result<Message, MessageError>
        ensures { GivesMessage records.items result }
    {
        if records.is_empty() {
            return Err(MessageError::NoRecords(records));
        }
        if records.len() > MOST_RECORDS as usize {
            return Err(MessageError::TooMany(records));
        }
        are_items(&records);
        Ok(Message { records })
    }

    /// The number of records, 1 to 65535.
    pub fn len(&self) -> usize
        ensures value { result ≡ length self.now }
        ensures items { AreItems self.now }
    {
        self.records.len()
    }

    /// The records, 1 to 65535 of them.
    pub fn records(&self) -> &[Record]
        ensures value { result.now ≡ self.now }
        ensures items { AreItems self.now }
    {
        self.records.as_slice()
    }

    /// The records, 1 to 65535 of them, moved out. It allocates no memory.
    pub fn into_records(self) -> Vec<Record>
        ensures value { result.items ≡ self }
        ensures items { AreItems self }
    {
        self.records
    }

    /// The record at a place, counted from 0; none from `len` on.
    pub fn get(&self, index: usize) -> Option<&Record>
        ensures value { option_map (λ r. r.now) result ≡ slice_get self.now index }
        ensures items { AreItems self.now }
    {
        self.records.get(index)
    }

    /// The records one after another, 1 to 65535 of them. Each call starts from the first.
    pub fn iter(&self) -> slice::Iter<'_, Record>
        ensures rest { iter_rest result ≡ self.now }
        ensures bound { length (iter_rest result) < 2 ^ 64 }
        ensures items { AreItems self.now }
        // It gives them in order, or from the back.
        ensures runs { IterYieldsInOrder Item }
        ensures runs_back { IterYieldsInReverse Item }
    {
        self.records().iter()
    }
}

impl<'a> IntoIterator for &'a Message {
    type Item = &'a Record;

    type IntoIter = slice::Iter<'a, Record>;

    ghost into_iter_gives = { λ message it.
        (iter_rest it ≡ message.now) × (length (iter_rest it) < 2 ^ 64) × IterYieldsInOrder Item };

    fn into_iter(self) -> slice::Iter<'a, Record> {
        self.iter()
    }
}

impl PartialEq for Message {
    ghost eq = { pointwise ⟦<Record as PartialEq>⟧.eq };

    ghost laws = { lists_per per.laws-law };

    fn eq(&self, other: &Message) -> bool
        ensures eq { result ≡ pointwise ⟦<Record as PartialEq>⟧.eq self.now other.now }
        ensures value { IsTrue result ↔ (self.now ≡ other.now) }
    {
        self.records == other.records
    }
}

impl Eq for Message {
    ghost laws = { lists_equiv equiv.laws-law };
}

impl Hash for Message {
    ghost hash_input = { fed.slice ⟦<Record as Hash>⟧.hash_input };

    ghost respects_eq = { (items_Alike (record { fed = hashed.respects_eq-law })).fed };

    fn hash<H: Hasher>(&self, state: &mut H) {
        self.records.hash(state);
    }
}

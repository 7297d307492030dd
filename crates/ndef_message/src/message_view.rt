//! A message, where it lies.
ghost use Rattle.std.specs.Prelude.{◌≡◌, ◌≤◌, length, map, IfOk};
ghost use Rattle.ndef_format.specs.Messages.{run_record};
ghost use Rattle.ndef_message.specs.Machine.Seen.{AreChecked, viewed_of};

use crate::Items;
use ndef_value::{Message, NoMemory, Profile};
use std::alloc::Global;
use std::marker::Model;

/// A message (NDEF 1.0) at the front of a slice, of which nothing is copied: [`view`](crate::view) makes one of bytes
/// that it has checked. Contracts see the number of bytes of the message, the runs of its records, and the profile with
/// which it was checked.
#[derive(Debug, Drop)]
pub struct View<'a> {
    /// The bytes of the message.
    bytes: &'a [u8],
    /// The number of its records.
    records: u32,
    /// The way in which reserved values were read.
    profile: Profile,
}

impl<'a> Model for View<'a> {
    ghost use Rattle.ndef_message.specs.Machine.Seen.{AreChecked, viewed_of};
    ghost use Rattle.ndef_message.specs.Views.{Viewed};

    ghost Value = { Viewed };

    ghost view = { λ v. viewed_of v.bytes.now v.profile };

    ghost invariant = { λ v. AreChecked v.bytes.now v.records };
}

impl<'a> View<'a> {
    /// The message that the bytes are.
    pub(crate) fn new(bytes: &'a [u8], records: u32, profile: Profile) -> View<'a>
        requires { AreChecked bytes.now records }
        ensures { result ≡ viewed_of bytes.now profile }
    {
        View {
            bytes,
            records,
            profile,
        }
    }

    /// The number of bytes of the message. What follows them in the slice isn't part of it.
    pub fn taken(&self) -> u64
        ensures { result ≡ self.now.taken }
    {
        self.bytes.len() as u64
    }

    /// The number of records of the message, 1 to 65535, and at most as many as its limits allowed.
    pub fn records(&self) -> u32
        ensures { result ≡ length self.now.runs }
    {
        self.records
    }

    /// Returns the profile of the limits that were given, by which reserved values were read.
    pub fn profile(&self) -> Profile
        ensures { result ≡ self.now.profile }
    {
        self.profile
    }

    /// The records of the message, in order, 1 to 65535 of them. Each call starts from the first.
    pub fn items(&self) -> Items<'a>
        ensures value { result ≡ self.now.runs }
        ensures some { 1 ≤ length self.now.runs }
        ensures few { length self.now.runs ≤ 65535 }
    {
        Items::new(self.bytes)
    }

    /// A copy of the message; `NoMemory` where an allocation fails.
    pub fn to_message(&self, alloc: Global) -> Result<Message, NoMemory>
        ensures { IfOk result (λ m. m ≡ map run_record self.now.runs) }
    {
        let mut records = Vec::new(alloc);
        for item in self.items() {
            records.push(item.to_record(alloc)?)?;
        }
        let Ok(message) = Message::new(records) else {
            unreachable!()
        };
        Ok(message)
    }
}

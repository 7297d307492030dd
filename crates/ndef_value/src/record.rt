//! A record.
ghost use Rattle.std.specs.Prelude.{◌≡◌, ◌≤◌, ◌↔◌, [], length, IfOk, IsErrOf, IsTrue};
ghost use Rattle.ndef_value.specs.declared.record.RecordError.TheVariants as errors;
ghost use Rattle.ndef_value.specs.Record.{record_error};
ghost use Rattle.ndef_format.specs.Messages.{IsShaped};
ghost use Rattle.ndef_format.specs.Canonical.{HasLengths, IsItem};

use crate::{Bytes, MOST_PAYLOAD, Name, NameError, NoMemory, Tnf};
use std::alloc::Global;
use std::marker::Model;
use thiserror::Error;

/// A record (NDEF 1.0), in one piece or several: a type name format, a type, an id and a payload that go
/// together.
///
/// An Empty record has no type, id or payload, an Unknown one no type, every other one a type; none
/// is Unchanged. A type and an id have at most 255 bytes, a payload at most 4294967295.
#[derive(Debug, Drop, PartialEq, Eq, Hash)]
pub struct Record {
    tnf: Tnf,
    kind: Name,
    id: Name,
    payload: Bytes,
}

impl Model for Record {
    ghost use Rattle.ndef_format.specs.Messages.{Item};
    ghost use Rattle.ndef_format.specs.Canonical.{IsItem};

    ghost Value = { Item };

    ghost view = { λ r. record { tnf = r.tnf; kind = r.kind; id = r.id; payload = r.payload } };

    ghost invariant = { λ r. IsItem (record { tnf = r.tnf; kind = r.kind; id = r.id; payload = r.payload }) };

    ghost inverse = { λ v. record { tnf = v.tnf; kind = v.kind; id = v.id; payload = v.payload } };
}

/// The reason why some parts make no record, in the order in which the reasons are tried. Nothing was made.
#[derive(Clone, Copy, Debug, Drop, PartialEq, Eq, Hash, Error)]
pub enum RecordError {
    /// The type name format is Unchanged, or the parts don't go with it.
    #[error("the parts do not go with the type name format")]
    BadShape,
    /// A type or an id of more than 255 bytes, or a payload of more than 4294967295.
    #[error("a part is too long")]
    TooLong,
    /// An allocation failed.
    #[error("no memory")]
    NoMemory,
}

impl From<NameError> for RecordError {
    ghost from_gives = { λ error given. given ≡ record_error error };

    fn from(error: NameError) -> RecordError {
        match error {
            NameError::TooLong => RecordError::TooLong,
            NameError::NoMemory => RecordError::NoMemory,
        }
    }
}

impl From<NoMemory> for RecordError {
    ghost from_gives = { λ _ given. given ≡ errors.NoMemory };

    fn from(_: NoMemory) -> RecordError {
        RecordError::NoMemory
    }
}

/// Whether the parts go together.
fn is_shaped(tnf: Tnf, kind: &[u8], id: &[u8], payload: &[u8]) -> bool
    ensures { IsTrue result
        ↔ IsShaped (record { tnf = tnf; kind = kind.now; id = id.now; payload = payload.now }) }
{
    match tnf {
        Tnf::Empty => kind.is_empty() && id.is_empty() && payload.is_empty(),
        Tnf::WellKnown | Tnf::Media | Tnf::AbsoluteUri | Tnf::External => !kind.is_empty(),
        Tnf::Unknown => kind.is_empty(),
        Tnf::Unchanged => false,
    }
}

/// Whether each part is at most as long as the lengths of a head allow.
fn has_lengths(tnf: Tnf, kind: &[u8], id: &[u8], payload: &[u8]) -> bool
    ensures { IsTrue result
        ↔ HasLengths (record { tnf = tnf; kind = kind.now; id = id.now; payload = payload.now }) }
{
    kind.len() <= 255 && id.len() <= 255 && payload.len() <= MOST_PAYLOAD as usize
}

impl Record {
    /// A record of copies. `BadShape` comes before `TooLong`, and `TooLong` before `NoMemory`, which never comes for a
    /// type and an id of up to 32 bytes and no payload, since they need no memory.
    pub fn new(
        alloc: Global,
        tnf: Tnf,
        kind: &[u8],
        id: &[u8],
        payload: &[u8],
    ) -> Result<Record, RecordError>
        ensures ok { IfOk result (λ r.
            r ≡ record { tnf = tnf; kind = kind.now; id = id.now; payload = payload.now }) }
        ensures bad_shape { IsErrOf result RecordError.BadShape
            ↔ ¬ IsShaped (record { tnf = tnf; kind = kind.now; id = id.now; payload = payload.now }) }
        ensures too_long { IsErrOf result RecordError.TooLong
            ↔ (IsShaped (record { tnf = tnf; kind = kind.now; id = id.now; payload = payload.now })
            × ¬ HasLengths (record { tnf = tnf; kind = kind.now; id = id.now; payload = payload.now })) }
        ensures inline { length kind.now ≤ 32 → length id.now ≤ 32 → payload.now ≡ []
            → ¬ IsErrOf result RecordError.NoMemory }
    {
        if !is_shaped(tnf, kind, id, payload) {
            return Err(RecordError::BadShape);
        }
        if !has_lengths(tnf, kind, id, payload) {
            return Err(RecordError::TooLong);
        }
        let kind = Name::from_slice(alloc, kind)?;
        let id = Name::from_slice(alloc, id)?;
        let payload = Bytes::from_slice(alloc, payload)?;
        Ok(Record::from_parts(tnf, kind, id, payload))
    }

    /// A record of exactly these parts, which go together. It allocates no memory.
    pub fn from_parts(tnf: Tnf, kind: Name, id: Name, payload: Bytes) -> Record
        requires shape { IsShaped (record { tnf = tnf; kind = kind; id = id; payload = payload }) }
        requires lengths { HasLengths (record { tnf = tnf; kind = kind; id = id; payload = payload }) }
        ensures { result ≡ record { tnf = tnf; kind = kind; id = id; payload = payload } }
    {
        Record {
            tnf,
            kind,
            id,
            payload,
        }
    }

    /// The type name format (NDEF 1.0, TNF), never Unchanged.
    pub fn tnf(&self) -> Tnf
        ensures value { result ≡ self.now.tnf }
        ensures item { IsItem self.now }
    {
        self.tnf
    }

    /// The type (NDEF 1.0, TYPE), 0 to 255 bytes.
    pub fn kind(&self) -> &[u8]
        ensures value { result.now ≡ self.now.kind }
        ensures item { IsItem self.now }
    {
        self.kind.as_slice()
    }

    /// The id (NDEF 1.0, ID), 0 to 255 bytes; it is also empty where there is no id.
    pub fn id(&self) -> &[u8]
        ensures value { result.now ≡ self.now.id }
        ensures item { IsItem self.now }
    {
        self.id.as_slice()
    }

    /// The payload (NDEF 1.0, PAYLOAD), that of all pieces joined, 0 to 4294967295 bytes.
    pub fn payload(&self) -> &[u8]
        ensures value { result.now ≡ self.now.payload }
        ensures item { IsItem self.now }
    {
        self.payload.as_slice()
    }
}

//! Handover selects.
ghost use Rattle.std.specs.Prelude.{◌≡◌, ◌+◌, ◌^◌, ◌<◌, ◌≤◌, ◌↔◌, length, IfOk, IsErrOf, IfSome, option_map};
ghost use Rattle.ndef_format.specs.declared.profile.Profile.TheVariants.{Strict};
ghost use Rattle.ndef_value.specs.declared.limits.TheConstants.{MOST_RECORDS};
ghost use Rattle.ndef_format.specs.NestedReasons.{NestReason};
ghost use Rattle.ndef_format.specs.Nested.{HasContents, IsNest};
ghost use Rattle.ndef_format.specs.declared.table.Table.TheVariants as tables;
ghost use Rattle.ndef_types.specs.Decoding.{DecodesTo};
ghost use Rattle.ndef_types.specs.Handovers.{MakesSelect, StandsForSelect, WritesSelect, canonical_or_none};

use crate::accepting::accept;
use crate::contents::first_wrong;
use crate::fields::after_first;
use crate::nested::{encode_after, read_optional};
use crate::{DecodeError, EncodeError, NotHandover};
use ndef_lang::Kind;
use ndef_nest::{Nest, Table, strict_contents_are_read};
use ndef_value::{Bytes, Message, NoMemory, Profile};
use std::alloc::Global;
use std::marker::Model;

/// A handover select (Connection Handover 1.2): a minor version from 0 to 15, and a message or none.
#[derive(Debug, Drop, PartialEq, Eq, Hash)]
pub struct Select {
    minor: u8,
    message: Option<Message>,
}

impl Model for Select {
    ghost use Rattle.std.specs.Prelude.{◌<◌, IfSome};
    ghost use Rattle.ndef_format.specs.declared.profile.Profile.TheVariants.{Strict};
    ghost use Rattle.ndef_format.specs.Nested.{HasContents};
    ghost use Rattle.ndef_format.specs.declared.table.Table.TheVariants as tables;
    ghost use Rattle.ndef_types.specs.Handovers.{SelectValue};

    ghost Value = { SelectValue };

    ghost view = { λ s. record { minor = s.minor; message = s.message } };

    ghost invariant = { λ s. (s.minor < 16) × IfSome s.message (HasContents tables.Select Strict) };

    ghost inverse = { λ v. record { minor = v.minor; message = v.message } };
}

/// Returns the select of a payload of a Handover Select record, or `NoMemory`. The payload is not checked
/// again.
pub fn read_select(alloc: Global, payload: &[u8], profile: Profile) -> Result<Select, NoMemory>
    requires { IsNest tables.Select MOST_RECORDS profile payload.now }
    ensures { IfOk result (StandsForSelect profile payload.now) }
{
    // For the proof alone.
    strict_contents_are_read();
    let version = payload[0];
    let message = read_optional(alloc, after_first(payload), profile)?;
    Ok(Select {
        minor: version - 0x10,
        message,
    })
}

impl Select {
    /// A select of the message, if there is one, as a strict reader takes it, or the message back. It
    /// allocates no memory.
    ///
    /// The minor version is at most 15.
    pub fn new(minor: u8, message: Option<Message>) -> Result<Select, NotHandover>
        requires { minor < 16 }
        ensures { MakesSelect minor message result }
    {
        let Some(message) = message else {
            return Ok(Select {
                minor,
                message: None,
            });
        };
        match first_wrong(Table::Select, message.records()) {
            None => Ok(Select {
                minor,
                message: Some(message),
            }),
            Some(index) => Err(NotHandover { message, index }),
        }
    }

    /// Returns the select of the payload of a Handover Select record, as a strict reader takes
    /// it: a version octet alone, or with a message of at most 65535 records, each in one piece. Any
    /// other payload is `Refused` at the first byte after which no payload of its length is one. Else
    /// `NoMemory`.
    pub fn decode(alloc: Global, payload: &[u8]) -> Result<Select, DecodeError>
        ensures { DecodesTo (IsNest tables.Select MOST_RECORDS Strict) (NestReason tables.Select MOST_RECORDS Strict)
            (StandsForSelect Strict) payload.now result }
    {
        Select::decode_as(alloc, payload, Profile::Strict)
    }

    /// Returns the select of the payload of a Handover Select record, as a reader of the
    /// profile takes it. Refusals as for `decode`.
    pub fn decode_as(alloc: Global, payload: &[u8], profile: Profile) -> Result<Select, DecodeError>
        ensures { DecodesTo (IsNest tables.Select MOST_RECORDS profile) (NestReason tables.Select MOST_RECORDS profile)
            (StandsForSelect profile) payload.now result }
    {
        accept::<Nest>(Kind::Select, profile, payload)?;
        Ok(read_select(alloc, payload, profile)?)
    }

    /// The payload of a Handover Select record: the version octet, and the canonical spelling of the
    /// message, if there is one. `TooLong` where it has more than 4294967295 bytes comes before
    /// `NoMemory`.
    pub fn encode(&self, alloc: Global) -> Result<Bytes, EncodeError>
        ensures ok { IfOk result (WritesSelect self.now) }
        ensures too_long { IsErrOf result EncodeError.TooLong
            ↔ (2 ^ 32 ≤ 1 + length (canonical_or_none self.now.message)) }
    {
        let version = 0x10 + self.minor;
        match &self.message {
            Some(message) => encode_after(alloc, version, message),
            None => Ok(Bytes::from_slice(alloc, &[version])?),
        }
    }

    /// The minor version, 0 to 15.
    pub fn minor(&self) -> u8
        ensures value { result ≡ self.now.minor }
        ensures bound { result < 16 }
    {
        self.minor
    }

    /// The message, if there is one.
    pub fn message(&self) -> Option<&Message>
        ensures value { option_map (λ m. m.now) result ≡ self.now.message }
        ensures contents { IfSome self.now.message (HasContents tables.Select Strict) }
    {
        self.message.as_ref()
    }
}

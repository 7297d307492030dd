//! Handover requests.
ghost use Rattle.std.specs.Prelude.{◌≡◌, ◌<◌, ◌≤◌, ◌+◌, ◌^◌, ◌↔◌, length, IfOk, IsErrOf, MatchOption};
ghost use Rattle.ndef_format.specs.Canonical.{canonical};
ghost use Rattle.ndef_format.specs.declared.profile.Profile.TheVariants.{Strict};
ghost use Rattle.ndef_value.specs.declared.limits.TheConstants.{MOST_RECORDS};
ghost use Rattle.ndef_format.specs.NestedReasons.{NestReason};
ghost use Rattle.ndef_format.specs.Nested.{HasContents, IsNest};
ghost use Rattle.ndef_format.specs.declared.table.Table.TheVariants as tables;
ghost use Rattle.ndef_types.specs.Decoding.{DecodesTo};
ghost use Rattle.ndef_types.specs.Handovers.{IsCollisionOf, MakesRequest, StandsForRequest, WritesRequest};

use crate::accepting::accept;
use crate::contents::first_wrong;
use crate::fields::after_first;
use crate::nested::{encode_after, read_nested};
use crate::{DecodeError, EncodeError, NotHandover};
use ndef_lang::Kind;
use ndef_nest::{Nest, Table, strict_contents_are_read};
use ndef_value::{Bytes, Message, NoMemory, Profile};
use std::alloc::Global;
use std::marker::Model;

/// A handover request (Connection Handover 1.2): a minor version from 0 to 15, and a message that
/// begins with its collision resolution record.
#[derive(Debug, Drop, PartialEq, Eq, Hash)]
pub struct Request {
    minor: u8,
    message: Message,
}

impl Model for Request {
    ghost use Rattle.std.specs.Prelude.{◌<◌};
    ghost use Rattle.ndef_format.specs.declared.profile.Profile.TheVariants.{Strict};
    ghost use Rattle.ndef_format.specs.Nested.{HasContents};
    ghost use Rattle.ndef_format.specs.declared.table.Table.TheVariants as tables;
    ghost use Rattle.ndef_types.specs.Handovers.{RequestValue};

    ghost Value = { RequestValue };

    ghost view = { λ r. record { minor = r.minor; items = r.message } };

    ghost invariant = { λ r. (r.minor < 16) × HasContents tables.Request Strict r.message };

    ghost inverse = { λ v. record { minor = v.minor; message = v.items } };
}

/// Returns the request of a payload of a Handover Request record, or `NoMemory`. The payload is not checked
/// again.
pub fn read_request(alloc: Global, payload: &[u8], profile: Profile) -> Result<Request, NoMemory>
    requires { IsNest tables.Request MOST_RECORDS profile payload.now }
    ensures { IfOk result (StandsForRequest profile payload.now) }
{
    // For the proof alone.
    strict_contents_are_read();
    let version = payload[0];
    let message = read_nested(alloc, after_first(payload), profile)?;
    Ok(Request {
        minor: version - 0x10,
        message,
    })
}

impl Request {
    /// A request of the message, as a strict reader takes it, or the message back. It allocates no memory.
    ///
    /// The minor version is at most 15.
    pub fn new(minor: u8, message: Message) -> Result<Request, NotHandover>
        requires { minor < 16 }
        ensures { MakesRequest minor message result }
    {
        match first_wrong(Table::Request, message.records()) {
            None => Ok(Request { minor, message }),
            Some(index) => Err(NotHandover { message, index }),
        }
    }

    /// Returns the request of the payload of a Handover Request record, as a strict reader
    /// takes it: a version octet and a message of at most 65535 records, each in one piece. Any other
    /// payload is `Refused` at the first byte after which no payload of its length is one. Else
    /// `NoMemory`.
    pub fn decode(alloc: Global, payload: &[u8]) -> Result<Request, DecodeError>
        ensures { DecodesTo (IsNest tables.Request MOST_RECORDS Strict) (NestReason tables.Request MOST_RECORDS Strict)
            (StandsForRequest Strict) payload.now result }
    {
        Request::decode_as(alloc, payload, Profile::Strict)
    }

    /// Returns the request of the payload of a Handover Request record, as a reader of the
    /// profile takes it. Refusals as for `decode`.
    pub fn decode_as(
        alloc: Global,
        payload: &[u8],
        profile: Profile,
    ) -> Result<Request, DecodeError>
        ensures { DecodesTo (IsNest tables.Request MOST_RECORDS profile)
            (NestReason tables.Request MOST_RECORDS profile)
            (StandsForRequest profile) payload.now result }
    {
        accept::<Nest>(Kind::Request, profile, payload)?;
        Ok(read_request(alloc, payload, profile)?)
    }

    /// The payload of a Handover Request record: the version octet and the canonical spelling of the
    /// message. `TooLong` where it has more than 4294967295 bytes comes before `NoMemory`.
    pub fn encode(&self, alloc: Global) -> Result<Bytes, EncodeError>
        ensures ok { IfOk result (WritesRequest self.now) }
        ensures too_long { IsErrOf result EncodeError.TooLong ↔ (2 ^ 32 ≤ 1 + length (canonical self.now.items)) }
    {
        encode_after(alloc, 0x10 + self.minor, &self.message)
    }

    /// The minor version, 0 to 15.
    pub fn minor(&self) -> u8
        ensures value { result ≡ self.now.minor }
        ensures bound { result < 16 }
    {
        self.minor
    }

    /// The message.
    pub fn message(&self) -> &Message
        ensures value { result.now ≡ self.now.items }
        ensures contents { HasContents tables.Request Strict self.now.items }
    {
        &self.message
    }

    /// The random number that resolves a collision (Connection Handover 1.2, Collision Resolution record),
    /// of the first record.
    pub fn collision(&self) -> u16
        ensures { IsCollisionOf self.now.items result }
    {
        match self.message.records()[0].payload() {
            [a, b] => u16::from_be_bytes([*a, *b]),
            _ => unreachable!(),
        }
    }
}

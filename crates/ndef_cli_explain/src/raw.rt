//! Bytes that are written as they are.
ghost use Rattle.std.specs.Prelude.{◌≡◌, [], IfOk};
ghost use Rattle.ndef_message.specs.Inputs.{bytes_of};
ghost use Rattle.ndef_cli_explain.specs.Reporting.{AreRawOctets, IsPayloadOf, IsRawPayload, unread_status};

use crate::inputs::Unread;
use crate::numbered::record_of;
use crate::reporting::unread_status;
use ndef_cli::Status;
use ndef_message::Item;
use ndef_value::{Bytes, Limits, NoMemory};
use std::alloc::Global;

/// The bytes that are written of an input, and its status.
#[derive(Drop)]
pub(crate) struct RawInput {
    pub(crate) text: Bytes,
    pub(crate) status: Status,
}

/// Nothing, with the status of an input of which there are no bytes.
fn no_octets(alloc: Global, unread: Unread) -> RawInput
    ensures nothing { result.text ≡ [] }
    ensures status { result.status ≡ unread_status unread }
{
    RawInput {
        text: Bytes::new(alloc),
        status: unread_status(unread),
    }
}

/// Returns the payload of a record as it is, and nothing if there is no such record.
fn raw_item(alloc: Global, item: Option<Item<'_>>) -> Result<RawInput, NoMemory>
    ensures { IfOk result (λ reported. IsPayloadOf item.entry reported.text reported.status) }
{
    match item {
        Some(item) => Ok(RawInput {
            text: item.joined(alloc)?,
            status: Status::Clean,
        }),
        None => Ok(RawInput {
            text: Bytes::new(alloc),
            status: Status::Refused,
        }),
    }
}

/// Returns the bytes of an input as they are.
pub(crate) fn raw_octets(alloc: Global, octets: Result<Vec<u8>, Unread>) -> RawInput
    ensures { AreRawOctets (bytes_of octets) result.text result.status }
{
    match octets {
        Ok(octets) => RawInput {
            text: Bytes::from(octets),
            status: Status::Clean,
        },
        Err(unread) => no_octets(alloc, unread),
    }
}

/// Returns the payload of the record of this number as it is.
pub(crate) fn raw_payload(
    alloc: Global,
    limits: Limits,
    number: u32,
    octets: Result<Vec<u8>, Unread>,
) -> Result<RawInput, NoMemory>
    ensures { IfOk result (λ reported. IsRawPayload limits number (bytes_of octets) reported.text reported.status) }
{
    match octets {
        Ok(octets) => raw_item(alloc, record_of(octets.as_slice(), limits, number)),
        Err(unread) => Ok(no_octets(alloc, unread)),
    }
}

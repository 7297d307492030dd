//! Payloads of 255 and 256 bytes: the short form goes up to 255 (NDEF 1.0, SR).
ghost use Rattle.std.specs.Prelude.{◌≤◌};

use crate::samples::read;
use ndef_message::{Form, StdSink, encode, encode_chunked, encoded_length, write_message};
use ndef_value::{Message, Record, Tnf};
use std::alloc::Global;
use std::test::Fail;

/// A payload that is written whole, in part, or in pieces.
const PAYLOAD: [u8; 600] = [0x5A; 600];

/// A message of one record with the payload, without a type.
fn message_of(alloc: Global, payload: &[u8]) -> Result<Message, Fail> {
    let mut records = Vec::new(alloc);
    records.push(Record::new(alloc, Tnf::Unknown, &[], &[], payload)?)?;
    Ok(Message::new(records)?)
}

/// Whether the payload is written after the head, by `encode` and in one piece, and is read again.
fn is_written(alloc: Global, payload: &[u8], form: Form, head: &[u8]) -> Result<bool, Fail> {
    let message = message_of(alloc, payload)?;
    let mut expected = Vec::new(alloc);
    expected.extend_from_slice(head)?;
    expected.extend_from_slice(payload)?;
    let bytes = encode(alloc, &message, form)?;
    let in_one_piece = encode_chunked(alloc, &message, form, 4294967295)?;
    let back = read(alloc, bytes.as_slice())?;
    Ok(
        bytes.as_slice() == expected.as_slice()
            && in_one_piece.as_slice() == expected.as_slice()
            && encoded_length(&message, form) == expected.len() as u64
            && back == message,
    )
}

#[test]
fn the_short_form_ends_at_255_bytes(rt: HostRuntime) -> Result<(), Fail> {
    let alloc = rt.alloc();
    assert!(rt; is_written(alloc, &PAYLOAD[..254], Form::Short, &[0xD5, 0x00, 0xFE])?);
    assert!(rt; is_written(alloc, &PAYLOAD[..255], Form::Short, &[0xD5, 0x00, 0xFF])?);
    let long = [0xC5, 0x00, 0x00, 0x00, 0x01, 0x00];
    assert!(rt; is_written(alloc, &PAYLOAD[..256], Form::Short, &long)?);
    let long = [0xC5, 0x00, 0x00, 0x00, 0x00, 0xFF];
    assert!(rt; is_written(alloc, &PAYLOAD[..255], Form::Long, &long)?);
    Ok(())
}

/// A piece: its head and its part of the payload.
type Piece<'a> = (&'a [u8], &'a [u8]);

/// Whether the payload is written in these pieces, by both encoders, and is read again.
fn is_cut(alloc: Global, form: Form, size: u32, pieces: &[Piece<'_>; 3]) -> Result<bool, Fail>
    requires { 1 ≤ size }
{
    let message = message_of(alloc, &PAYLOAD)?;
    let mut expected = Vec::new(alloc);
    for (head, part) in pieces {
        expected.extend_from_slice(head)?;
        expected.extend_from_slice(part)?;
    }
    let bytes = encode_chunked(alloc, &message, form, size)?;
    let mut out = Vec::new(alloc);
    let mut sink = StdSink::new(&mut out);
    let written = write_message(&message, form, Some(size), &mut sink)?;
    drop(sink);
    let back = read(alloc, bytes.as_slice())?;
    Ok(
        bytes.as_slice() == expected.as_slice()
            && out.as_slice() == expected.as_slice()
            && written == expected.len() as u64
            && back == message,
    )
}

#[test]
fn pieces_are_short_up_to_255_bytes(rt: HostRuntime) -> Result<(), Fail> {
    let alloc = rt.alloc();
    let short: [Piece<'_>; 3] = [
        (&[0xB5, 0x00, 0xFF], &PAYLOAD[..255]),
        (&[0x36, 0x00, 0xFF], &PAYLOAD[..255]),
        (&[0x56, 0x00, 0x5A], &PAYLOAD[..90]),
    ];
    assert!(rt; is_cut(alloc, Form::Short, 255, &short)?);
    let long: [Piece<'_>; 3] = [
        (&[0xA5, 0x00, 0x00, 0x00, 0x01, 0x00], &PAYLOAD[..256]),
        (&[0x26, 0x00, 0x00, 0x00, 0x01, 0x00], &PAYLOAD[..256]),
        (&[0x56, 0x00, 0x58], &PAYLOAD[..88]),
    ];
    assert!(rt; is_cut(alloc, Form::Short, 256, &long)?);
    Ok(())
}

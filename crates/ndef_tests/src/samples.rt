//! Messages that several tests use.
use ndef_lang::Opaque;
use ndef_message::{SliceSource, read_message};
use ndef_value::{Limits, Message, Profile, Reason, Refusal};
use std::alloc::Global;
use std::test::Fail;

/// A text record that says Hello in English.
pub const HELLO: [u8; 12] = [
    0xD1, 0x01, 0x08, 0x54, 0x02, 0x65, 0x6E, 0x48, 0x65, 0x6C, 0x6C, 0x6F,
];

/// A record of the payload ABC in three pieces.
pub const CHUNKS: [u8; 12] = [
    0xB5, 0x00, 0x01, 0x41, 0x36, 0x00, 0x01, 0x42, 0x56, 0x00, 0x01, 0x43,
];

/// Two records without payloads, of the types A and B.
pub const TWO: [u8; 8] = [0x91, 0x01, 0x00, 0x41, 0x51, 0x01, 0x00, 0x42];

/// A handover select and the media record that it names by its id.
pub const SELECT: [u8; 24] = [
    0x91, 0x02, 0x0A, 0x48, 0x73, 0x12, 0xD1, 0x02, 0x04, 0x61, 0x63, 0x01, 0x01, 0x30, 0x00, 0x5A,
    0x03, 0x01, 0x01, 0x61, 0x2F, 0x62, 0x30, 0x01,
];

/// A smart poster with the URI a.
pub const POSTER: [u8; 11] = [
    0xD1, 0x02, 0x06, 0x53, 0x70, 0xD1, 0x01, 0x02, 0x55, 0x00, 0x61,
];

pub fn usual() -> Limits {
    Limits::usual()
}

pub fn standard() -> Limits {
    Limits::usual().with(Profile::Standard)
}

/// A refusal.
pub fn at<T>(at: u64, reason: Reason) -> Result<T, Refusal> {
    Err(Refusal { at, reason })
}

/// The message that the bytes begin with, whatever its payloads.
pub fn read(alloc: Global, bytes: &[u8]) -> Result<Message, Fail> {
    let mut source = SliceSource::whole(bytes);
    let read = read_message::<Opaque, _>(alloc, &mut source, Limits::usual())?;
    Ok(read.message)
}

//! Each growth of a call refused in turn, up to the one with which it succeeds.
use crate::memory::{spare_blocks, use_up};
use crate::samples::{CHUNKS, HELLO, SELECT, read, usual};
use ndef_lang::Opaque;
use ndef_message::{
    Decoder, Event, Form, ReadError, SliceSource, encode, encode_chunked, read_message,
};
use ndef_value::{Bytes, Message, Name, NameError, NoMemory};
use std::alloc::Global;
use std::test::Fail;

/// The smart poster with the URI a, in two pieces.
const PIECES: [u8; 14] = [
    0xB1, 0x02, 0x03, 0x53, 0x70, 0xD1, 0x01, 0x02, 0x56, 0x00, 0x03, 0x55, 0x00, 0x61,
];

/// One byte more than a name keeps inline.
const LONG: [u8; 33] = [0x41; 33];

/// A call that may take memory.
#[derive(Clone, Copy, Debug)]
enum Call {
    Encode,
    Chunks,
    Feed,
    FeedEach,
    Read,
    NewBytes,
    Extend,
    NewName,
    Push,
}

const CALLS: [Call; 9] = [
    Call::Encode,
    Call::Chunks,
    Call::Feed,
    Call::FeedEach,
    Call::Read,
    Call::NewBytes,
    Call::Extend,
    Call::NewName,
    Call::Push,
];

/// A message, its bytes, and what is written for it.
#[derive(Drop)]
struct Row<'a> {
    bytes: &'a [u8],
    message: Message,
    short: Bytes,
    chunks: Bytes,
}

/// Returns the expected results of a row, if there is memory.
fn row_of(alloc: Global, bytes: &[u8]) -> Result<Row<'_>, Fail> {
    let message = read(alloc, bytes)?;
    let short = encode(alloc, &message, Form::Short)?;
    let chunks = encode_chunked(alloc, &message, Form::Short, 3)?;
    Ok(Row {
        bytes,
        message,
        short,
        chunks,
    })
}

/// Whether the decoder takes the message, in parts of at most `most` bytes.
fn is_fed(alloc: Global, bytes: &[u8], most: usize) -> Result<bool, NoMemory> {
    let mut decoder = Decoder::<Opaque>::new(alloc, usual());
    let mut rest = bytes;
    for _ in 0..2 * bytes.len() {
        let part = &rest[..rest.len().min(most)];
        let (count, event) = decoder.feed(part);
        rest = &rest[count..];
        match event {
            Event::Whole { last: true, .. } => return Ok(rest.is_empty()),
            Event::Whole { .. } | Event::More => {}
            Event::Failed(_) => return Err(NoMemory),
            Event::Refused(_) | Event::Over => return Ok(false),
        }
    }
    Ok(false)
}

/// Whether the message is read.
fn is_read(alloc: Global, row: &Row<'_>) -> Result<bool, NoMemory> {
    let mut source = SliceSource::whole(row.bytes);
    match read_message::<Opaque, _>(alloc, &mut source, usual()) {
        Ok(read) => Ok(read.message == row.message),
        Err(ReadError::NoMemory) => Err(NoMemory),
        Err(_) => Ok(false),
    }
}

/// Whether a name is made of bytes that it doesn't keep inline.
fn is_named(alloc: Global) -> Result<bool, NoMemory> {
    match Name::from_slice(alloc, &LONG) {
        Ok(name) => Ok(name.as_slice() == LONG.as_slice()),
        Err(NameError::NoMemory) => Err(NoMemory),
        Err(_) => Ok(false),
    }
}

/// Whether the name takes one byte more than it keeps inline; as long as it doesn't, it is as it was.
fn is_pushed(alloc: Global) -> Result<bool, NoMemory> {
    let Ok(mut name) = Name::from_slice(alloc, &LONG[..32]) else {
        return Ok(false);
    };
    match name.push(0x41) {
        Ok(()) => Ok(name.as_slice() == LONG.as_slice()),
        Err(NoMemory) if name.as_slice() == &LONG[..32] => Err(NoMemory),
        Err(NoMemory) => Ok(false),
    }
}

/// Whether the call gives the expected answer; an error where there was no memory.
fn answers(alloc: Global, call: Call, row: &Row<'_>) -> Result<bool, NoMemory> {
    match call {
        Call::Encode => {
            let bytes = encode(alloc, &row.message, Form::Short)?;
            Ok(bytes == row.short)
        }
        Call::Chunks => {
            let bytes = encode_chunked(alloc, &row.message, Form::Short, 3)?;
            Ok(bytes == row.chunks)
        }
        Call::Feed => is_fed(alloc, row.bytes, row.bytes.len()),
        Call::FeedEach => is_fed(alloc, row.bytes, 1),
        Call::Read => is_read(alloc, row),
        Call::NewBytes => {
            let bytes = Bytes::from_slice(alloc, row.bytes)?;
            Ok(bytes.as_slice() == row.bytes)
        }
        Call::Extend => {
            let mut bytes = Bytes::new(alloc);
            bytes.extend(row.bytes)?;
            Ok(bytes.as_slice() == row.bytes)
        }
        Call::NewName => is_named(alloc),
        Call::Push => is_pushed(alloc),
    }
}

/// Returns how often the call found no memory before it answered, if one more block is freed each time; `None` if it
/// answered otherwise, or never.
fn refusals(alloc: Global, call: Call, row: &Row<'_>, spare: &mut Vec<Vec<u8>>) -> Option<u8> {
    for refused in 0..13u8 {
        match answers(alloc, call, row) {
            Ok(true) => return Some(refused),
            Ok(false) => return None,
            Err(NoMemory) => {
                let _ = spare.pop();
            }
        }
    }
    None
}

/// The first call that answers otherwise, or with no growth refused before, while memory is used up.
fn wrong_call(alloc: Global, bytes: &[u8]) -> Result<Option<(Call, Option<u8>)>, Fail> {
    let row = row_of(alloc, bytes)?;
    for call in CALLS {
        let mut spare = spare_blocks(alloc)?;
        let mut held = Vec::with_capacity(alloc, 65536)?;
        let used_up = use_up(alloc, &mut held);
        let refused = refusals(alloc, call, &row, &mut spare);
        drop(held);
        if !used_up || !matches!(refused, Some(1..)) {
            return Ok(Some((call, refused)));
        }
    }
    Ok(None)
}

#[test]
fn refuses_each_growth_of_a_text(rt: HostRuntime) -> Result<(), Fail> {
    let wrong = wrong_call(rt.alloc(), &HELLO)?;
    assert!(rt; wrong.is_none(), "{wrong:?}");
    Ok(())
}

#[test]
fn refuses_each_growth_of_chunks(rt: HostRuntime) -> Result<(), Fail> {
    let wrong = wrong_call(rt.alloc(), &CHUNKS)?;
    assert!(rt; wrong.is_none(), "{wrong:?}");
    Ok(())
}

#[test]
fn refuses_each_growth_of_a_chunked_poster(rt: HostRuntime) -> Result<(), Fail> {
    let wrong = wrong_call(rt.alloc(), &PIECES)?;
    assert!(rt; wrong.is_none(), "{wrong:?}");
    Ok(())
}

#[test]
fn refuses_each_growth_of_a_select(rt: HostRuntime) -> Result<(), Fail> {
    let wrong = wrong_call(rt.alloc(), &SELECT)?;
    assert!(rt; wrong.is_none(), "{wrong:?}");
    Ok(())
}

//! Values and messages where memory is used up.
use crate::memory::{spare_blocks, use_up};
use crate::samples::HELLO;
use ndef_lang::Opaque;
use ndef_message::{
    Checker, Decoder, Event, FailingSink, Fed, Form, Item, ReadError, SliceSource, View,
    check_message, encode, encode_chunked, read_message, view, write_message,
};
use ndef_nest::Typed;
use ndef_value::{
    Bytes, Limits, Message, Name, NameError, NoMemory, Reason, Record, RecordError, Refusal, Tnf,
};
use std::alloc::Global;
use std::test::Fail;

const LETTERS: [u8; 200] = [0x41; 200];

/// Whether a name is refused that isn't kept inline, made at once or byte by byte.
fn refuses_names(alloc: Global) -> bool {
    let Ok(mut name) = Name::from_slice(alloc, &LETTERS[..32]) else {
        return false;
    };
    Name::from_slice(alloc, &LETTERS[..33]).err() == Some(NameError::NoMemory)
        && name.push(0x41).is_err()
        && name.as_slice() == &LETTERS[..32]
}

/// Whether byte strings are refused, and what is extended is as it was.
fn refuses_bytes(alloc: Global, bytes: &mut Bytes) -> bool {
    let nothing = Bytes::from_slice(alloc, b"").is_ok() && bytes.extend(b"").is_ok();
    let empty = Record::new(alloc, Tnf::Media, &LETTERS[..32], &LETTERS[..32], b"").is_ok();
    nothing
        && empty
        && Bytes::from_slice(alloc, b"T").is_err()
        && bytes.extend(&LETTERS).is_err()
        && bytes.as_slice() == b"kept".as_slice()
}

/// Whether as many growths of 200 bytes succeed as blocks of 200 bytes are freed.
fn makes_at_last(alloc: Global, spare: &mut Vec<Vec<u8>>) -> bool {
    let part: &[u8] = &LETTERS;
    for _ in 0..3u8 {
        let error = Record::new(alloc, Tnf::Media, part, part, part).err();
        if error != Some(RecordError::NoMemory) {
            return false;
        }
        let _ = spare.pop();
    }
    Record::new(alloc, Tnf::Media, part, part, part).is_ok()
}

/// Whether memory was used up, whether values were refused then, and whether one was made at last.
fn refused_values(alloc: Global) -> Result<[bool; 3], Fail> {
    let mut bytes = Bytes::from_slice(alloc, b"kept")?;
    let mut spare = Vec::with_capacity(alloc, 3)?;
    for _ in 0..3u8 {
        spare.push(Vec::with_capacity(alloc, 200)?)?;
    }
    let mut held = Vec::with_capacity(alloc, 65536)?;
    let used_up = use_up(alloc, &mut held);
    let refused = refuses_names(alloc) && refuses_bytes(alloc, &mut bytes);
    let made = makes_at_last(alloc, &mut spare);
    drop(held);
    Ok([used_up, refused, made])
}

#[test]
fn refuses_each_growth_of_a_value(rt: HostRuntime) -> Result<(), Fail> {
    let seen = refused_values(rt.alloc())?;
    assert!(rt; seen == [true; 3], "{seen:?}");
    Ok(())
}

// A message with a type, an id and a payload that aren't kept inline.
fn wide_message(alloc: Global) -> Result<Message, Fail> {
    let part = &LETTERS[..40];
    let mut records = Vec::new(alloc);
    records.push(Record::new(alloc, Tnf::Media, part, part, part)?)?;
    Ok(Message::new(records)?)
}

fn is_read(alloc: Global, bytes: &[u8]) -> Result<bool, ReadError> {
    let mut source = SliceSource::new(bytes, &[]);
    let read = read_message::<Opaque, _>(alloc, &mut source, Limits::usual())?;
    Ok(read.taken == bytes.len() as u64)
}

// Frees blocks until the message is read; until then each answer is that there is no memory.
fn reads_at_last(alloc: Global, bytes: &[u8], spare: &mut Vec<Vec<u8>>) -> bool {
    for _ in 0..13u8 {
        match is_read(alloc, bytes) {
            Ok(whole) => return whole,
            Err(ReadError::NoMemory) => {
                let _ = spare.pop();
            }
            Err(_) => return false,
        }
    }
    false
}

fn is_copied(alloc: Global, view: &View<'_>) -> Result<bool, NoMemory> {
    let message = view.to_message(alloc)?;
    Ok(message.len() == 1)
}

// Frees blocks until the message is copied; until then each answer is that there is no memory.
fn copies_at_last(alloc: Global, view: &View<'_>, spare: &mut Vec<Vec<u8>>) -> bool {
    for _ in 0..13u8 {
        match is_copied(alloc, view) {
            Ok(whole) => return whole,
            Err(NoMemory) => {
                let _ = spare.pop();
            }
        }
    }
    false
}

// .. until the payload is copied
fn joins_at_last(alloc: Global, item: &Item<'_>, spare: &mut Vec<Vec<u8>>) -> bool {
    for _ in 0..13u8 {
        match item.joined(alloc) {
            Ok(payload) => return payload.as_slice() == &LETTERS[..40],
            Err(NoMemory) => {
                let _ = spare.pop();
            }
        }
    }
    false
}

// What needs no memory: checking, viewing, a record without parts, and the head of a record.
fn works_without_memory(alloc: Global) -> bool {
    let mut source = SliceSource::new(&HELLO, &[]);
    let checked = check_message::<Opaque, _>(&mut source, Limits::usual());
    let mut checker = Checker::<Opaque>::new(Limits::usual());
    let done = checker.feed(&HELLO) == Fed::Done { taken: 12 } && checker.end() == Ok(());
    let viewed = view::<Opaque>(&HELLO, Limits::usual()).map(|view| view.taken());
    let mut decoder = Decoder::<Opaque>::new(alloc, Limits::usual());
    let empty = matches!(
        decoder.feed(&[0xD0, 0x00, 0x00]),
        (3, Event::Whole { last: true, .. })
    );
    checked.map(|checked| checked.taken) == Ok(12) && done && viewed == Ok(12) && empty
}

// Nor does writing: whole, and in pieces.
fn writes_without_memory(message: &Message, expected: &[u8]) -> bool {
    let mut room = [0; 256];
    let mut sink = FailingSink::new(&mut room, 7, None);
    let written = write_message(message, Form::Short, None, &mut sink);
    let same = sink.written() == expected;
    let mut room = [0; 256];
    let mut sink = FailingSink::new(&mut room, 256, None);
    let pieces = write_message(message, Form::Long, Some(24), &mut sink);
    written == Ok(expected.len() as u64) && same && pieces == Ok(133)
}

fn reserves_nothing(alloc: Global) -> bool {
    let Ok(limits) = Limits::new(4294967295, 1, 1) else {
        return false;
    };
    let mut decoder = Decoder::<Opaque>::new(alloc, limits);
    let head = decoder.feed(&[0xC5, 0x00, 0xFF, 0xFF, 0xFF, 0xFF]);
    matches!(head, (6, Event::More)) && decoder.place() == 6 && decoder.held() == 0
}

fn fails(decoder: &mut Decoder<Opaque>, part: &[u8]) -> bool {
    matches!(decoder.feed(part), (0, Event::Failed(_)))
}

// The first growth is refused for good, and nothing is taken or held then.
fn fails_for_good(alloc: Global) -> bool {
    let mut decoder = Decoder::<Opaque>::new(alloc, Limits::usual());
    let head = matches!(decoder.feed(&HELLO[..4]), (4, Event::More));
    let failed = fails(&mut decoder, &HELLO[4..]) && fails(&mut decoder, &HELLO[4..]);
    head && failed && decoder.place() == 4 && decoder.held() == 0
}

fn is_refused(alloc: Global, bytes: &[u8], at: u64, reason: Reason) -> bool {
    let mut source = SliceSource::new(bytes, &[]);
    let read = read_message::<Typed, _>(alloc, &mut source, Limits::usual());
    read.err() == Some(ReadError::Refused(Refusal { at, reason }))
}

// A refusal comes before a lack of memory: at the first byte, at a length, and at the last byte of a message.
fn tells_refusals(alloc: Global) -> bool {
    is_refused(alloc, &[0xF5], 0, Reason::ChunkAtEnd)
        && is_refused(alloc, &[0xD1, 0x00], 1, Reason::TypeEmpty)
        && is_refused(alloc, &[0xD1, 0x01, 0x01, 0x54, 0x40], 4, Reason::TextBit)
}

// What is refused while memory is used up, and what isn't.
fn refuses_messages(alloc: Global, wide: &Message, bytes: &[u8]) -> bool {
    works_without_memory(alloc)
        && writes_without_memory(wide, bytes)
        && reserves_nothing(alloc)
        && fails_for_good(alloc)
        && tells_refusals(alloc)
        && is_read(alloc, &[0xD0, 0x00, 0x00]) == Err(ReadError::NoMemory)
        && encode(alloc, wide, Form::Short).is_err()
        && encode_chunked(alloc, wide, Form::Long, 8).is_err()
}

/// Whether memory was used up, whether messages were refused then, and whether one was read at last.
fn refused_messages(alloc: Global) -> Result<[bool; 3], Fail> {
    let wide = wide_message(alloc)?;
    let bytes = encode(alloc, &wide, Form::Short)?;
    let mut spare = spare_blocks(alloc)?;
    let mut held = Vec::with_capacity(alloc, 65536)?;
    let used_up = use_up(alloc, &mut held);
    let refused = refuses_messages(alloc, &wide, bytes.as_slice());
    let read = reads_at_last(alloc, bytes.as_slice(), &mut spare);
    drop(held);
    Ok([used_up, refused, read])
}

#[test]
fn refuses_each_growth_of_a_message(rt: HostRuntime) -> Result<(), Fail> {
    let seen = refused_messages(rt.alloc())?;
    assert!(rt; seen == [true; 3], "{seen:?}");
    Ok(())
}

/// Whether the payloads of one long record can't be copied, and then can.
fn joins(alloc: Global, view: &View<'_>, spare: &mut Vec<Vec<u8>>) -> bool {
    let mut items = view.items();
    match items.next() {
        Some(item) => {
            item.length() == 40
                && item.whole().is_none()
                && item.joined(alloc).is_err()
                && joins_at_last(alloc, &item, spare)
                && items.next().is_none()
        }
        None => false,
    }
}

/// Whether memory was used up, whether a payload was joined at last, and whether the message was copied
/// at last.
fn refused_copies(alloc: Global) -> Result<[bool; 3], Fail> {
    let wide = wide_message(alloc)?;
    let bytes = encode_chunked(alloc, &wide, Form::Short, 24)?;
    let mut spare = spare_blocks(alloc)?;
    let mut more = spare_blocks(alloc)?;
    let mut held = Vec::with_capacity(alloc, 65536)?;
    let used_up = use_up(alloc, &mut held);
    let Ok(view) = view::<Opaque>(bytes.as_slice(), Limits::usual()) else {
        return Err("refused".into());
    };
    let uncopied = view.records() == 1 && view.to_message(alloc).is_err();
    let joined = joins(alloc, &view, &mut spare);
    let copied = copies_at_last(alloc, &view, &mut more);
    drop(held);
    Ok([used_up, joined, uncopied && copied])
}

// A view takes no memory, nor do its items; copies of a message and of a payload do.
#[test]
fn refuses_each_growth_of_a_copy(rt: HostRuntime) -> Result<(), Fail> {
    let seen = refused_copies(rt.alloc())?;
    assert!(rt; seen == [true; 3], "{seen:?}");
    Ok(())
}

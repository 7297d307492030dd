//! Sources and sinks that fail at every place, and inputs without an end.
use crate::samples::{HELLO, SELECT, at, read, usual};
use crate::streams::OnceReader;
use ndef_message::{
    CheckError, EndlessSource, FailingSink, FailingSource, Form, ReadError, Source, StdSource,
    WriteFault, check_message, encode, read_message, write_message,
};
use ndef_nest::Typed;
use ndef_value::{Reason, Refusal};
use std::alloc::Global;
use std::test::Fail;

/// Returns the number of bytes of the message, or the reason why there is none.
fn read_from<S: Source>(alloc: Global, source: &mut S) -> Result<u64, ReadError> {
    let read = read_message::<Typed, S>(alloc, source, usual())?;
    Ok(read.taken)
}

/// Returns the result of reading a handover from a source that fails at this place.
fn read_up_to(alloc: Global, place: usize) -> Result<u64, ReadError> {
    let mut source = FailingSource::new(&SELECT, &[5, 11], place.min(24));
    read_from(alloc, &mut source)
}

#[test]
fn reading_fails_at_each_place(rt: HostRuntime) {
    let alloc = rt.alloc();
    let mut are_faults = true;
    for place in 0..24usize {
        are_faults = are_faults && read_up_to(alloc, place) == Err(ReadError::ReadFault);
    }
    assert!(rt; are_faults);
    assert!(rt; read_up_to(alloc, 24) == Ok(24));
}

/// Returns a source of these bytes that fails if it is read again after the first `take`.
fn asked_once(bytes: &[u8]) -> StdSource<OnceReader<'_>> {
    StdSource::new(OnceReader {
        bytes,
        consumed: false,
    })
}

// No clause forbids that a source is read again after a refused byte.
#[test]
fn asks_nothing_after_a_refused_byte(rt: HostRuntime) {
    let alloc = rt.alloc();
    let refused: [(&[u8], u64, Reason); 4] = [
        (&[0x51, 0x01, 0x00, 0x41], 0, Reason::BeginMissing),
        (&[0xF5, 0x00, 0x00], 0, Reason::ChunkAtEnd),
        (
            &[0xD1, 0x01, 0x03, 0x54, 0x42, 0x65, 0x6E],
            4,
            Reason::TextBit,
        ),
        (&[0xD1, 0x01, 0x01, 0x55, 0x68], 4, Reason::UriCode),
    ];
    for (bytes, place, reason) in refused {
        let refusal = at::<u64>(place, reason);
        let read = read_from(alloc, &mut asked_once(bytes));
        assert!(rt; read == refusal.map_err(ReadError::Refused), "{read:?}");
        let checked = check_message::<Typed, _>(&mut asked_once(bytes), usual());
        assert!(rt; checked.map(|checked| checked.taken) == refusal.map_err(CheckError::Refused));
    }
}

/// Whether reading and checking a front, and after it a pattern that repeats for ever, both give this answer.
fn is_refused(
    alloc: Global,
    front: &[u8],
    pattern: &[u8; 4],
    size: usize,
    refusal: Result<u64, Refusal>,
) -> bool {
    let pattern = &pattern[..size.clamp(1, 4)];
    let read = read_from(alloc, &mut EndlessSource::new(front, pattern));
    let checked = check_message::<Typed, _>(&mut EndlessSource::new(front, pattern), usual());
    read == refusal.map_err(ReadError::Refused)
        && checked.map(|checked| checked.taken) == refusal.map_err(CheckError::Refused)
}

#[test]
fn readers_end_where_the_input_does_not(rt: HostRuntime) {
    let alloc = rt.alloc();
    let first = [0x91, 0x01, 0x00, 0x41];
    let next = [0x11, 0x01, 0x00, 0x41];
    assert!(rt; is_refused(alloc, &first, &next, 4, at(4092, Reason::TooManyRecords)));
    let initial = [0xB5, 0x00, 0x00];
    let middle = [0x36, 0x00, 0x00, 0x00];
    assert!(rt;
        is_refused(
            alloc,
            &initial,
            &middle,
            3,
            at(12285, Reason::TooManyPieces)
        )
    );
    let head = [0xC5, 0x00, 0x00, 0x10, 0x00, 0x00];
    assert!(rt; is_refused(alloc, &head, &[0; 4], 1, Ok(1048582)));
}

/// A message of 1024 records.
fn many_records(alloc: Global) -> Result<Vec<u8>, Fail> {
    let mut bytes = Vec::new(alloc);
    bytes.extend_from_slice(&[0x91, 0x01, 0x00, 0x41])?;
    for _ in 0..1022u16 {
        bytes.extend_from_slice(&[0x11, 0x01, 0x00, 0x41])?;
    }
    bytes.extend_from_slice(&[0x51, 0x01, 0x00, 0x41])?;
    Ok(bytes)
}

#[test]
fn reads_1024_records(rt: HostRuntime) -> Result<(), Fail> {
    let alloc = rt.alloc();
    let bytes = many_records(alloc)?;
    let message = read(alloc, bytes.as_slice())?;
    assert!(rt; message.len() == 1024 && bytes.len() == 4096);
    let again = encode(alloc, &message, Form::Short)?;
    assert!(rt; again.as_slice() == bytes.as_slice());
    Ok(())
}

/// A record of 4096 pieces, all empty.
fn many_pieces(alloc: Global) -> Result<Vec<u8>, Fail> {
    let mut bytes = Vec::new(alloc);
    bytes.extend_from_slice(&[0xB5, 0x00, 0x00])?;
    for _ in 0..4094u16 {
        bytes.extend_from_slice(&[0x36, 0x00, 0x00])?;
    }
    bytes.extend_from_slice(&[0x56, 0x00, 0x00])?;
    Ok(bytes)
}

#[test]
fn reads_4096_pieces(rt: HostRuntime) -> Result<(), Fail> {
    let alloc = rt.alloc();
    let bytes = many_pieces(alloc)?;
    let taken = read_from(
        alloc,
        &mut FailingSource::new(bytes.as_slice(), &[], bytes.len()),
    );
    assert!(rt; taken == Ok(12288), "{taken:?}");
    Ok(())
}

/// Returns the result of writing the text record into this buffer, three bytes at a time.
fn written_into(
    alloc: Global,
    room: &mut [u8],
    stop: Option<u64>,
) -> Result<Result<u64, WriteFault>, Fail> {
    let hello = read(alloc, &HELLO)?;
    let mut sink = FailingSink::new(room, 3, stop);
    Ok(write_message(&hello, Form::Short, None, &mut sink))
}

#[test]
fn tells_how_much_went_out(rt: HostRuntime) -> Result<(), Fail> {
    let alloc = rt.alloc();
    let mut room = [0; 12];
    let stopped = written_into(alloc, &mut room, Some(4))?;
    assert!(rt; stopped == Err(WriteFault { written: 4 }));
    assert!(rt; room[..4] == HELLO[..4] && room[4..] == [0; 8]);
    let full = written_into(alloc, &mut room[..5], None)?;
    assert!(rt; full == Err(WriteFault { written: 5 }));
    let whole = written_into(alloc, &mut room, None)?;
    assert!(rt; whole == Ok(12) && room == HELLO);
    Ok(())
}

//! Sources, over cuts and over readers.
use crate::streams::{OnceReader, SlowReader};
use ndef_message::{SliceSource, Source, StdSource};
use std::alloc::Global;
use std::io::BufRead;
use std::test::Fail;

const BYTES: [u8; 12] = *b"twelve bytes";

// The lengths of the parts that a source gives up to its end, where at most `most` bytes are taken of each it shows.
fn parts<S: Source>(alloc: Global, source: &mut S, most: usize) -> Result<Vec<usize>, Fail> {
    let mut parts = Vec::new(alloc);
    for _ in 0..100u8 {
        let count = source.fill()?.len().min(most);
        source.take(count);
        if count == 0 {
            return Ok(parts);
        }
        parts.push(count)?;
    }
    Err("a source without an end".into())
}

/// Whether a source comes in these parts.
fn comes_in(
    alloc: Global,
    source: &mut SliceSource<'_>,
    most: usize,
    expected: &[usize],
) -> Result<bool, Fail> {
    Ok(parts(alloc, source, most)?.as_slice() == expected)
}

#[test]
fn shows_up_to_the_cuts(rt: HostRuntime) -> Result<(), Fail> {
    let alloc = rt.alloc();
    let mut whole = SliceSource::new(&BYTES, &[]);
    assert!(rt; comes_in(alloc, &mut whole, 12, &[12])?);
    let mut cut = SliceSource::new(&BYTES, &[0, 3, 3, 8, 12]);
    assert!(rt; comes_in(alloc, &mut cut, 12, &[3, 5, 4])?);
    let mut slow = SliceSource::new(&BYTES, &[0, 3, 3, 8, 12]);
    assert!(rt; comes_in(alloc, &mut slow, 2, &[2, 1, 2, 2, 1, 2, 2])?);
    Ok(())
}

#[test]
fn shows_each_two_parts(rt: HostRuntime) -> Result<(), Fail> {
    for cut in 1..BYTES.len() {
        let cuts = [cut];
        let mut source = SliceSource::new(&BYTES, &cuts);
        assert!(rt;
            comes_in(rt.alloc(), &mut source, 12, &[cut, 12 - cut])?,
            "{cut}"
        );
    }
    Ok(())
}

#[test]
fn fails_for_good(rt: HostRuntime) -> Result<(), Fail> {
    let mut source = StdSource::new(SlowReader {
        bytes: &BYTES[..5],
        most: 5,
        fails: true,
    });
    let count = source.fill()?.len();
    assert!(rt; count == 5);
    source.take(count);
    for _ in 0..3u8 {
        assert!(rt; source.fill().is_err());
    }
    Ok(())
}

#[test]
fn leaves_the_reader_after_what_was_taken(rt: HostRuntime) -> Result<(), Fail> {
    let mut reader: &[u8] = &BYTES;
    let mut source = StdSource::new(&mut reader);
    let shown = source.fill()?.len();
    assert!(rt; shown == 12);
    source.take(2);
    source.take(3);
    drop(source);
    assert!(rt; reader == &BYTES[5..]);
    Ok(())
}

#[test]
fn gives_the_reader_back_after_what_was_taken(rt: HostRuntime) -> Result<(), Fail> {
    let reader: &[u8] = &BYTES[5..];
    let mut source = StdSource::new(reader);
    let shown = source.fill()?.len();
    assert!(rt; shown == 7);
    source.take(1);
    source.take(1);
    let (mut following, settled) = source.into_inner();
    assert!(rt; settled.is_ok() && following.fill_buf()? == &BYTES[7..]);
    Ok(())
}

// The first take after a fill consumes at once, so that the reader isn't called again.
#[test]
fn consumes_at_once_what_is_taken(rt: HostRuntime) -> Result<(), Fail> {
    let mut source = StdSource::new(OnceReader {
        bytes: &BYTES,
        consumed: false,
    });
    let shown = source.fill()?.len();
    assert!(rt; shown == 12);
    source.take(5);
    let (reader, settled) = source.into_inner();
    assert!(rt; settled.is_ok() && reader.bytes == &BYTES[5..]);
    Ok(())
}

/// Takes all bytes of a source, four at a time: the first take of a `StdSource` consumes at once, and what the others
/// take is consumed later.
fn take_in_three<S: Source>(source: &mut S) -> Result<(), Fail> {
    if source.fill()?.len() != 12 {
        return Err("another number is shown".into());
    }
    source.take(4);
    source.take(4);
    source.take(4);
    Ok(())
}

#[test]
fn consumes_what_waits(rt: HostRuntime) -> Result<(), Fail> {
    let bytes: &[u8] = &BYTES;
    let mut source = StdSource::new(bytes);
    take_in_three(&mut source)?;
    let left = source.fill()?.len();
    assert!(rt; left == 0);
    Ok(())
}

#[test]
fn gives_the_reader_back_after_what_waits(rt: HostRuntime) -> Result<(), Fail> {
    let bytes: &[u8] = &BYTES;
    let mut source = StdSource::new(bytes);
    take_in_three(&mut source)?;
    let (reader, settled) = source.into_inner();
    assert!(rt; settled.is_ok() && reader.is_empty());
    Ok(())
}

#[test]
fn leaves_the_reader_after_what_waits(rt: HostRuntime) -> Result<(), Fail> {
    let mut reader: &[u8] = &BYTES;
    let mut source = StdSource::new(&mut reader);
    let shown = source.fill()?.len();
    assert!(rt; shown == 12);
    source.take(4);
    source.take(4);
    source.take(4);
    drop(source);
    assert!(rt; reader.is_empty());
    Ok(())
}

//! Runs whose source or sink fails at every place, and inputs without an end.
use super::command::words;
use crate::samples::SELECT;
use crate::streams::OnceReader;
use ndef_message::{
    EndlessSource, FailingSink, FailingSource, SliceSource, Source, StdSink, StdSource,
};
use ndef_tool::run;
use std::alloc::Global;
use std::test::Fail;

/// The status, and the output, of a run whose input comes from this source.
pub(super) fn run_from<S: Source>(
    alloc: Global,
    texts: &[&str],
    source: &mut S,
) -> Result<(u8, Vec<u8>), Fail> {
    let words = words(alloc, texts)?;
    let mut out = Vec::new(alloc);
    let mut sink = StdSink::new(&mut out);
    let status = run(alloc, words.as_slice(), source, &mut sink);
    drop(sink);
    Ok((status as u8, out))
}

#[test]
fn tells_faults_after_a_message(rt: HostRuntime) -> Result<(), Fail> {
    let alloc = rt.alloc();
    let mut source = FailingSource::new(&SELECT, &[], 24);
    let (status, out) = run_from(alloc, &["ndef", "check"], &mut source)?;
    assert!(rt; status == 3);
    let lines = b"message 1 at 0: records 2, bytes 24\nfault: reading\n".as_slice();
    assert!(rt; out.as_slice() == lines);
    let mut digits = EndlessSource::new(&[], b"0");
    let (status, out) = run_from(alloc, &["ndef", "check", "--hex"], &mut digits)?;
    assert!(rt; status == 3);
    assert!(rt; out.as_slice() == b"fault: hexadecimal input too long\n".as_slice());
    Ok(())
}

// No clause forbids that the input is read after a refused byte.
#[test]
fn asks_nothing_after_a_refused_byte(rt: HostRuntime) -> Result<(), Fail> {
    let alloc = rt.alloc();
    let line = b"refused at 4: 15 TextBit\n".as_slice();
    let runs = [("show", line), ("check", line), ("encode", b"")];
    for (action, expected) in runs {
        let bytes = &[0xD1, 0x01, 0x03, 0x54, 0x42, 0x65, 0x6E];
        let mut source = StdSource::new(OnceReader {
            bytes,
            consumed: false,
        });
        let (status, out) = run_from(alloc, &["ndef", action], &mut source)?;
        assert!(rt; status == 1 && out.as_slice() == expected, "{action}");
    }
    Ok(())
}

/// A message of one text record, and after it a message of two records.
const BOTH: [u8; 20] = [
    0xD1, 0x01, 0x08, 0x54, 0x02, 0x65, 0x6E, 0x48, 0x65, 0x6C, 0x6C, 0x6F, 0x91, 0x01, 0x00, 0x41,
    0x51, 0x01, 0x00, 0x42,
];

/// The offsets at which its messages end.
const ENDS: [usize; 2] = [12, 20];

/// The blocks of the messages that come before a fault at this place, and the line of the fault.
fn written_before(
    alloc: Global,
    place: usize,
    blocks: [&[u8]; 2],
    fault: &[u8],
) -> Result<Vec<u8>, Fail> {
    let mut expected = Vec::new(alloc);
    for (block, end) in blocks.iter().zip(&ENDS) {
        if *end <= place {
            expected.extend_from_slice(block)?;
        }
    }
    expected.extend_from_slice(fault)?;
    Ok(expected)
}

/// Whether an input that fails at each place in turn, and at its end, leaves the blocks of the messages before that
/// place, and no less.
fn keeps_messages(
    alloc: Global,
    action: &str,
    blocks: [&[u8]; 2],
    fault: &[u8],
) -> Result<bool, Fail> {
    for place in 0..=20usize {
        let expected = written_before(alloc, place, blocks, fault)?;
        let mut whole = FailingSource::new(&BOTH, &[], place.min(20));
        let mut cut = FailingSource::new(&BOTH, &[5, 12, 15], place.min(20));
        let (status, out) = run_from(alloc, &["ndef", action], &mut whole)?;
        let (status_cut, out_cut) = run_from(alloc, &["ndef", action], &mut cut)?;
        if (status, status_cut) != (3, 3) || out != expected || out_cut != expected {
            return Ok(false);
        }
    }
    Ok(true)
}

#[test]
fn keeps_each_message_before_a_fault(rt: HostRuntime) -> Result<(), Fail> {
    let alloc = rt.alloc();
    let fault = b"fault: reading\n".as_slice();
    let shown = [
        b"message 1 at 0: records 1, bytes 12\n 1 tnf 1 type \"T\" id \"\" payload 8 text utf-8 \"en\" \"Hello\"\n".as_slice(),
        b"message 2 at 12: records 2, bytes 8\n 1 tnf 1 type \"A\" id \"\" payload 0 other\n 2 tnf 1 type \"B\" id \"\" payload 0 other\n",
    ];
    assert!(rt; keeps_messages(alloc, "show", shown, fault)?);
    let checked = [
        b"message 1 at 0: records 1, bytes 12\n".as_slice(),
        b"message 2 at 12: records 2, bytes 8\n",
    ];
    assert!(rt; keeps_messages(alloc, "check", checked, fault)?);
    let encoded = [&BOTH[..12], &BOTH[12..]];
    assert!(rt; keeps_messages(alloc, "encode", encoded, b"")?);
    Ok(())
}

// Hexadecimal text is read whole first.
#[test]
fn reads_text_whole_before_a_message(rt: HostRuntime) -> Result<(), Fail> {
    let alloc = rt.alloc();
    let digits = hex::encode(alloc, BOTH)?;
    let text = digits.as_bytes();
    for place in 0..=40usize {
        let mut source = FailingSource::new(text, &[], place.min(text.len()));
        let (status, out) = run_from(alloc, &["ndef", "show", "--hex"], &mut source)?;
        assert!(rt; status == 3 && out.as_slice() == b"fault: reading\n".as_slice());
    }
    Ok(())
}

/// Whether a run whose input fails at this place ends as the whole run does, or ends with status 3 and has written a
/// front of what the whole run writes, with or without the line of the fault after it.
fn reads_in_part(
    alloc: Global,
    texts: &[&str],
    bytes: &[u8],
    place: usize,
    whole: (u8, &[u8]),
) -> Result<bool, Fail> {
    let mut source = FailingSource::new(bytes, &[], place.min(bytes.len()));
    let (status, out) = run_from(alloc, texts, &mut source)?;
    let front = out
        .strip_suffix(b"fault: reading\n".as_slice())
        .unwrap_or(out.as_slice());
    Ok((status, out.as_slice()) == whole || status == 3 && whole.1.starts_with(front))
}

/// Whether a run whose sink stops at this place ends with status 3 and has written exactly the output up to this
/// place.
fn writes_in_part(
    alloc: Global,
    texts: &[&str],
    bytes: &[u8],
    place: usize,
    whole: (u8, &[u8]),
) -> Result<bool, Fail> {
    let words = words(alloc, texts)?;
    let mut room = [0; 512];
    let mut source = SliceSource::new(bytes, &[]);
    let mut sink = FailingSink::new(&mut room, 7, Some(place as u64));
    let status = run(alloc, words.as_slice(), &mut source, &mut sink);
    Ok(status as u8 == 3 && whole.1.get(..place) == Some(sink.written()))
}

/// Whether each read and each write of a run, failing in turn, leaves a front of the output.
pub(super) fn fails_in_turn(
    alloc: Global,
    texts: &[&str],
    bytes: &[u8],
    status: u8,
    out: &[u8],
) -> Result<bool, Fail> {
    for place in 0..bytes.len() {
        if !reads_in_part(alloc, texts, bytes, place, (status, out))? {
            return Ok(false);
        }
    }
    for place in 0..out.len() {
        if !writes_in_part(alloc, texts, bytes, place, (status, out))? {
            return Ok(false);
        }
    }
    Ok(true)
}

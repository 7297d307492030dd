//! Runs of the command where memory is used up.
use super::command::words;
use crate::memory::use_up;
use crate::samples::HELLO;
use ndef_cli::Status;
use ndef_message::{FailingSink, SliceSource};
use ndef_tool::run;
use std::alloc::Global;
use std::test::Fail;

/// The bytes of a payload that is larger than the limit of the words.
const LARGE: usize = 100000;

/// The outcome of the runs that lacked memory, and of the last one, which had enough.
#[derive(Clone, Copy, Debug, Drop, PartialEq, Eq)]
struct Seen {
    /// Some runs wrote nothing.
    nothing: bool,
    /// Some runs wrote whole blocks and the line of the fault.
    fault: bool,
    /// The last run wrote everything.
    whole: bool,
}

/// The expected output: all of it, how much of it is whole blocks, and the line of the fault.
#[derive(Clone, Copy)]
struct Expected<'a> {
    all: &'a [u8],
    blocks: [usize; 3],
    fault: &'a [u8],
}

/// Whether whole blocks and the line of the fault were written.
fn is_cut(written: &[u8], expected: &Expected<'_>) -> bool {
    let Some(blocks) = written.strip_suffix(expected.fault) else {
        return false;
    };
    expected.all.starts_with(blocks) && expected.blocks.iter().any(|count| *count == blocks.len())
}

/// Whether all is written.
fn is_all(written: &[u8], expected: &Expected<'_>) -> bool {
    written == expected.all
}

/// The ways in which one run ends when memory may run out.
enum Ended {
    /// With status 0, all written or not.
    Clean(bool),
    /// With a lack of memory, and nothing written.
    Nothing,
    /// With a lack of memory, and whole blocks and the line of the fault written.
    Fault,
    /// Otherwise.
    Otherwise,
}

/// Runs the command once.
fn run_once(
    alloc: Global,
    words: &[String],
    bytes: &[u8],
    expected: &Expected<'_>,
    room: &mut [u8],
) -> Ended {
    let mut source = SliceSource::whole(bytes);
    let mut sink = FailingSink::new(room, 4096, None);
    let status = run(alloc, words, &mut source, &mut sink);
    let written = sink.written();
    match status {
        Status::Clean => Ended::Clean(is_all(written, expected)),
        Status::Fault if written.is_empty() => Ended::Nothing,
        Status::Fault if is_cut(written, expected) => Ended::Fault,
        _ => Ended::Otherwise,
    }
}

/// Runs the command again and again, and frees a block each time, until there is enough memory.
fn runs_at_last(
    alloc: Global,
    words: &[String],
    bytes: &[u8],
    expected: &Expected<'_>,
    room: &mut [u8],
    spare: &mut Vec<Vec<u8>>,
) -> Option<Seen> {
    let mut seen = Seen {
        nothing: false,
        fault: false,
        whole: false,
    };
    for _ in 0..=spare.len() {
        match run_once(alloc, words, bytes, expected, room) {
            Ended::Clean(whole) => {
                seen.whole = whole;
                return Some(seen);
            }
            Ended::Nothing => seen.nothing = true,
            Ended::Fault => seen.fault = true,
            Ended::Otherwise => return None,
        }
        let _ = spare.pop();
    }
    None
}

/// Blocks that are freed one by one, the small ones first.
pub(super) fn spare_blocks(alloc: Global) -> Result<Vec<Vec<u8>>, Fail> {
    let mut spare: Vec<Vec<u8>> = Vec::with_capacity(alloc, 2048)?;
    for _ in 0..16u8 {
        spare.push(Vec::with_capacity(alloc, 65536)?)?;
    }
    for _ in 0..1024u16 {
        spare.push(Vec::with_capacity(alloc, 128)?)?;
    }
    Ok(spare)
}

/// Returns the observations of runs with these words, once memory is used up.
fn seen_of(
    alloc: Global,
    texts: &[&str],
    bytes: &[u8],
    expected: &Expected<'_>,
) -> Result<Option<Seen>, Fail> {
    let words = words(alloc, texts)?;
    let mut room = vec![in alloc; 0u8; 2 * LARGE + 4096]?;
    let mut spare = spare_blocks(alloc)?;
    let mut held = Vec::with_capacity(alloc, 65536)?;
    let used_up = use_up(alloc, &mut held);
    let seen = runs_at_last(
        alloc,
        words.as_slice(),
        bytes,
        expected,
        room.as_mut_slice(),
        &mut spare,
    );
    drop(held);
    if used_up {
        Ok(seen)
    } else {
        Err("memory has no end here".into())
    }
}

/// A message of one text record, and after it a message with a large payload.
fn two_messages(alloc: Global) -> Result<Vec<u8>, Fail> {
    let payload = vec![in alloc; 0x5Au8; LARGE]?;
    let mut bytes = Vec::new(alloc);
    bytes.extend_from_slice(&HELLO)?;
    bytes.extend_from_slice(&[0xC5, 0x00, 0x00, 0x01, 0x86, 0xA0])?;
    bytes.extend_from_slice(payload.as_slice())?;
    Ok(bytes)
}

const ALL: Option<Seen> = Some(Seen {
    nothing: true,
    fault: true,
    whole: true,
});

#[test]
fn shows_whole_blocks(rt: HostRuntime) -> Result<(), Fail> {
    let alloc = rt.alloc();
    let bytes = two_messages(alloc)?;
    let text =
        "message 1 at 0: records 1, bytes 12\n 1 tnf 1 type \"T\" id \"\" payload 8 text utf-8 \"en\" \"Hello\"\nmessage 2 at 12: records 1, bytes 100006\n 1 tnf 5 type \"\" id \"\" payload 100000 other\n";
    let expected = Expected {
        all: text.as_bytes(),
        blocks: [0, 94, text.len()],
        fault: b"fault: memory\n",
    };
    let seen = seen_of(alloc, &["ndef", "show"], bytes.as_slice(), &expected)?;
    assert!(rt; seen == ALL, "{seen:?}");
    Ok(())
}

#[test]
fn encodes_whole_blocks(rt: HostRuntime) -> Result<(), Fail> {
    let alloc = rt.alloc();
    let bytes = two_messages(alloc)?;
    let expected = Expected {
        all: bytes.as_slice(),
        blocks: [0, 12, bytes.len()],
        fault: b"",
    };
    let seen = seen_of(alloc, &["ndef", "encode"], bytes.as_slice(), &expected)?;
    assert!(rt; seen == ALL, "{seen:?}");
    Ok(())
}

/// Whether an input is refused as soon as there is memory for the words: no run that has read them lacks memory.
fn refuses_at_last(
    alloc: Global,
    words: &[String],
    bytes: &[u8],
    line: &[u8],
    spare: &mut Vec<Vec<u8>>,
) -> bool {
    let mut room = [0; 512];
    for _ in 0..=spare.len() {
        let mut source = SliceSource::whole(bytes);
        let mut sink = FailingSink::new(&mut room, 512, None);
        let status = run(alloc, words, &mut source, &mut sink);
        match status {
            Status::Refused => return sink.written() == line,
            Status::Fault if sink.written().is_empty() => {}
            _ => return false,
        }
        let _ = spare.pop();
    }
    false
}

/// Whether `show` refuses an input with this line, once memory is used up.
fn refuses_without_memory(alloc: Global, bytes: &[u8], line: &[u8]) -> Result<bool, Fail> {
    let words = words(alloc, &["ndef", "show"])?;
    let mut spare = spare_blocks(alloc)?;
    let mut held = Vec::with_capacity(alloc, 65536)?;
    let used_up = use_up(alloc, &mut held);
    let refused = refuses_at_last(alloc, words.as_slice(), bytes, line, &mut spare);
    drop(held);
    if used_up {
        Ok(refused)
    } else {
        Err("memory has no end here".into())
    }
}

// At the first byte, at a length, and at the last byte of a message.
#[test]
fn tells_refusals_before_want_of_memory(rt: HostRuntime) -> Result<(), Fail> {
    let alloc = rt.alloc();
    assert!(rt; refuses_without_memory(alloc, &[0xF5], b"refused at 0: 7 ChunkAtEnd\n")?);
    assert!(rt; refuses_without_memory(alloc, &[0xD1, 0x00], b"refused at 1: 12 TypeEmpty\n")?);
    let text = [0xD1, 0x01, 0x01, 0x54, 0x40];
    assert!(rt; refuses_without_memory(alloc, &text, b"refused at 4: 15 TextBit\n")?);
    Ok(())
}

// Once the words are read, nothing else takes memory but hexadecimal text.
#[test]
fn checks_without_memory(rt: HostRuntime) -> Result<(), Fail> {
    let alloc = rt.alloc();
    let bytes = two_messages(alloc)?;
    let text = "message 1 at 0: records 1, bytes 12\nmessage 2 at 12: records 1, bytes 100006\n";
    let expected = Expected {
        all: text.as_bytes(),
        blocks: [0, 0, 0],
        fault: b"fault: memory\n",
    };
    let seen = seen_of(alloc, &["ndef", "check"], bytes.as_slice(), &expected)?;
    let without = Seen {
        nothing: true,
        fault: false,
        whole: true,
    };
    assert!(rt; seen == Some(without), "{seen:?}");
    let digits = hex::encode(alloc, bytes.as_slice())?;
    let seen = seen_of(
        alloc,
        &["ndef", "check", "--hex"],
        digits.as_bytes(),
        &expected,
    )?;
    assert!(rt; seen == ALL, "{seen:?}");
    Ok(())
}

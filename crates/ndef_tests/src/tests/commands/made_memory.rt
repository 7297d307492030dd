//! Runs of `ndef-make` where memory is used up.
use super::command::words;
use super::making::StandardInput;
use super::run_memory::spare_blocks;
use crate::memory::use_up;
use ndef_cli::Status;
use ndef_cli_make::run;
use ndef_message::FailingSink;
use std::alloc::Global;
use std::test::Fail;

/// The number of records that are requested.
const RECORDS: u8 = 20;

/// The octets after the first one of a URI record `tel:1`.
const URI: [u8; 5] = [0x01, 0x02, 0x55, 0x05, 0x31];

/// The words that ask for `RECORDS` URI records.
fn texts(alloc: Global) -> Result<Vec<&'static str>, Fail> {
    let mut texts = Vec::new(alloc);
    texts.push("ndef-make")?;
    for number in 0..RECORDS {
        if number > 0 {
            texts.push("--and")?;
        }
        texts.push("uri")?;
        texts.push("tel:1")?;
    }
    Ok(texts)
}

/// The message of these records (NDEF 1.0, MB and ME).
fn message(alloc: Global) -> Result<Vec<u8>, Fail> {
    let mut bytes = Vec::new(alloc);
    for number in 0..RECORDS {
        bytes.push(match number {
            0 => 0x91,
            19 => 0x51,
            _ => 0x11,
        })?;
        bytes.extend_from_slice(&URI)?;
    }
    Ok(bytes)
}

/// Whether the message is written, and nothing reported; `None` where memory ran out, which is reported, and nothing
/// is written.
fn is_made(alloc: Global, words: &[String], expected: &[u8]) -> Option<bool> {
    let mut inputs = StandardInput { bytes: b"" };
    let mut room = [0; 256];
    let mut reported = [0; 256];
    let mut sink = FailingSink::new(&mut room, 256, None);
    let mut lines = FailingSink::new(&mut reported, 256, None);
    let status = run(alloc, words, false, &mut inputs, &mut sink, &mut lines);
    let written = sink.written();
    let lines = lines.written();
    match status {
        Status::Clean => Some(written == expected && lines.is_empty()),
        Status::Fault if written.is_empty() && lines == b"fault: memory\n".as_slice() => None,
        _ => Some(false),
    }
}

/// Returns the number of blocks that were freed until the message was written; `None` if a run ended otherwise.
fn refusals(
    alloc: Global,
    words: &[String],
    expected: &[u8],
    spare: &mut Vec<Vec<u8>>,
) -> Option<usize> {
    for refused in 0..=spare.len() {
        match is_made(alloc, words, expected) {
            Some(true) => return Some(refused),
            Some(false) => return None,
            None => {
                let _ = spare.pop();
            }
        }
    }
    None
}

#[test]
fn makes_all_or_nothing(rt: HostRuntime) -> Result<(), Fail> {
    let alloc = rt.alloc();
    let words = words(alloc, texts(alloc)?.as_slice())?;
    let expected = message(alloc)?;
    let mut spare = spare_blocks(alloc)?;
    let mut held = Vec::with_capacity(alloc, 65536)?;
    let used_up = use_up(alloc, &mut held);
    let refused = refusals(alloc, words.as_slice(), expected.as_slice(), &mut spare);
    drop(held);
    assert!(rt; used_up && matches!(refused, Some(1..)), "{refused:?}");
    Ok(())
}

//! Runs of the command as blocks of lines: `WORDS | STATUS | BYTES`, and below it what is written, which
//! is lines, or for `encode` bytes. Bytes are hexadecimal, and an empty line ends a block.
use super::command::{ran_alike, texts_of};
use crate::lines::{fields, octets_of};
use std::alloc::Global;
use std::process::Abort;
use std::test::Fail;

/// Whether these are the lines, each with its end.
fn are_lines(out: &[u8], lines: &str) -> bool {
    let ended = out.strip_suffix(b"\n".as_slice());
    ended.unwrap_or(out) == lines.as_bytes() && ended.is_some() != lines.is_empty()
}

/// Whether this is written: for `encode` the bytes of the lines, else the lines.
fn is_written(alloc: Global, words: &str, out: &[u8], lines: &str) -> Result<bool, Fail> {
    if words.starts_with("encode") {
        Ok(octets_of(alloc, lines)?.as_slice() == out)
    } else {
        Ok(are_lines(out, lines))
    }
}

/// The status, and the output, for the bytes, which must be the same for hexadecimal text.
fn ran(alloc: Global, words: &str, bytes: &str) -> Result<(u8, Vec<u8>), Fail> {
    let bytes = octets_of(alloc, bytes)?;
    let texts = texts_of(alloc, "ndef", words)?;
    ran_alike(alloc, texts.as_slice(), bytes.as_slice(), 5)
}

/// Whether the run that a block describes ends with the status, and has written the lines, that the block gives.
fn is_run(alloc: Global, block: &str) -> Result<bool, Fail> {
    let (head, lines) = block.split_once('\n').unwrap_or((block, ""));
    let [words, status, bytes, ..] = fields(head);
    let (number, out) = ran(alloc, words, bytes)?;
    Ok(
        status.parse::<u8>().ok() == Some(number)
            && is_written(alloc, words, out.as_slice(), lines)?,
    )
}

/// Runs the command for each block of a text.
pub(super) fn run_blocks(rt: &(impl Abort + AllocGlobal), blocks: &str) -> Result<(), Fail> {
    for block in blocks.trim().split("\n\n") {
        assert!(rt; is_run(rt.alloc(), block)?, "{block}");
    }
    Ok(())
}

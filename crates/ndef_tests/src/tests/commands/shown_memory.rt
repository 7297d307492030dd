//! Shown messages where memory is used up.
use crate::memory::{spare_blocks, use_up};
use crate::samples::{POSTER, SELECT};
use ndef_cli::Outcome;
use ndef_message::{SliceSource, StdSink};
use ndef_tool::{Action, Choice, handle};
use ndef_value::Limits;
use std::alloc::Global;
use std::test::Fail;

const SHOWN_SELECT: &[u8] =
    b"message 1 at 0: records 2, bytes 24\n 1 tnf 1 type \"Hs\" id \"\" payload 10 select version 1.2 carriers 1\n 2 tnf 2 type \"a/b\" id \"0\" payload 1 other\n carrier 1 power active reference \"0\" record 2\n";

const SHOWN_POSTER: &[u8] =
    b"message 1 at 0: records 1, bytes 11\n 1 tnf 1 type \"Sp\" id \"\" payload 6 poster records 1 uri \"a\" titles 0 action none size none media none\n";

fn outcome_of(alloc: Global, bytes: &[u8], out: &mut Vec<u8>) -> Outcome {
    let choice = Choice {
        action: Action::Show,
        hex: false,
        limits: Limits::usual(),
    };
    let mut source = SliceSource::new(bytes, &[]);
    let mut sink = StdSink::new(out);
    handle(alloc, &choice, &mut source, &mut sink).outcome
}

// Frees blocks until the message is shown; until then there is not enough memory, and nothing is written.
fn shows_at_last(alloc: Global, bytes: &[u8], out: &mut Vec<u8>, spare: &mut Vec<Vec<u8>>) -> bool {
    for _ in 0..13u8 {
        match outcome_of(alloc, bytes, out) {
            Outcome::Memory if out.is_empty() => {
                let _ = spare.pop();
            }
            outcome => return outcome == Outcome::Clean,
        }
    }
    false
}

// Whether memory was used up, and then the text.
fn shown_at_last(alloc: Global, bytes: &[u8], text: &[u8]) -> Result<(bool, bool), Fail> {
    let mut out = Vec::with_capacity(alloc, 512)?;
    let mut spare = spare_blocks(alloc)?;
    let mut held = Vec::with_capacity(alloc, 65536)?;
    let used_up = use_up(alloc, &mut held);
    let refused = outcome_of(alloc, bytes, &mut out) == Outcome::Memory;
    let shown = shows_at_last(alloc, bytes, &mut out, &mut spare);
    Ok((used_up && refused, shown && out.as_slice() == text))
}

#[test]
fn refuses_each_growth_of_a_block(rt: HostRuntime) -> Result<(), Fail> {
    let alloc = rt.alloc();
    let select = shown_at_last(alloc, &SELECT, SHOWN_SELECT)?;
    let poster = shown_at_last(alloc, &POSTER, SHOWN_POSTER)?;
    assert!(rt; select.0 && poster.0, "memory has no end here");
    assert!(rt; select.1 && poster.1);
    Ok(())
}

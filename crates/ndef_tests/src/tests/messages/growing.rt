//! Memory is allocated only for bytes that have come.
use crate::memory::use_up;
use ndef_lang::Opaque;
use ndef_message::{Decoder, Event};
use ndef_value::Limits;
use std::alloc::Global;
use std::test::Fail;

/// Whether a decoder takes 16 bytes of a payload of 4294967295, one by one, and holds them; `None` where it finds
/// no memory for them.
fn takes_each(alloc: Global) -> Option<bool> {
    let limits = Limits::new(4294967295, 1, 1).ok()?;
    let mut decoder = Decoder::<Opaque>::new(alloc, limits);
    if !matches!(
        decoder.feed(&[0xC5, 0x00, 0xFF, 0xFF, 0xFF, 0xFF]),
        (6, Event::More)
    ) {
        return Some(false);
    }
    for _ in 0..16u8 {
        match decoder.feed(b"x") {
            (1, Event::More) => {}
            (0, Event::Failed(_)) => return None,
            _ => return Some(false),
        }
    }
    Some(decoder.held() == 16)
}

/// Blocks of at most 64 bytes that are freed one by one.
fn small_blocks(alloc: Global) -> Result<Vec<Vec<u8>>, Fail> {
    let mut spare: Vec<Vec<u8>> = Vec::with_capacity(alloc, 12)?;
    for size in [64, 64, 64, 64, 32, 32, 32, 32, 24, 24, 24, 24] {
        spare.push(Vec::with_capacity(alloc, size)?)?;
    }
    Ok(spare)
}

/// Frees small blocks until the bytes are taken.
fn takes_at_last(alloc: Global, spare: &mut Vec<Vec<u8>>) -> bool {
    for _ in 0..13u8 {
        if let Some(taken) = takes_each(alloc) {
            return taken;
        }
        let _ = spare.pop();
    }
    false
}

#[test]
fn a_long_payload_takes_memory_as_it_comes(rt: HostRuntime) -> Result<(), Fail> {
    let alloc = rt.alloc();
    let mut spare = small_blocks(alloc)?;
    let mut held = Vec::with_capacity(alloc, 65536)?;
    let used_up = use_up(alloc, &mut held);
    let refused = takes_each(alloc).is_none();
    let taken = takes_at_last(alloc, &mut spare);
    drop(held);
    assert!(rt; used_up && refused && taken, "{used_up} {refused} {taken}");
    Ok(())
}

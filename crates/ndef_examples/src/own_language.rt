//! Reads messages in a payload language of the program's own: texts are checked, and any other payload will do.
//!
//! `read_message` has its contract for each language that meets the contract of `RecordLanguage`, so for this one too.

use crate::texts_alone::TextsAlone;
use simbegyor::{Limits, ReadError, SliceSource, read_message};
use std::alloc::Global;

/// A text, "Hello", and a smart poster whose payload is no message.
const GOOD: [u8; 18] = *b"\x91\x01\x08T\x02enHello\x51\x02\x01Sp\x00";

/// A text whose status octet has the reserved bit 6.
const BAD: [u8; 7] = *b"\xD1\x01\x03T\x42en";

/// Prints the number of records, or where the bytes are refused and why.
fn print_read(rt: &impl Print, alloc: Global, bytes: &[u8]) -> anyhow::Result<()> {
    let mut source = SliceSource::whole(bytes);
    match read_message::<TextsAlone, SliceSource<'_>>(alloc, &mut source, Limits::usual()) {
        Ok(read) => println!(rt; "{} records, {} bytes", read.message.len(), read.taken)?,
        Err(ReadError::Refused(refusal)) => println!(rt; "{refusal}")?,
        Err(error) => println!(rt; "{error}")?,
    }
    Ok(())
}

/// Prints the answer to each message.
pub fn print_all(rt: &impl Print, alloc: Global) -> anyhow::Result<()> {
    print_read(rt, alloc, &GOOD)?;
    print_read(rt, alloc, &BAD)
}

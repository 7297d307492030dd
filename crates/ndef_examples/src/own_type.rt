//! Reads messages with a record type of the program's own, beside the types that the standards define.
//!
//! `read_message` has its contract for `With<Temperature, Typed>` too: a record of this type is refused at the first
//! octet after which no message can follow.
ghost use Rattle.ndef_examples.specs.Meaning.{TemperaturesAreTwo, OthersAreTyped};

use crate::temperature::Temperature;
use simbegyor::{
    Checker, Fed, Limits, ReadError, RecordLanguage, SliceSource, Typed, With, read_message,
};
use std::alloc::Global;

/// Temperatures, and what the standards define.
type Mine = With<Temperature, Typed>;

/// A temperature has two octets, and a record of any other type the payload that the standards want.
fn meaning()
    ensures own { TemperaturesAreTwo ⟦<With<Temperature, Typed> as RecordLanguage>⟧.payloads }
    ensures others { OthersAreTyped ⟦<With<Temperature, Typed> as RecordLanguage>⟧.payloads }
{}

/// A temperature, 215 tenths, and a text, "Hello".
const GOOD: [u8; 33] = *b"\x94\x10\x02example.com:temp\x00\xD7\x51\x01\x08T\x02enHello";

/// A temperature of three octets.
const LONG: [u8; 22] = *b"\xD4\x10\x03example.com:temp\x00\xD7\x00";

/// A text whose status octet has the reserved bit 6, after a temperature.
const BAD: [u8; 28] = *b"\x94\x10\x02example.com:temp\x00\xD7\x51\x01\x03T\x42en";

/// Prints the number of records, or where the bytes are refused and why.
fn print_read(rt: &impl Print, alloc: Global, bytes: &[u8]) -> anyhow::Result<()> {
    let mut source = SliceSource::whole(bytes);
    match read_message::<Mine, SliceSource<'_>>(alloc, &mut source, Limits::usual()) {
        Ok(read) => println!(rt; "{} records, {} bytes", read.message.len(), read.taken)?,
        Err(ReadError::Refused(refusal)) => println!(rt; "{refusal}")?,
        Err(error) => println!(rt; "{error}")?,
    }
    Ok(())
}

/// Prints where a checker that is fed the bytes one by one refuses one, or that it refuses none.
fn print_fed(rt: &impl Print, bytes: &[u8]) -> anyhow::Result<()> {
    let mut checker = Checker::<Mine>::new(Limits::usual());
    for byte in bytes {
        if let Fed::Refused(refusal) = checker.feed(&[*byte]) {
            println!(rt; "byte by byte: {refusal}")?;
            return Ok(());
        }
    }
    println!(rt;
        "byte by byte: {} records, {} bytes",
        checker.records(),
        checker.place()
    )?;
    Ok(())
}

/// Prints whether a checker for the standards' types alone takes the bytes.
fn print_typed(rt: &impl Print, bytes: &[u8]) -> anyhow::Result<()> {
    let mut checker = Checker::<Typed>::new(Limits::usual());
    match checker.feed(bytes) {
        Fed::Refused(refusal) => println!(rt; "typed: {refusal}")?,
        _ => println!(rt; "typed: {} records", checker.records())?,
    }
    Ok(())
}

/// Prints the answer to each message, read whole and fed byte by byte, and the answer to one without the type.
pub fn print_all(rt: &impl Print, alloc: Global) -> anyhow::Result<()> {
    meaning();
    print_read(rt, alloc, &GOOD)?;
    print_read(rt, alloc, &LONG)?;
    print_read(rt, alloc, &BAD)?;
    print_fed(rt, &GOOD)?;
    print_fed(rt, &LONG)?;
    print_fed(rt, &BAD)?;
    print_typed(rt, &LONG)
}

//! Shows where a message breaks.

use simbegyor::{Checker, Fed, Limits, Typed};
use std::io;

/// Prints how many records are sound, and where and why the bytes are refused.
pub fn print_break(rt: &impl Print, bytes: &[u8]) -> io::Result<()> {
    let mut checker = Checker::<Typed>::new(Limits::usual());
    match checker.feed(bytes) {
        Fed::Done { taken } => println!(rt; "{} records in {taken} bytes", checker.records()),
        Fed::More => println!(rt; "{} records, and more must follow", checker.records()),
        Fed::Refused(refusal) => println!(rt; "{} records are sound; {refusal}", checker.records()),
    }
}

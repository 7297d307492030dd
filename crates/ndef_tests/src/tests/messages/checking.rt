//! The state that a checker shows.
use crate::lines::{field, octets_of};
use crate::samples::{at, usual};
use ndef_lang::Opaque;
use ndef_message::Checker;
use ndef_value::Reason;
use std::alloc::Global;
use std::process::Abort;
use std::test::Fail;

/// Parts that one checker takes one after another: `OCTETS | FED | END | RECORDS | PLACE`. An empty line
/// comes before the parts of another checker.
const PARTS: &str = "
91 01 00 41 51 | More | Err(Refusal { at: 5, reason: EndOfInput }) | 1 | 5
00 00 | Refused(Refusal { at: 5, reason: TypeEmpty }) | Err(Refusal { at: 5, reason: TypeEmpty }) | 1 | 5
01 | Refused(Refusal { at: 5, reason: TypeEmpty }) | Err(Refusal { at: 5, reason: TypeEmpty }) | 1 | 5

D0 00 00 07 | Done { taken: 3 } | Ok(()) | 1 | 3
07 | Done { taken: 0 } | Ok(()) | 1 | 3
";

/// Whether a checker that has taken the part in a line shows what the line gives.
fn is_shown(alloc: Global, checker: &mut Checker<Opaque>, line: &str) -> Result<bool, Fail> {
    let (octets, reported) = field(line);
    let fed = checker.feed(octets_of(alloc, octets)?.as_slice());
    let end = checker.end();
    let (records, place) = (checker.records(), checker.place());
    let shown = format!(in alloc; "{fed:?} | {end:?} | {records} | {place}")?;
    Ok(shown.as_str() == reported.trim())
}

fn check_parts(rt: &(impl Abort + AllocGlobal), lines: &str) -> Result<(), Fail> {
    let mut checker = Checker::<Opaque>::new(usual());
    assert!(rt; checker.end() == at(0, Reason::EndOfInput));
    for line in lines.lines() {
        assert!(rt; is_shown(rt.alloc(), &mut checker, line)?, "{line}");
    }
    Ok(())
}

#[test]
fn what_is_shown(rt: HostRuntime) -> Result<(), Fail> {
    for lines in PARTS.trim().split("\n\n") {
        check_parts(&rt, lines)?;
    }
    Ok(())
}

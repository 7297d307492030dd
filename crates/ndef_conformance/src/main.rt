//! Reads cases, one a line, and prints those that the library answers otherwise. Bytes are run through every door of
//! the library; payloads are read as values, records written, and the carriers found that a message names.
//!
//! The files:
//!
//! - `suite.rt`: a case. `doors.rt`: the ways to read bytes.
//! - `values.rt`, `encoding.rt`, `links.rt`: the lines of values, of records that are written, and of links.
#![tactic(auto)]

use std::alloc::Global;
use std::io::{self, BufRead, BufReader};

mod doors;
mod encoding;
mod links;
mod suite;
mod values;

use suite::{Wrong, wrong_with};

/// Whether a line has a case: empty lines and remarks have none.
fn is_case(line: &str) -> bool {
    !line.trim().is_empty() && !line.starts_with('#')
}

/// Returns the fault of a line that has to be right; None if it can't be read.
fn wrong_unless(is_right: Option<bool>) -> Option<Wrong> {
    Some(if is_right? {
        None
    } else {
        Some("another value")
    })
}

/// Returns the fault of the case of a line, if there is one. Its id names its file of conformance/.
fn wrong_in_line(alloc: Global, line: &str) -> Wrong {
    let wrong = match line.split_once('-') {
        Some(("encode", _)) => wrong_unless(encoding::is_written(alloc, line)),
        Some(("link", _)) => wrong_unless(links::are_linked(alloc, line)),
        Some((_, rest)) if rest.starts_with("value-") => {
            wrong_unless(values::is_reported(alloc, line))
        }
        _ => wrong_with(alloc, line),
    };
    wrong.unwrap_or(Some("this can't be read"))
}

fn main(rt: HostRuntime) -> io::Result<()> {
    let alloc = rt.alloc();
    let (mut cases, mut wrong) = (0u64, 0u64);
    for line in BufReader::new(alloc, rt.reader())?.lines(alloc) {
        let line = line?;
        let line = line.as_str();
        if is_case(line) {
            cases = cases.wrapping_add(1);
            if let Some(why) = wrong_in_line(alloc, line) {
                wrong = wrong.wrapping_add(1);
                println!(rt; "WRONG {line}: {why}")?;
            }
        }
    }
    println!(rt; "{cases} cases, {wrong} wrong")?;
    Ok(())
}

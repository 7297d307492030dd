//! Reads a tag from a slice and prints its records, writes a handover select, and shows where a message breaks. Then it
//! reads messages with a record type of its own, and in a payload language of its own.
//!
//! - `writing.rt`, `breaking.rt`: the select, and where a message breaks.
//! - `temperature.rt`, `own_type.rt`, `specs/Meaning.antt`: the record type.
//! - `texts_alone.rt`, `own_language.rt`, `specs/ReadAs.antt`: the language.
#![tactic(auto)]

mod breaking;
mod own_language;
mod own_type;
mod temperature;
mod texts_alone;
mod writing;

use breaking::print_break;
use simbegyor::{Limits, Profile, SmartPoster, TextParts, Tnf, Typed, UriParts, uri_prefix, view};
use std::alloc::Global;
use writing::select_of;

/// A tag with a text, a link and a smart poster.
const TAG: [u8; 54] =
    *b"\x91\x01\x08T\x02enHello\x11\x01\x0CU\x01example.com\x51\x02\x15Sp\xD1\x01\x11U\x04example.org/menu";

/// Prints a text, which is copied only where it is in UTF-16.
fn print_text(rt: &impl Print, alloc: Global, text: &TextParts<'_>) -> anyhow::Result<()> {
    match text.utf8() {
        Some(text) => println!(rt; "text {}", text)?,
        None => println!(rt; "text {}", text.to_value(alloc)?.text())?,
    }
    Ok(())
}

/// Prints the records of the message with which the bytes begin.
fn print_records(rt: &impl Print, alloc: Global, bytes: &[u8]) -> anyhow::Result<()> {
    for item in view::<Typed>(bytes, Limits::usual())?.items() {
        match (item.tnf(), item.kind(), item.whole()) {
            (Tnf::WellKnown, b"T", Some(payload)) => {
                print_text(rt, alloc, &TextParts::parse(payload)?)?
            }
            (Tnf::WellKnown, b"U", Some(payload)) => {
                let uri = UriParts::parse(payload, Profile::Strict)?;
                println!(rt; "link {}{}", uri_prefix(uri.code()), uri.rest())?
            }
            (Tnf::WellKnown, b"Sp", Some(payload)) => {
                let poster = SmartPoster::decode(alloc, payload)?;
                println!(rt; "poster {}", poster.uri(alloc)?.text())?
            }
            _ => println!(rt; "{} bytes", item.length())?,
        }
    }
    Ok(())
}

fn main(rt: HostRuntime) -> anyhow::Result<()> {
    print_records(&rt, rt.alloc(), &TAG)?;
    let select = select_of(rt.alloc(), b"\x07", b"\x10")?;
    print_break(&rt, select.as_slice())?;
    print_break(&rt, b"\x91\x01\x08T\x02enHello\x51\x01\x03T\x42en")?;
    own_type::print_all(&rt, rt.alloc())?;
    own_language::print_all(&rt, rt.alloc())
}

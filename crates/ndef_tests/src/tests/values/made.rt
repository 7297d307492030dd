//! Smart posters and handovers that are made of messages.
use crate::lines::{fields, octets_of};
use crate::samples::read;
use ndef_types::{Request, Select, SmartPoster};
use ndef_value::{Bytes, Message};
use std::alloc::Global;
use std::test::Fail;

/// Messages that no value is made of: `TYPE | MESSAGE | INDEX`, the index of the first record that is
/// wrong, or the number of records where a URI is missing.
const NOT_MADE: &str = "
poster | 91 01 01 55 00 51 01 01 55 00 | 1
poster | D0 00 00 | 1
poster | 91 01 02 55 00 61 51 03 02 61 63 74 00 00 | 1
poster | 91 01 00 73 51 01 02 55 00 61 | 0
request | D0 00 00 | 0
request | D1 02 01 63 72 01 | 0
request | 90 00 00 51 02 02 63 72 01 02 | 0
request | 91 02 02 63 72 01 02 51 02 00 61 63 | 1
select | D1 03 03 65 72 72 01 40 41 | 0
select | 90 00 00 51 03 03 65 72 72 01 40 41 | 1
";

/// Values and what is written for them: `TYPE MINOR | MESSAGE | PAYLOAD`, of a poster without a version.
const MADE: &str = "
poster | 91 01 02 55 00 61 11 01 02 54 00 61 51 01 03 74 61 2F 62 | 91 01 02 55 00 61 11 01 02 54 00 61 51 01 03 74 61 2F 62
request 15 | D1 02 02 63 72 01 02 | 1F D1 02 02 63 72 01 02
select 0 | D1 03 02 65 72 72 01 40 | 10 D1 03 02 65 72 72 01 40
";

/// The index of the record that is wrong, and how many records are handed back.
fn handed_back(alloc: Global, kind: &str, bytes: &[u8]) -> Result<Option<(usize, usize)>, Fail> {
    let message = read(alloc, bytes)?;
    let back = match kind {
        "poster" => SmartPoster::new(message)
            .err()
            .map(|fault| (fault.index, fault.message.len())),
        "request" => Request::new(2, message)
            .err()
            .map(|fault| (fault.index, fault.message.len())),
        _ => Select::new(2, Some(message))
            .err()
            .map(|fault| (fault.index, fault.message.len())),
    };
    Ok(back)
}

/// Whether the index that a line gives comes back, and all records of its message.
fn comes_back(alloc: Global, line: &str) -> Result<bool, Fail> {
    let [kind, bytes, index, ..] = fields(line);
    let index = index.parse::<usize>()?;
    let bytes = octets_of(alloc, bytes)?;
    let records = read(alloc, bytes.as_slice())?.len();
    Ok(handed_back(alloc, kind, bytes.as_slice())? == Some((index, records)))
}

#[test]
fn messages_come_back(rt: HostRuntime) -> Result<(), Fail> {
    for line in NOT_MADE.trim().lines() {
        assert!(rt; comes_back(rt.alloc(), line)?, "{line}");
    }
    Ok(())
}

fn poster(alloc: Global, message: Message) -> Result<Bytes, Fail> {
    Ok(SmartPoster::new(message)?.encode(alloc)?)
}

fn request(alloc: Global, message: Message) -> Result<Bytes, Fail> {
    Ok(Request::new(15, message)?.encode(alloc)?)
}

fn select(alloc: Global, message: Message) -> Result<Bytes, Fail> {
    Ok(Select::new(0, Some(message))?.encode(alloc)?)
}

/// Whether what is written for the value made of the message in a line is what the line gives.
fn is_made(alloc: Global, line: &str) -> Result<bool, Fail> {
    let [kind, bytes, payload, ..] = fields(line);
    let message = read(alloc, octets_of(alloc, bytes)?.as_slice())?;
    let written = match kind {
        "poster" => poster(alloc, message),
        "request 15" => request(alloc, message),
        _ => select(alloc, message),
    };
    Ok(written?.as_slice() == octets_of(alloc, payload)?.as_slice())
}

#[test]
fn values_are_made(rt: HostRuntime) -> Result<(), Fail> {
    for line in MADE.trim().lines() {
        assert!(rt; is_made(rt.alloc(), line)?, "{line}");
    }
    let select = Select::new(3, None)?;
    assert!(rt; select.encode(rt.alloc())?.as_slice() == b"\x13".as_slice());
    Ok(())
}

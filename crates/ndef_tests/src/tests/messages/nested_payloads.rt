//! Nested payloads, by themselves.
ghost use Rattle.std.specs.Prelude.{◌≤◌, ◌<◌, ◌^◌};

use crate::case::{answer_of, profile_of};
use crate::lines::{bytes_of, fields};
use ndef_lang::{Kind, Language, Leaf};
use ndef_nest::{Nest, Typed};
use ndef_value::{Profile, Reason};
use std::alloc::Global;
use std::test::Fail;

/// The result for the front of a payload.
#[derive(Clone, Copy, Debug, PartialEq, Eq)]
enum Answer {
    /// No payload has such a length.
    NoLength,
    /// Nothing can follow the octet at this place.
    Refused(usize, Reason),
    /// It can go on.
    GoesOn,
    /// It is whole.
    Whole,
}

use Answer::{GoesOn, NoLength, Refused, Whole};

/// Returns the result for the front of a payload of `least` to `most` octets.
fn read<L: Language>(
    kind: Kind,
    records: u32,
    profile: Profile,
    least: u32,
    most: u32,
    front: &[u8],
) -> Answer
    requires some { 1 ≤ records }
    requires few { records < 2 ^ 16 }
{
    let mut state = L::start(kind, records, profile);
    let (mut least, mut most) = (least, most);
    if !state.fits(u64::from(least), u64::from(most)) {
        return NoLength;
    }
    for (at, byte) in front.iter().enumerate() {
        state.step(*byte);
        least = least.saturating_sub(1);
        most = most.saturating_sub(1);
        if !state.fits(u64::from(least), u64::from(most)) {
            return Refused(at, state.reason());
        }
    }
    if most == 0 { Whole } else { GoesOn }
}

/// The same of a payload of one length, by itself and as that of a record of a message.
fn both(kind: Kind, records: u32, profile: Profile, length: u32, front: &[u8]) -> [Answer; 2]
    requires some { 1 ≤ records }
    requires few { records < 2 ^ 16 }
{
    [
        read::<Nest>(kind, records, profile, length, length, front),
        read::<Typed>(kind, records, profile, length, length, front),
    ]
}

/// Payloads by their fronts: `TYPE | RECORDS | PROFILE | LENGTH | OCTETS | ANSWER`, the answer being
/// `no length`, `refused PLACE REASON`, `goes on` or `whole`.
const PAYLOADS: &str = "
poster | 1024 | strict | 6 | D1 01 02 55 00 61 | whole
poster | 1024 | strict | 8 | 90 00 00 51 01 01 55 00 | whole
poster | 1024 | strict | 13 | 91 01 02 55 00 61 51 03 01 61 63 74 03 | whole
poster | 1024 | strict | 4 |  | no length
poster | 1024 | strict | 5 | D1 01 01 54 | refused 3 20
poster | 1024 | strict | 5 | D5 | refused 0 20
poster | 1024 | strict | 6 | D1 02 | refused 1 20
poster | 1024 | strict | 5 | D7 | refused 0 1
poster | 1024 | strict | 6 | B1 | refused 0 9
poster | 1024 | strict | 6 | 90 | refused 0 23
poster | 1024 | strict | 7 | D1 01 02 | refused 2 23
poster | 1024 | strict | 1000 | D1 | refused 0 23
poster | 1024 | strict | 6 | D1 01 02 55 FF 61 | refused 4 19
poster | 1024 | strict | 11 | 91 01 01 55 00 51 01 02 55 | refused 8 21
poster | 1024 | strict | 14 | 91 01 02 55 00 61 51 03 02 61 63 74 | refused 11 23
poster | 1024 | strict | 4294967295 | C1 01 FF FF FF F7 | refused 5 23
poster | 1024 | strict | 4294967295 | C1 01 FF FF FF F8 | goes on
select | 1024 | strict | 1 | 12 | whole
select | 1024 | strict | 4 | 12 D0 00 00 | whole
select | 1024 | strict | 9 | 12 D1 03 02 65 72 72 01 40 | whole
select | 1024 | strict | 10 | 12 D1 02 04 61 63 01 01 30 00 | whole
select | 1024 | strict | 0 |  | no length
select | 1024 | strict | 2 |  | no length
select | 1024 | strict | 1 | 22 | refused 0 22
select | 1024 | strict | 9 | 12 D1 03 02 65 72 72 02 | refused 7 23
request | 1024 | strict | 8 | 12 D1 02 02 63 72 01 02 | whole
request | 1024 | strict | 3 |  | no length
request | 1024 | strict | 4 |  | no length
request | 1024 | strict | 7 |  | no length
request | 1024 | strict | 8 | 22 | refused 0 22
request | 1024 | strict | 8 | 12 D0 | refused 1 25
request | 1024 | strict | 8 | 12 D7 | refused 1 1
request | 1024 | strict | 8 | 12 D1 01 | refused 2 25
request | 1024 | strict | 8 | 12 D1 00 | refused 2 12
request | 1024 | strict | 8 | 12 D1 02 03 | refused 3 23
request | 1024 | strict | 8 | 12 D1 02 02 63 73 | refused 5 25
request | 1024 | standard | 8 | 12 D7 | refused 1 25
poster | 1024 | standard | 5 | D7 | refused 0 20
poster | 1024 | standard | 6 | D1 01 02 55 FF 61 | whole
poster | 1 | strict | 6 | D1 01 02 55 00 61 | whole
poster | 1 | strict | 6 | 91 | refused 0 10
request | 1 | strict | 267 |  | goes on
request | 1 | strict | 268 |  | no length
";

fn kind_of(text: &str) -> Option<Kind> {
    match text {
        "poster" => Some(Kind::SmartPoster),
        "request" => Some(Kind::Request),
        "select" => Some(Kind::Select),
        _ => None,
    }
}

fn answer_in(text: &str) -> Option<Answer> {
    match text {
        "no length" => Some(NoLength),
        "goes on" => Some(GoesOn),
        "whole" => Some(Whole),
        _ => match answer_of(text)? {
            (Err(refusal), _) => Some(Refused(refusal.at as usize, refusal.reason)),
            _ => None,
        },
    }
}

/// The answer that a line gives, and the two that `both` gives.
fn answers(alloc: Global, line: &str) -> Option<(Answer, [Answer; 2])> {
    let [kind, records, profile, length, octets, reported, ..] = fields(line);
    let records = u32::from(records.parse::<u16>().ok()?).max(1);
    let length = length.parse::<u32>().ok()?;
    let front = bytes_of(alloc, octets)?;
    let given = both(
        kind_of(kind)?,
        records,
        profile_of(profile)?,
        length,
        front.as_slice(),
    );
    Some((answer_in(reported)?, given))
}

#[test]
fn nested_payloads(rt: HostRuntime) -> Result<(), Fail> {
    for line in PAYLOADS.trim().lines() {
        let (reported, given) = answers(rt.alloc(), line).ok_or("a line that can't be read")?;
        assert_eq!(rt; given, [reported; 2], "{line}");
    }
    Ok(())
}

/// A poster that comes in pieces: how many octets may follow the first of them.
#[test]
fn pieces(rt: HostRuntime) {
    let table: [(&[u8], u32, u32, bool); 4] = [
        (b"\xd1\x01\x02", 3, 3, true),
        (b"\xd1\x01\x02", 2, 2, false),
        (b"\xd1\x01\x02", 65536, 131071, false),
        (b"\xc1\x01\x00\x00\x01\x2c", 0, 255, false),
    ];
    for (front, least, most, goes_on) in table {
        let mut poster = Typed::start(Kind::SmartPoster, 1024, Profile::Strict);
        for byte in front {
            poster.step(*byte);
        }
        assert_eq!(rt; poster.fits(u64::from(least), u64::from(most)), goes_on);
    }
}

#[test]
fn leaves(rt: HostRuntime) {
    let table: [(Kind, &[u8], Answer); 6] = [
        (Kind::Carrier, b"\x01\x03a/b\x05", Whole),
        (Kind::Carrier, b"\x01", NoLength),
        (Kind::Text, b"\x40", Refused(0, Reason::TextBit)),
        (Kind::Uri, b"\x24", Refused(0, Reason::UriCode)),
        (Kind::Action, b"ab", Whole),
        (Kind::Other, b"\x00", Whole),
    ];
    for (kind, payload, answer) in table {
        let length = payload.len() as u32;
        assert_eq!(rt;
            read::<Typed>(kind, 1, Profile::Strict, length, length, payload),
            answer
        );
    }
    assert_eq!(rt;
        read::<Leaf>(Kind::Action, 1, Profile::Strict, 2, 2, b"ab"),
        NoLength
    );
}

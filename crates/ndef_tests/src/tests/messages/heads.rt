//! Worked heads of pieces, read and written.
use crate::case::profile_of;
use crate::lines::{bytes_of, fields};
use ndef_piece::{Head, HeadReader, Spot, Step, write_head};
use ndef_value::Tnf;
use std::alloc::Global;
use std::fmt::Debug;

/// Fronts of heads: `PLACE | PROFILE | LAST | ROOM | OCTETS | ANSWER | LEAST MOST`. The place is `first`,
/// the first piece of a message, `later`, one that begins another record, or `inside`, one within a
/// record. LAST is `piece` or `record` where this is the last one that the limits allow, else empty. The answer is that
/// to the last octet, and after it come the least and the greatest number of payload bytes that are possible then.
const HEADS: &str = "
first | strict | | 1000 | | More | 0 1000
first | strict | | 1000 | D0 | More | 0 0
first | strict | | 1000 | D5 | More | 0 255
first | strict | | 1000 | C5 00 00 00 | More | 0 1000
first | strict | | 1000 | C5 00 00 00 02 | More | 512 767
first | strict | | 1000 | C5 00 00 00 04 | Refused(PayloadTooLarge) | 1 0
first | strict | | 1000 | D1 01 08 | Head(Head { first: true, last: true, chunked: false, short: true, tnf: WellKnown, kind_length: 1, id_length: None, payload_length: 8 }) | 8 8
first | strict | | 1048576 | D7 | Refused(ReservedTnf) | 1 0
first | strict | | 1048576 | 51 | Refused(BeginMissing) | 1 0
later | strict | | 1048576 | D1 | Refused(BeginAgain) | 1 0
first | strict | | 1048576 | D6 | Refused(UnchangedOutside) | 1 0
inside | strict | | 1048575 | 55 | Refused(ChangedInside) | 1 0
inside | strict | | 1048575 | 5E | Refused(IdInside) | 1 0
first | strict | | 1048576 | F5 | Refused(ChunkAtEnd) | 1 0
first | strict | | 1048576 | B0 | Refused(ChunkOfEmpty) | 1 0
first | strict | piece | 1048576 | B5 | Refused(TooManyPieces) | 1 0
first | strict | record | 1048576 | 91 | Refused(TooManyRecords) | 1 0
first | strict | | 1048576 | D5 01 | Refused(TypeNotEmpty) | 1 0
first | strict | | 1048576 | D1 00 | Refused(TypeEmpty) | 1 0
first | strict | | 1048576 | D0 01 | Refused(EmptyNotEmpty) | 1 0
first | strict | | 1048576 | D0 00 01 | Refused(EmptyNotEmpty) | 1 0
first | strict | | 1048576 | D8 00 00 01 | Refused(EmptyNotEmpty) | 1 0
first | strict | | 10 | D5 00 0B | Refused(PayloadTooLarge) | 1 0
inside | strict | | 0 | 56 00 01 | Refused(PayloadTooLarge) | 1 0
first | strict | | 1048576 | C5 00 FF | Refused(PayloadTooLarge) | 1 0
first | strict | | 1048576 | AA 03 00 01 02 04 09 | Head(Head { first: true, last: false, chunked: true, short: false, tnf: Media, kind_length: 3, id_length: Some(9), payload_length: 66052 }) | 66052 66052
first | standard | | 1048576 | D7 | More | 0 255
first | standard | | 1048576 | D7 01 | Refused(TypeNotEmpty) | 1 0
first | standard | | 1048576 | F7 | Refused(ChunkAtEnd) | 1 0
inside | standard | | 1048575 | 57 | Refused(ChangedInside) | 1 0
first | standard | | 1048576 | D7 00 00 | Head(Head { first: true, last: true, chunked: false, short: true, tnf: Unknown, kind_length: 0, id_length: None, payload_length: 0 }) | 0 0
";

/// The same with the bounds of the heads that go on: `PLACE | PROFILE | LAST | ROOM | OCTETS | BOUNDS`.
const BOUNDS: &str = "
first | strict | piece | 4294967295 | | None
first | strict | piece | 4294967295 | C9 | Some(Bounds { last: true, chunked: false, tnf: WellKnown, left: 6, kind: (1, 255), id: (0, 255), payload: (0, 4294967295) })
first | strict | piece | 4294967295 | C9 02 00 01 | Some(Bounds { last: true, chunked: false, tnf: WellKnown, left: 3, kind: (2, 2), id: (0, 255), payload: (65536, 131071) })
first | strict | piece | 4294967295 | C9 02 00 01 00 00 09 | Some(Bounds { last: true, chunked: false, tnf: WellKnown, left: 0, kind: (2, 2), id: (9, 9), payload: (65536, 65536) })
";

/// The reader at the spot with which a line begins.
fn reader_of(line: &str) -> Option<HeadReader> {
    let [place, profile, last, room, ..] = fields(line);
    let spot = Spot {
        profile: profile_of(profile)?,
        first: place == "first",
        inside: place == "inside",
        last_piece: last == "piece",
        last_record: last == "record",
        room: room.parse::<u32>().ok()?,
    };
    if spot.first && spot.inside {
        return None;
    }
    Some(HeadReader::new(spot))
}

/// The answer to the last octet, if each octet before it is answered with `More`. Once the answer is another one, it
/// must be the same for one more octet.
fn last_answer(reader: &mut HeadReader, octets: &[u8]) -> Option<Step> {
    let mut answer = Step::More;
    for octet in octets {
        if answer != Step::More {
            return None;
        }
        answer = reader.step(*octet);
    }
    if answer != Step::More && reader.step(0) != answer {
        return None;
    }
    Some(answer)
}

/// Whether a value is printed as this text.
fn is_printed<T: Debug>(alloc: Global, value: &T, text: &str) -> Option<bool> {
    Some(format!(in alloc; "{value:?}").ok()?.as_str() == text)
}

/// Whether the answer and the lengths after the octets in a line are those that the line gives.
fn is_answered(alloc: Global, line: &str) -> Option<bool> {
    let [_, _, _, _, octets, reported, lengths, ..] = fields(line);
    let mut reader = reader_of(line)?;
    let octets = bytes_of(alloc, octets)?;
    let answer = last_answer(&mut reader, octets.as_slice())?;
    let (least, most) = reader.lengths();
    Some(
        is_printed(alloc, &answer, reported)?
            && lengths == format!(in alloc; "{least} {most}").ok()?.as_str(),
    )
}

/// Whether the bounds after the octets in a line are those that the line gives.
fn is_bounded(alloc: Global, line: &str) -> Option<bool> {
    let [_, _, _, _, octets, reported, ..] = fields(line);
    let mut reader = reader_of(line)?;
    let octets = bytes_of(alloc, octets)?;
    last_answer(&mut reader, octets.as_slice())?;
    is_printed(alloc, &reader.bounds(), reported)
}

#[test]
fn heads_are_read(rt: HostRuntime) {
    for line in HEADS.trim().lines() {
        assert!(rt; is_answered(rt.alloc(), line) == Some(true), "{line}");
    }
    for line in BOUNDS.trim().lines() {
        assert!(rt; is_bounded(rt.alloc(), line) == Some(true), "{line}");
    }
}

/// The head of one short record in one piece: a type of one byte, no id, 8 payload bytes.
const SHORT_RECORD: Head = Head {
    first: true,
    last: true,
    chunked: false,
    short: true,
    tnf: Tnf::WellKnown,
    kind_length: 1,
    payload_length: 8,
    id_length: None,
};

/// The head of the first piece of a media record, in the long form.
const LONG_PIECE: Head = Head {
    first: true,
    last: false,
    chunked: true,
    short: false,
    tnf: Tnf::Media,
    kind_length: 3,
    payload_length: 0x0001_0204,
    id_length: Some(9),
};

#[test]
fn heads_are_written(rt: HostRuntime) {
    let mut out = [0xEE; 7];
    assert!(rt; write_head(&SHORT_RECORD, &mut out) == 3);
    assert!(rt; out == [0xD1, 1, 8, 0xEE, 0xEE, 0xEE, 0xEE]);
    assert!(rt; write_head(&LONG_PIECE, &mut out) == 7);
    assert!(rt; out == [0xAA, 3, 0, 1, 2, 4, 9]);
}

//! Names, byte strings, records, messages, limits, and the texts of reasons.
use crate::case::reason;
use crate::comparing::are_reported_apart;
use crate::lines::field;
use ndef_value::{
    Bytes, Limits, Message, MessageError, Name, NameError, OutOfRange, Profile, Reason, Record,
    RecordError, Refusal, Tnf, TnfError,
};
use std::alloc::Global;
use std::fmt::Display;
use std::test::Fail;

const LETTERS: [u8; 256] = [0x41; 256];

fn item(alloc: Global, payload: &[u8]) -> Result<Record, Fail> {
    Ok(Record::new(alloc, Tnf::WellKnown, b"T", b"", payload)?)
}

fn message(alloc: Global, payload: &[u8]) -> Result<Message, Fail> {
    let mut records = Vec::new(alloc);
    records.push(item(alloc, payload)?)?;
    Ok(Message::new(records)?)
}

/// Whether there is a name of the bytes, made at once.
fn is_named(alloc: Global, bytes: &[u8]) -> Result<bool, Fail> {
    Ok(Name::from_slice(alloc, bytes)?.as_slice() == bytes)
}

/// A name made byte by byte.
fn pushed_name(alloc: Global, bytes: &[u8]) -> Result<Name, Fail> {
    let mut name = Name::new(alloc);
    for byte in bytes {
        if name.as_slice().len() < 255 {
            name.push(*byte)?;
        }
    }
    Ok(name)
}

#[test]
fn makes_names(rt: HostRuntime) -> Result<(), Fail> {
    let alloc = rt.alloc();
    assert!(rt; is_named(alloc, b"T")? && is_named(alloc, &LETTERS[..33])?);
    assert!(rt; Name::from_slice(alloc, &LETTERS).err() == Some(NameError::TooLong));
    assert!(rt; pushed_name(alloc, &LETTERS[..33])?.as_slice() == &LETTERS[..33]);
    Ok(())
}

#[test]
fn makes_byte_strings(rt: HostRuntime) -> Result<(), Fail> {
    let alloc = rt.alloc();
    let mut bytes = Bytes::new(alloc);
    assert!(rt; bytes.as_slice().is_empty());
    bytes = Bytes::from_slice(alloc, b"\x02en")?;
    bytes.extend(b"Hello")?;
    assert!(rt; bytes.as_slice() == b"\x02enHello".as_slice());
    Ok(())
}

/// Whether a record has the parts of which it was made.
fn is_made(alloc: Global) -> Result<bool, Fail> {
    let hello = item(alloc, b"\x02enHello")?;
    Ok(
        hello.tnf() == Tnf::WellKnown
            && hello.kind() == b"T".as_slice()
            && hello.id().is_empty()
            && hello.payload() == b"\x02enHello".as_slice(),
    )
}

fn empty_record(alloc: Global) -> Record {
    Record::from_parts(
        Tnf::Empty,
        Name::new(alloc),
        Name::new(alloc),
        Bytes::new(alloc),
    )
}

#[test]
fn makes_records(rt: HostRuntime) -> Result<(), Fail> {
    let alloc = rt.alloc();
    assert!(rt; is_made(alloc)? && empty_record(alloc).tnf() == Tnf::Empty);
    let rows: [(Tnf, &[u8], RecordError); 4] = [
        (Tnf::Unknown, b"T", RecordError::BadShape),
        (Tnf::Unknown, &LETTERS, RecordError::BadShape),
        (Tnf::Unchanged, b"", RecordError::BadShape),
        (Tnf::Media, &LETTERS, RecordError::TooLong),
    ];
    for (tnf, kind, error) in rows {
        let made = Record::new(alloc, tnf, kind, b"", b"").err();
        assert!(rt; made == Some(error), "{tnf}: {made:?}");
    }
    Ok(())
}

/// A message of two records.
fn two_records(alloc: Global) -> Result<Message, Fail> {
    let mut records = Vec::new(alloc);
    records.push(item(alloc, b"one")?)?;
    records.push(item(alloc, b"two")?)?;
    Ok(Message::new(records)?)
}

/// Whether `get` gives the records by their indices.
fn are_got(message: &Message) -> bool {
    for (index, payload) in [b"one", b"two"].iter().enumerate() {
        match message.get(index) {
            Some(record) if record.payload() == payload.as_slice() => {}
            _ => return false,
        }
    }
    message.get(2).is_none()
}

/// Whether iterating over the message gives the records.
fn are_gone_over(message: &Message) -> bool {
    for (record, payload) in message.into_iter().zip([b"one", b"two"].iter()) {
        if record.payload() != payload.as_slice() {
            return false;
        }
    }
    message.iter().count() == 2
}

#[test]
fn makes_messages(rt: HostRuntime) -> Result<(), Fail> {
    let alloc = rt.alloc();
    let none = Message::new(Vec::new(alloc));
    assert!(rt; matches!(none, Err(MessageError::NoRecords(_))));
    let message = two_records(alloc)?;
    assert!(rt; message.len() == 2 && are_got(&message) && are_gone_over(&message));
    Ok(())
}

/// Whether messages, and the records that they hold, are equal only where they should be.
fn messages_are_compared(alloc: Global) -> Result<bool, Fail> {
    let one = message(alloc, b"one")?;
    let same = message(alloc, b"one")?;
    let other = message(alloc, b"two")?;
    let records = match (one.get(0), same.get(0), other.get(0)) {
        (Some(one), Some(same), Some(other)) => are_reported_apart(one, same, other),
        _ => false,
    };
    Ok(records && are_reported_apart(&one, &same, &other))
}

fn name(alloc: Global, bytes: &[u8]) -> Result<Name, Fail> {
    Ok(Name::from_slice(alloc, bytes)?)
}

fn names_are_compared(alloc: Global) -> Result<bool, Fail> {
    let one = name(alloc, b"T")?;
    Ok(are_reported_apart(&one, &name(alloc, b"T")?, &name(alloc, b"U")?))
}

fn byte_string(alloc: Global, bytes: &[u8]) -> Result<Bytes, Fail> {
    Ok(Bytes::from_slice(alloc, bytes)?)
}

fn byte_strings_are_compared(alloc: Global) -> Result<bool, Fail> {
    let one = byte_string(alloc, b"T")?;
    Ok(are_reported_apart(&one, &byte_string(alloc, b"T")?, &byte_string(alloc, b"U")?))
}

#[test]
fn compares_values(rt: HostRuntime) -> Result<(), Fail> {
    let alloc = rt.alloc();
    assert!(rt; messages_are_compared(alloc)?, "messages");
    assert!(rt; names_are_compared(alloc)?, "names");
    assert!(rt; byte_strings_are_compared(alloc)?, "byte strings");
    Ok(())
}

#[test]
fn compares_limits(rt: HostRuntime) {
    let standard = Limits::usual().with(Profile::Standard);
    assert!(rt; are_reported_apart(&Limits::usual(), &Limits::default(), &standard));
    assert!(rt; Profile::default() == Profile::Strict);
}

/// The numbers and names of type name formats.
const FORMATS: &str = "
0 Empty
1 WellKnown
2 Media
3 AbsoluteUri
4 External
5 Unknown
6 Unchanged
";

/// Whether a value is printed as this text.
fn is_printed<T: Display>(alloc: Global, value: &T, text: &str) -> Result<bool, Fail> {
    Ok(format!(in alloc; "{value}")?.as_str() == text)
}

/// Whether the type name format with this number is printed as a line gives it.
fn is_format(alloc: Global, number: u8, line: &str) -> Result<bool, Fail> {
    let tnf = Tnf::try_from(number)?;
    Ok(tnf.code() == number && is_printed(alloc, &tnf, line)?)
}

#[test]
fn prints_type_name_formats(rt: HostRuntime) -> Result<(), Fail> {
    for (number, line) in (0..7u8).zip(FORMATS.trim().lines()) {
        assert!(rt; is_format(rt.alloc(), number, line)?, "{line}");
    }
    assert!(rt; FORMATS.trim().lines().count() == 7);
    assert!(rt; Tnf::try_from(7u8) == Err(TnfError(7)));
    let text = "no type name format has the number 7";
    assert!(rt; is_printed(rt.alloc(), &TnfError(7), text)?);
    Ok(())
}

/// Reasons in the order of their numbers: `RANK | NUMBER NAME`.
const REASONS: &str = "
1 | 1 ReservedTnf
2 | 2 BeginMissing
3 | 3 BeginAgain
4 | 4 UnchangedOutside
5 | 5 ChangedInside
6 | 6 IdInside
7 | 7 ChunkAtEnd
8 | 8 ChunkOfEmpty
9 | 9 TooManyPieces
10 | 10 TooManyRecords
11 | 11 TypeNotEmpty
12 | 12 TypeEmpty
13 | 13 EmptyNotEmpty
14 | 14 PayloadTooLarge
15 | 15 TextBit
16 | 16 Language
17 | 17 Utf8
18 | 18 Utf16
19 | 19 UriCode
20 | 20 UriMissing
21 | 21 UriAgain
22 | 22 Version
24 | 23 DoesNotFit
25 | 24 EndOfInput
23 | 25 CollisionMissing
";

/// Whether the reason with this number has the rank, the name and the printed text that a line gives.
fn is_reported(alloc: Global, number: u64, line: &str) -> Result<bool, Fail> {
    let reason = reason(number).ok_or("no such reason")?;
    let (rank, text) = field(line);
    let text = text.trim();
    let (_, name) = text.split_once(' ').ok_or("no name")?;
    Ok(
        u64::from(reason.number()) == number
            && u64::from(reason.rank()) == rank.parse::<u64>()?
            && reason.name() == name.as_bytes()
            && is_printed(alloc, &reason, text)?,
    )
}

#[test]
fn prints_reasons(rt: HostRuntime) -> Result<(), Fail> {
    for (number, line) in (1..26u64).zip(REASONS.trim().lines()) {
        assert!(rt; is_reported(rt.alloc(), number, line)?, "{line}");
    }
    assert!(rt; REASONS.trim().lines().count() == 25);
    let refusal = Refusal {
        at: 11,
        reason: Reason::EndOfInput,
    };
    assert!(rt; is_printed(rt.alloc(), &refusal, "refused at 11: 24 EndOfInput")?);
    Ok(())
}

#[test]
fn makes_limits(rt: HostRuntime) -> Result<(), Fail> {
    assert!(rt; Limits::new(0, 1, 1).err() == Some(OutOfRange));
    let widest = Limits::new(4294967295, 65535, 65535)?;
    assert!(rt; widest.payload() == 4294967295 && widest.records() == 65535);
    assert!(rt; widest.pieces() == 65535 && widest.profile() == Profile::Strict);
    let usual = Limits::usual();
    assert!(rt; usual.payload() == 1048576 && usual.records() == 1024 && usual.pieces() == 4096);
    assert!(rt; usual.with(Profile::Standard).profile() == Profile::Standard);
    Ok(())
}

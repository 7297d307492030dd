//! Messages read, checked and decoded from sources.
use crate::lines::{digits, field, octets_of};
use crate::records::are_reported;
use crate::samples::{HELLO, SELECT, usual};
use crate::streams::SlowReader;
use ndef_lang::{Leaf, Opaque};
use ndef_message::{
    CheckError, Checked, Decoder, Event, ReadError, SliceSource, StdSource, check_message,
    read_message,
};
use ndef_value::{Reason, Record, Refusal};
use std::alloc::Global;
use std::process::Abort;
use std::test::Fail;

#[test]
fn gives_the_parts_of_records(rt: HostRuntime) -> Result<(), Fail> {
    let alloc = rt.alloc();
    let read = read_message::<Opaque, _>(alloc, &mut SliceSource::whole(&SELECT), usual())?;
    let records = "1 4873 - 12D10204616301013000, 2 612F62 30 01";
    assert!(rt; read.taken == 24 && are_reported(alloc, records, &read.message) == Some(true));
    let checked = check_message::<Opaque, _>(&mut SliceSource::whole(&SELECT), usual())?;
    let expected = Checked {
        records: 2,
        taken: 24,
    };
    assert!(rt; checked == expected);
    Ok(())
}

/// Parts that one decoder is fed one after another: `OCTETS | COUNT EVENT | PLACE | HELD | END`, a record
/// as `TNF TYPE PAYLOAD`. An empty line comes before the parts of another decoder.
const PARTS: &str = "
B5 00 01 41 | 4 more | 4 | 1 | Err(Refusal { at: 4, reason: EndOfInput })
36 00 01 42 56 00 01 43 | 8 last 5 Unknown - 414243 | 12 | 0 | Ok(())
B5 00 01 41 36 00 01 42 56 00 01 43 | 0 over | 12 | 0 | Ok(())

91 01 00 41 51 01 00 42 | 4 record 1 WellKnown 41 - | 4 | 0 | Err(Refusal { at: 4, reason: EndOfInput })
D1 | 0 refused at 4: 3 BeginAgain | 4 | 0 | Err(Refusal { at: 4, reason: BeginAgain })
51 01 00 42 | 0 refused at 4: 3 BeginAgain | 4 | 0 | Err(Refusal { at: 4, reason: BeginAgain })
";

fn record_reported(alloc: Global, record: &Record) -> Result<String, Fail> {
    let tnf = record.tnf();
    let kind = digits(alloc, record.kind())?;
    let payload = digits(alloc, record.payload())?;
    Ok(format!(in alloc; "{tnf} {kind} {payload}")?)
}

/// An event as text.
fn event_reported(alloc: Global, event: &Event) -> Result<String, Fail> {
    match event {
        Event::More => Ok(String::from_str(alloc, "more")?),
        Event::Whole { item, last } => {
            let record = record_reported(alloc, item)?;
            let front = if *last { "last" } else { "record" };
            Ok(format!(in alloc; "{front} {record}")?)
        }
        Event::Refused(refusal) => Ok(format!(in alloc; "{refusal}")?),
        Event::Failed(_) => Err("no memory".into()),
        Event::Over => Ok(String::from_str(alloc, "over")?),
    }
}

/// A decoder's answer as text: how many octets it takes, and the event.
fn answer_reported(alloc: Global, answer: &(usize, Event)) -> Result<String, Fail> {
    let (count, event) = (answer.0, event_reported(alloc, &answer.1)?);
    Ok(format!(in alloc; "{count} {event}")?)
}

/// A decoder's answer to one more part, as text.
fn fed(alloc: Global, decoder: &mut Decoder<Opaque>, part: &[u8]) -> Result<String, Fail> {
    answer_reported(alloc, &decoder.feed(part))
}

/// Whether a decoder that is fed the part in a line shows what the line gives.
fn is_shown(alloc: Global, decoder: &mut Decoder<Opaque>, line: &str) -> Result<bool, Fail> {
    let (octets, reported) = field(line);
    let fed = fed(alloc, decoder, octets_of(alloc, octets)?.as_slice())?;
    let (place, held) = (decoder.place(), decoder.held());
    let end = decoder.end();
    let shown = format!(in alloc; "{fed} | {place} | {held} | {end:?}")?;
    Ok(shown.as_str() == reported.trim())
}

fn feed_parts(rt: &(impl Abort + AllocGlobal), lines: &str) -> Result<(), Fail> {
    let mut decoder = Decoder::<Opaque>::new(rt.alloc(), usual());
    assert!(rt; decoder.held() == 0);
    for line in lines.lines() {
        assert!(rt; is_shown(rt.alloc(), &mut decoder, line)?, "{line}");
    }
    Ok(())
}

#[test]
fn gives_each_record_at_its_last_byte(rt: HostRuntime) -> Result<(), Fail> {
    for lines in PARTS.trim().split("\n\n") {
        feed_parts(&rt, lines)?;
    }
    Ok(())
}

#[test]
fn reads_one_message_after_another(rt: HostRuntime) -> Result<(), Fail> {
    let alloc = rt.alloc();
    let twice = [HELLO, HELLO];
    let mut reader: &[u8] = twice.as_flattened();
    for left in [12, 0usize] {
        let mut source = StdSource::new(&mut reader);
        let read = read_message::<Leaf, _>(alloc, &mut source, usual())?;
        drop(source);
        assert!(rt; read.taken == 12 && reader.len() == left);
    }
    Ok(())
}

#[test]
fn tells_a_source_that_fails(rt: HostRuntime) {
    for most in 1..6usize {
        let failing = SlowReader {
            bytes: &HELLO[..5],
            most,
            fails: true,
        };
        let mut source = StdSource::new(failing);
        let read = read_message::<Opaque, _>(rt.alloc(), &mut source, usual());
        assert!(rt; matches!(read, Err(ReadError::ReadFault)));
        let checked = check_message::<Opaque, _>(&mut source, usual());
        assert!(rt; checked == Err(CheckError::ReadFault));
    }
}

#[test]
fn says_what_went_wrong(rt: HostRuntime) -> Result<(), Fail> {
    let refusal = Refusal {
        at: 11,
        reason: Reason::EndOfInput,
    };
    let (read, checked) = (ReadError::Refused(refusal), CheckError::Refused(refusal));
    let (fault, memory) = (ReadError::ReadFault, ReadError::NoMemory);
    let text = format!(in rt.alloc(); "{read}, {checked}, {fault}, {memory}")?;
    let refused = "refused at 11: 24 EndOfInput, refused at 11: 24 EndOfInput";
    assert!(rt; text.strip_prefix(refused) == Some(", reading failed, no memory"));
    Ok(())
}

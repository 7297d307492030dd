//! The records of a message, compared with those of a text: `TNF TYPE ID PAYLOAD`, with commas between. A type name
//! format is given by its number, the other parts in hexadecimal, with `-` for an empty one.
use crate::lines::bytes_of;
use ndef_message::View;
use ndef_value::{Message, Record, Tnf};
use std::alloc::Global;

/// The parts of a record.
#[derive(Clone, Copy)]
struct Parts<'a> {
    tnf: Tnf,
    kind: &'a [u8],
    id: &'a [u8],
    payload: &'a [u8],
}

fn tnf_of(text: &str) -> Option<Tnf> {
    match text {
        "0" => Some(Tnf::Empty),
        "1" => Some(Tnf::WellKnown),
        "2" => Some(Tnf::Media),
        "3" => Some(Tnf::AbsoluteUri),
        "4" => Some(Tnf::External),
        "5" => Some(Tnf::Unknown),
        _ => None,
    }
}

/// The octets of a part.
fn part_of(alloc: Global, text: Option<&str>) -> Option<Vec<u8>> {
    bytes_of(alloc, text?)
}

/// Whether the record is the one of the text.
fn is_reported(alloc: Global, text: Option<&str>, record: &Parts<'_>) -> Option<bool> {
    let mut words = text?.split_whitespace();
    let tnf = tnf_of(words.next()?)?;
    let kind = part_of(alloc, words.next())?;
    let id = part_of(alloc, words.next())?;
    let payload = part_of(alloc, words.next())?;
    Some(
        tnf == record.tnf
            && kind.as_slice() == record.kind
            && id.as_slice() == record.id
            && payload.as_slice() == record.payload
            && words.next().is_none(),
    )
}

/// The message of the records of a text.
pub fn message_of(alloc: Global, text: &str) -> Option<Message> {
    let mut records = Vec::new(alloc);
    for record in text.split(',') {
        let mut words = record.split_whitespace();
        let tnf = tnf_of(words.next()?)?;
        let kind = part_of(alloc, words.next())?;
        let id = part_of(alloc, words.next())?;
        let payload = part_of(alloc, words.next())?;
        let record = Record::new(
            alloc,
            tnf,
            kind.as_slice(),
            id.as_slice(),
            payload.as_slice(),
        );
        records.push(record.ok()?).ok()?;
    }
    Message::new(records).ok()
}

/// Whether the records of the message are those of the text.
pub fn are_reported(alloc: Global, text: &str, message: &Message) -> Option<bool> {
    let mut texts = text.split(',');
    for record in message {
        let parts = Parts {
            tnf: record.tnf(),
            kind: record.kind(),
            id: record.id(),
            payload: record.payload(),
        };
        if !is_reported(alloc, texts.next(), &parts)? {
            return Some(false);
        }
    }
    Some(texts.next().is_none())
}

/// Whether the items of the view are the records of the text.
pub fn are_shown(alloc: Global, text: &str, view: &View<'_>) -> Option<bool> {
    let mut texts = text.split(',');
    for item in view.items() {
        let payload = item.joined(alloc).ok()?;
        let parts = Parts {
            tnf: item.tnf(),
            kind: item.kind(),
            id: item.id(),
            payload: payload.as_slice(),
        };
        if !is_reported(alloc, texts.next(), &parts)? {
            return Some(false);
        }
    }
    Some(texts.next().is_none())
}

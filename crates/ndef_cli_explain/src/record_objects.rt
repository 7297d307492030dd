//! The records of a message and the values of their payloads, in JSON.
ghost use Rattle.std.specs.Prelude.{◌≡◌, OnOk, map};
ghost use Rattle.ndef_format.specs.declared.kind.Kind.TheVariants as kinds;
ghost use Rattle.ndef_cli_explain.specs.OfEach.{Puts};
ghost use Rattle.ndef_cli_explain.specs.Outputs.{array_of, with_value, with_values};
ghost use Rattle.ndef_cli_explain.specs.RecordObjects.{AddsPosterObject, AddsRecordPairs, AreRecordObjects};
ghost use Rattle.ndef_cli_explain.specs.RecordObjects.{IsRecordObject, PutsValue, text_object, widest};

use crate::output::Output;
use ndef_lang::{Kind, Opaque};
use ndef_message::{Item, View, view};
use ndef_types::{DecodeError, SmartPoster, Text, Texts, Uri};
use ndef_value::{Limits, MOST_PAYLOAD, MOST_PIECES, MOST_RECORDS, NoMemory, Profile};

/// Appends the object of a text.
#[tactic(auto, using(crate::proofs::OutputParts::object_parts))]
fn push_text_object(out: &mut Output, text: &Text) -> Result<(), NoMemory>
    ensures { OnOk result (out.new ≡ with_value out.old (text_object text.now)) }
{
    out.begin(b"{")?;
    out.string_member(b"language", text.language().as_bytes())?;
    out.string_member(b"text", text.text().as_bytes())?;
    out.end(b"}")
}

/// Appends the objects of texts.
fn push_text_objects(out: &mut Output, texts: &Texts) -> Result<(), NoMemory>
    ensures { OnOk result (out.new ≡ with_values out.old (map text_object texts.now)) }
{
    for text in texts.iter() {
        push_text_object(out, text)?;
    }
    Ok(())
}

/// Appends the array of the objects of texts.
#[tactic(auto, using(crate::proofs::OutputParts::array_parts))]
fn push_text_array(out: &mut Output, texts: &Texts) -> Result<(), NoMemory>
    ensures { OnOk result (out.new ≡ with_value out.old (array_of (map text_object texts.now))) }
{
    out.begin(b"[")?;
    push_text_objects(out, texts)?;
    out.end(b"]")
}

/// Appends the object of a smart poster.
fn push_poster_object(out: &mut Output, poster: &SmartPoster) -> Result<(), NoMemory>
    ensures { OnOk result (AddsPosterObject poster.now out.old out.new) }
{
    let texts = poster.titles(out.alloc)?;
    let uri = poster.uri(out.alloc)?;
    out.begin(b"{")?;
    out.name(b"titles")?;
    push_text_array(out, &texts)?;
    out.string_member(b"uri", uri.text().as_bytes())?;
    out.end(b"}")?;
    Ok(())
}

/// Appends the member with the value of the payload of a text, if it is one.
fn push_text(out: &mut Output, payload: &[u8]) -> Result<(), NoMemory>
    ensures { OnOk result (PutsValue kinds.Text payload.now out.old out.new) }
{
    match Text::decode(out.alloc, payload) {
        Ok(text) => {
            out.name(b"value")?;
            push_text_object(out, &text)?;
            Ok(())
        }
        Err(DecodeError::Refused(_)) => Ok(()),
        Err(DecodeError::NoMemory) => Err(NoMemory),
    }
}

/// Appends the member with the value of the payload of a URI, if it is one.
fn push_uri(out: &mut Output, payload: &[u8]) -> Result<(), NoMemory>
    ensures { OnOk result (PutsValue kinds.Uri payload.now out.old out.new) }
{
    match Uri::decode_as(out.alloc, payload, Profile::Standard) {
        Ok(uri) => {
            out.string_member(b"value", uri.text().as_bytes())?;
            Ok(())
        }
        Err(DecodeError::Refused(_)) => Ok(()),
        Err(DecodeError::NoMemory) => Err(NoMemory),
    }
}

/// Appends the member with the value of the payload of a smart poster, if it is one.
fn push_poster(out: &mut Output, payload: &[u8]) -> Result<(), NoMemory>
    ensures { OnOk result (PutsValue kinds.SmartPoster payload.now out.old out.new) }
{
    match SmartPoster::decode_as(out.alloc, payload, Profile::Standard) {
        Ok(poster) => {
            out.name(b"value")?;
            push_poster_object(out, &poster)?;
            Ok(())
        }
        Err(DecodeError::Refused(_)) => Ok(()),
        Err(DecodeError::NoMemory) => Err(NoMemory),
    }
}

/// Appends the member with the value of a payload of the kind; nothing if the kind has no value here.
fn push_value(out: &mut Output, kind: Kind, payload: &[u8]) -> Result<(), NoMemory>
    ensures { OnOk result (PutsValue kind payload.now out.old out.new) }
{
    match kind {
        Kind::Text => push_text(out, payload),
        Kind::Uri => push_uri(out, payload),
        Kind::SmartPoster => push_poster(out, payload),
        Kind::Request | Kind::Select | Kind::Carrier | Kind::Action | Kind::Size => Ok(()),
        Kind::MediaType | Kind::Alternative | Kind::Collision | Kind::Error => Ok(()),
        Kind::Other => Ok(()),
    }
}

/// Appends the object of a record of this number.
fn push_record_object(out: &mut Output, number: u64, item: &Item<'_>) -> Result<(), NoMemory>
    ensures { OnOk result (Puts with_values (IsRecordObject number item.now) out.old out.new) }
{
    let payload = item.joined(out.alloc)?;
    let kind = Kind::of(item.tnf(), item.kind());
    out.begin(b"{")?;
    out.quoted_member(b"id", item.id())?;
    out.number_member(b"length", u64::from(item.length()))?;
    out.number_member(b"number", number)?;
    out.number_member(b"tnf", u64::from(item.tnf().code()))?;
    out.quoted_member(b"type", item.kind())?;
    push_value(out, kind, payload.as_slice())?;
    out.end(b"}")?;
    Ok(())
}

/// Appends the objects of a message's records.
fn push_record_objects(out: &mut Output, message: &View<'_>) -> Result<(), NoMemory>
    ensures { OnOk result (Puts with_values (AreRecordObjects 1 message.now.runs) out.old out.new) }
{
    let mut number = 1;
    for item in message.items() {
        push_record_object(out, number, &item)?;
        number += 1;
    }
    Ok(())
}

/// Limits that each message meets.
fn widest() -> Limits
    ensures { result ≡ widest }
{
    match Limits::new(MOST_PAYLOAD, MOST_RECORDS, MOST_PIECES) {
        Ok(limits) => limits.with(Profile::Standard),
        Err(_) => unreachable!(),
    }
}

/// Appends the member with the records of the message with which the bytes begin.
pub(crate) fn push_records_member(out: &mut Output, bytes: &[u8]) -> Result<(), NoMemory>
    ensures { OnOk result (AddsRecordPairs bytes.now out.old out.new) }
{
    match view::<Opaque>(bytes, widest()) {
        Ok(message) => {
            out.name(b"records")?;
            out.begin(b"[")?;
            push_record_objects(out, &message)?;
            out.end(b"]")?;
            Ok(())
        }
        Err(_) => Ok(()),
    }
}

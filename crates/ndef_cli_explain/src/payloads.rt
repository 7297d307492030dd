//! The lines and the objects of payloads in several chunks, joined.
ghost use Rattle.std.specs.Prelude.{◌≡◌, ◌++◌, ◌∷◌, [], ◌+◌, ◌<◌, ◌≤◌, ◌^◌, OnOk, length};
ghost use Rattle.ndef_fields.specs.Reports.{ArePayloadFields};
ghost use Rattle.ndef_format.specs.Messages.{run_record};
ghost use Rattle.ndef_cli_explain.specs.Fields.{PlacesFit};
ghost use Rattle.ndef_cli_explain.specs.Forms.{style_form};
ghost use Rattle.ndef_cli_explain.specs.OfEach.{Puts};
ghost use Rattle.ndef_cli_explain.specs.Outputs.{with_text, with_value};
ghost use Rattle.ndef_cli_explain.specs.Payloads.{AddsJoined, AreJoinedBy, ArePayloads, joined, payload_head};
ghost use Rattle.ndef_cli_explain.specs.Payloads.{payload_object, payload_text, with_payloads, with_payloads_member};

use crate::fields::{Parsed, push_fields, push_fields_array};
use crate::output::Output;
use crate::style::{Shown, Style};
use ndef_cli::push_number;
use ndef_fields::{Fields, payload_fields, payload_fields_are_exact};
use ndef_lang::Kind;
use ndef_message::{Item, Items};
use ndef_value::{Bytes, NoMemory};

/// The fields of a payload of this kind.
fn fields_of(kind: Kind, payload: &[u8]) -> Fields<'_>
    ensures reported { ArePayloadFields kind payload.now result }
    ensures fit { PlacesFit 0 result }
{
    // For the proof alone.
    payload_fields_are_exact();
    payload_fields(kind, payload)
}

/// Appends the line of a joined payload: the number of its record, and its number of bytes.
fn push_payload_head(line: &mut Bytes, number: u64, bytes: u64) -> Result<(), NoMemory>
    ensures { OnOk result (line.new ≡ line.old ++ payload_head number bytes) }
{
    line.extend(b"payload of record ")?;
    push_number(line, number)?;
    line.extend(b": bytes ")?;
    push_number(line, bytes)?;
    line.extend(b"\n")
}

/// Appends the lines of a payload, of the record of this number.
#[tactic(auto, unfolding(crate::specs::Outputs::with_text))]
fn push_payload_lines(
    out: &mut Output,
    shown: Shown,
    number: u64,
    payload: Parsed<'_>,
) -> Result<(), NoMemory>
    requires { PlacesFit 0 payload.fields }
    ensures { OnOk result (out.new ≡ with_text out.old (payload_text shown (joined number payload.entry))) }
{
    push_payload_head(&mut out.text, number, payload.bytes.len() as u64)?;
    push_fields(out, Style::Lines(shown), true, 0, payload)
}

/// Appends the object of a payload: its fields, its number of bytes, and the number of its record.
#[tactic(auto, using(crate::proofs::OutputParts::object_parts, crate::proofs::OutputParts::pair_parts))]
fn push_payload_object(out: &mut Output, number: u64, payload: Parsed<'_>) -> Result<(), NoMemory>
    requires { PlacesFit 0 payload.fields }
    ensures { OnOk result (out.new ≡ with_value out.old (payload_object (joined number payload.entry))) }
{
    let length = payload.bytes.len() as u64;
    out.begin(b"{")?;
    out.name(b"fields")?;
    push_fields_array(out, true, 0, payload)?;
    out.number_member(b"length", length)?;
    out.number_member(b"record", number)?;
    out.end(b"}")
}

/// Appends the lines of a payload, or its object.
fn push_reported(
    out: &mut Output,
    style: Style<'_>,
    number: u64,
    payload: Parsed<'_>,
) -> Result<(), NoMemory>
    requires { PlacesFit 0 payload.fields }
    ensures { OnOk result (out.new
        ≡ with_payloads (style_form style.entry) out.old (joined number payload.entry ∷ [])) }
{
    match style {
        Style::Lines(shown) => push_payload_lines(out, shown, number, payload),
        Style::Objects(_) => push_payload_object(out, number, payload),
    }
}

/// Appends the lines of the payload of a record, its chunks joined, or its object.
fn push_joined(
    out: &mut Output,
    style: Style<'_>,
    number: u64,
    item: &Item<'_>,
) -> Result<(), NoMemory>
    ensures { OnOk result (AddsJoined (style_form style.entry) number (run_record item.now) out.old out.new) }
{
    let payload = item.joined(out.alloc)?;
    let bytes = payload.as_slice();
    let fields = fields_of(Kind::of(item.tnf(), item.kind()), bytes);
    push_reported(out, style, number, Parsed { bytes, fields })?;
    Ok(())
}

/// Appends the lines of the payload of a record, or its object, if it comes in several chunks.
fn push_payload(
    out: &mut Output,
    style: Style<'_>,
    number: u64,
    item: &Item<'_>,
) -> Result<(), NoMemory>
    ensures { OnOk result (Puts (with_payloads (style_form style.entry))
        (AreJoinedBy number (run_record item.now) item.now.later) out.old out.new) }
{
    if item.whole().is_some() {
        return Ok(());
    }
    push_joined(out, style, number, item)?;
    Ok(())
}

/// Appends the lines of the payloads that come in several chunks, or their objects, of records of which the first has
/// this number.
pub(crate) fn push_payloads(
    out: &mut Output,
    style: Style<'_>,
    first: u64,
    items: Items<'_>,
) -> Result<(), NoMemory>
    requires few { length items ≤ 65535 }
    requires numbers { first + 65535 < 2 ^ 64 }
    ensures { OnOk result (Puts (with_payloads (style_form style.entry)) (ArePayloads first items.entry)
        out.old out.new) }
{
    let mut number = first;
    for item in items {
        push_payload(out, style, number, &item)?;
        number += 1;
    }
    Ok(())
}

/// Appends the member with the array of the objects of these payloads.
pub(crate) fn push_payloads_member(
    out: &mut Output,
    first: u64,
    items: Items<'_>,
) -> Result<(), NoMemory>
    requires few { length items ≤ 65535 }
    requires numbers { first + 65535 < 2 ^ 64 }
    ensures { OnOk result (Puts with_payloads_member (ArePayloads first items.entry) out.old out.new) }
{
    out.name(b"payloads")?;
    out.begin(b"[")?;
    push_payloads(out, Style::Objects(None), first, items)?;
    out.end(b"]")?;
    Ok(())
}

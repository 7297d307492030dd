//! The output for messages, and for records after others of their message.
ghost use Rattle.std.specs.Prelude.{◌≡◌, ◌++◌, ◌+◌, ◌<◌, ◌≤◌, ◌^◌, OnOk, length};
ghost use Rattle.ndef_fields.specs.FieldLaws.{AreGapless};
ghost use Rattle.ndef_cli_explain.specs.Explaining.{Appends};
ghost use Rattle.ndef_cli_explain.specs.Fields.{PlacesFit};
ghost use Rattle.ndef_cli_explain.specs.Forms.{name_of, style_form};
ghost use Rattle.ndef_cli_explain.specs.Messages.{AddsRecordMembers, AreMessageLines, AreRecordLines, AreRecordsText};
ghost use Rattle.ndef_cli_explain.specs.Messages.{IsMessageObject, IsMessageText, IsRecordsObject, file_pairs};
ghost use Rattle.ndef_cli_explain.specs.Messages.{front_pairs, message_head};
ghost use Rattle.ndef_cli_explain.specs.Outputs.{with_line, with_pairs};

use crate::fields::{Parsed, cut, push_fields, push_fields_array};
use crate::output::Output;
use crate::payloads::{push_payloads, push_payloads_member};
use crate::record_objects::push_records_member;
use crate::recovery_place::Recovery;
use crate::references::push_references_member;
use crate::remark_lists::{push_record_remark_lines, push_record_remarks_member, record_remarks};
use crate::style::{Shown, Style};
use ndef_cli::push_number;
use ndef_diagnostics::small_message;
use ndef_fields::FieldReport;
use ndef_value::{Bytes, NoMemory};

/// Appends the name of the input, where inputs are named.
pub(crate) fn push_file(out: &mut Output, file: Option<&str>) -> Result<(), NoMemory>
    ensures { OnOk result (out.new ≡ with_pairs out.old (file_pairs (name_of file.entry))) }
{
    match file {
        None => Ok(()),
        Some(name) => out.quoted_member(b"file", name.as_bytes()),
    }
}

/// Begins the object of a message, or of a refusal, in a line: its place, its fields, and the name of the input.
#[tactic(auto, using(crate::proofs::OutputParts::pair_parts))]
pub(crate) fn begin_object(
    out: &mut Output,
    remarks: bool,
    file: Option<&str>,
    at: u64,
    parsed: Parsed<'_>,
) -> Result<(), NoMemory>
    requires { PlacesFit at parsed.fields }
    ensures { OnOk result (out.new ≡ with_pairs (with_line out.old) (front_pairs remarks (name_of file.entry)
        at parsed.entry.bytes.now parsed.entry.fields)) }
{
    out.begin_line()?;
    out.number_member(b"at", at)?;
    out.name(b"fields")?;
    push_fields_array(out, remarks, at, parsed)?;
    push_file(out, file)
}

/// Appends the line of a message, with its number and its place.
fn push_message_line(line: &mut Bytes, number: u64, at: u64, bytes: u64) -> Result<(), NoMemory>
    ensures { OnOk result (line.new ≡ line.old ++ message_head number at bytes) }
{
    line.extend(b"message ")?;
    push_number(line, number)?;
    line.extend(b" at ")?;
    push_number(line, at)?;
    line.extend(b": bytes ")?;
    push_number(line, bytes)?;
    line.extend(b"\n")
}

/// Appends the lines of a message and of its fields, then of its payloads in several chunks, and then of the remarks on
/// its records.
fn push_message_lines(
    out: &mut Output,
    shown: Shown,
    from: Recovery,
    bytes: &[u8],
    reported: FieldReport<'_>,
) -> Result<(), NoMemory>
    requires few { length reported.items ≤ 65535 }
    requires fit { PlacesFit from.at reported.fields }
    ensures { OnOk result (Appends (AreMessageLines shown from.message from.at bytes.now reported.entry)
        out.old.text out.new.text) }
{
    let style = Style::Lines(shown);
    let fields = reported.fields;
    push_message_line(&mut out.text, from.message, from.at, reported.taken)?;
    push_fields(out, style, true, from.at, Parsed { bytes, fields })?;
    push_payloads(out, style, 1, reported.items)?;
    let few = small_message(cut(bytes, reported.taken as usize).0);
    let remarks = record_remarks(out.alloc, few.as_ref())?;
    push_record_remark_lines(&mut out.text, remarks.as_slice())?;
    Ok(())
}

/// Appends the members with the records of the message that these bytes are, the references of its handover and the
/// remarks on its records.
fn push_record_members(out: &mut Output, bytes: &[u8]) -> Result<(), NoMemory>
    ensures { OnOk result (AddsRecordMembers bytes.now out.old out.new) }
{
    push_records_member(out, bytes)?;
    let few = small_message(bytes);
    push_references_member(out, few.as_ref())?;
    let remarks = record_remarks(out.alloc, few.as_ref())?;
    push_record_remarks_member(out, remarks.as_slice())?;
    Ok(())
}

/// Appends the object of a message in a line.
fn push_message_object(
    out: &mut Output,
    file: Option<&str>,
    from: Recovery,
    bytes: &[u8],
    reported: FieldReport<'_>,
) -> Result<(), NoMemory>
    requires few { length reported.items ≤ 65535 }
    requires fit { PlacesFit from.at reported.fields }
    ensures { OnOk result (Appends (IsMessageObject (name_of file.entry) from.message from.at bytes.now
        reported.entry) out.old.text out.new.text) }
{
    let fields = reported.fields;
    begin_object(out, true, file, from.at, Parsed { bytes, fields })?;
    out.number_member(b"length", reported.taken)?;
    out.number_member(b"message", from.message)?;
    push_payloads_member(out, 1, reported.items)?;
    push_record_members(out, cut(bytes, reported.taken as usize).0)?;
    out.end(b"}")?;
    out.end(b"\n")?;
    Ok(())
}

/// Appends the output for a message.
#[tactic(auto, using(crate::proofs::Places::gapless_fit))]
pub(crate) fn push_message(
    out: &mut Output,
    style: Style<'_>,
    from: Recovery,
    bytes: &[u8],
    reported: FieldReport<'_>,
) -> Result<(), NoMemory>
    requires few { length reported.items ≤ 65535 }
    requires follow { AreGapless 0 reported.fields reported.taken }
    requires fits { from.at + reported.taken < 2 ^ 64 }
    ensures { OnOk result (Appends (IsMessageText (style_form style.entry) from.message from.at bytes.now
        reported.entry) out.old.text out.new.text) }
{
    match style {
        Style::Lines(shown) => push_message_lines(out, shown, from, bytes, reported),
        Style::Objects(file) => push_message_object(out, file, from, bytes, reported),
    }
}

/// Appends the lines of records after others of their message, and then of their payloads in several chunks.
fn push_record_lines(
    out: &mut Output,
    shown: Shown,
    from: Recovery,
    bytes: &[u8],
    reported: FieldReport<'_>,
) -> Result<(), NoMemory>
    requires few { length reported.items ≤ 65535 }
    requires fit { PlacesFit from.at reported.fields }
    requires numbers { from.records + 65536 < 2 ^ 64 }
    ensures { OnOk result (Appends (AreRecordLines shown from bytes.now reported.entry) out.old.text out.new.text) }
{
    let style = Style::Lines(shown);
    let fields = reported.fields;
    push_fields(out, style, true, from.at, Parsed { bytes, fields })?;
    push_payloads(out, style, from.records + 1, reported.items)?;
    Ok(())
}

/// Appends the object of records after others of their message in a line.
fn push_records_object(
    out: &mut Output,
    file: Option<&str>,
    from: Recovery,
    bytes: &[u8],
    reported: FieldReport<'_>,
) -> Result<(), NoMemory>
    requires few { length reported.items ≤ 65535 }
    requires fit { PlacesFit from.at reported.fields }
    requires numbers { from.records + 65536 < 2 ^ 64 }
    ensures { OnOk result (Appends (IsRecordsObject (name_of file.entry) from bytes.now reported.entry)
        out.old.text out.new.text) }
{
    let fields = reported.fields;
    begin_object(out, true, file, from.at, Parsed { bytes, fields })?;
    out.number_member(b"follows", from.records)?;
    out.number_member(b"length", reported.taken)?;
    out.number_member(b"message", from.message)?;
    push_payloads_member(out, from.records + 1, reported.items)?;
    out.end(b"}")?;
    out.end(b"\n")?;
    Ok(())
}

/// Appends the output for records after others of their message.
#[tactic(auto, using(crate::proofs::Places::gapless_fit))]
pub(crate) fn push_later_records(
    out: &mut Output,
    style: Style<'_>,
    from: Recovery,
    bytes: &[u8],
    reported: FieldReport<'_>,
) -> Result<(), NoMemory>
    requires few { length reported.items ≤ 65535 }
    requires follow { AreGapless 0 reported.fields reported.taken }
    requires fits { from.at + reported.taken < 2 ^ 64 }
    requires numbers { from.records + 65536 < 2 ^ 64 }
    ensures { OnOk result (Appends (AreRecordsText (style_form style.entry) from bytes.now reported.entry)
        out.old.text out.new.text) }
{
    match style {
        Style::Lines(shown) => push_record_lines(out, shown, from, bytes, reported),
        Style::Objects(file) => push_records_object(out, file, from, bytes, reported),
    }
}

//! The lines and the objects of fields.
ghost use Rattle.std.specs.Prelude.{◌≡◌, ◌++◌, ◌∷◌, [], ◌+◌, ◌<◌, ◌^◌, OnOk, drop, take};
ghost use Rattle.ndef_cli_explain.specs.Advice.{said_remark};
ghost use Rattle.ndef_cli_explain.specs.Fields.{PlacesFit, back_text, field_object, field_text, fields_array};
ghost use Rattle.ndef_cli_explain.specs.Fields.{front_text, meaning_pairs, octets_of, remark_pairs};
ghost use Rattle.ndef_cli_explain.specs.Fields.{with_fields};
ghost use Rattle.ndef_cli_explain.specs.Forms.{shown_by, style_form};
ghost use Rattle.ndef_cli_explain.specs.Meanings.{meaning_of, reading_of};
ghost use Rattle.ndef_cli_explain.specs.Outputs.{with_either, with_pairs, with_value};
ghost use Rattle.ndef_cli_explain.specs.Wordings.{first_wording};

use crate::advice::{push_remark_line, said_remark};
use crate::cells::{COLUMNS, push_cells, push_column, push_later_rows, push_start};
use crate::meaning::{push_meaning, whole_of};
use crate::output::Output;
use crate::style::{Style, shown_by};
use crate::wording::Wording;
use ndef_diagnostics::Remark;
use ndef_fields::{Field, Fields};
use ndef_value::{Bytes, NoMemory};
use std::alloc::Global;

/// At most `count` octets at the front, and those after them.
pub(crate) fn cut(octets: &[u8], count: usize) -> (&[u8], &[u8])
    ensures front { result.0.now ≡ take count octets.now }
    ensures back { result.1.now ≡ drop count octets.now }
{
    octets.split_at(count.min(octets.len()))
}

/// The octets of a field of these bytes.
fn octets_of<'a>(bytes: &'a [u8], field: &Field) -> &'a [u8]
    ensures { result.now ≡ octets_of bytes.now field.now }
{
    cut(cut(bytes, field.at).1, field.length).0
}

/// A field, and how it is put into words.
#[derive(Clone, Copy)]
pub(crate) struct PrintedField<'a> {
    pub(crate) wording: Wording,
    /// The number of bytes of the input before the bytes of the field's message.
    at: u64,
    pub(crate) field: Field,
    /// The number of octets that it has if it is a number.
    pub(crate) whole: usize,
    pub(crate) octets: &'a [u8],
}

/// Bytes, and the fields that are printed of them.
#[derive(Drop)]
pub(crate) struct Parsed<'a> {
    pub(crate) bytes: &'a [u8],
    pub(crate) fields: Fields<'a>,
}

/// Appends the place of a field, its first eight octets, their characters if that is requested, and its name.
fn push_front(line: &mut Bytes, report: &PrintedField<'_>) -> Result<(), NoMemory>
    ensures { OnOk result (line.new ≡ line.old ++ front_text report.now.wording.shown.characters report.now.at
        report.now.field report.now.octets.now) }
{
    let (field, octets) = (report.field, cut(report.octets, COLUMNS).0);
    push_start(line, report.at, field.at as u64, field.depth)?;
    push_cells(line, octets)?;
    line.extend(b"  ")?;
    push_column(line, report.wording.shown.characters, octets)?;
    line.extend(field.name.text())
}

/// Appends the meaning of the octets of a field, and those after the first eight.
fn push_back(alloc: Global, line: &mut Bytes, report: &PrintedField<'_>) -> Result<(), NoMemory>
    ensures { OnOk result (line.new ≡ line.old ++ back_text report.now.wording report.now.whole report.now.field
        report.now.octets.now) }
{
    push_meaning(alloc, line, report)?;
    let (shown, later) = (report.wording.shown, cut(report.octets, COLUMNS).1);
    push_later_rows(line, shown.characters, report.field.depth, later)?;
    line.extend(b"\n")
}

/// Returns the warning about a field, if warnings are printed.
fn remark_of(report: &PrintedField<'_>) -> Option<Remark>
    ensures { result ≡ said_remark report.now.wording.remarks report.now.field.name report.now.octets.now }
{
    said_remark(report.wording.remarks, report.field.name, report.octets)
}

/// Appends the lines of a field, and of what is strange in it.
fn push_field_lines(
    alloc: Global,
    line: &mut Bytes,
    report: &PrintedField<'_>,
) -> Result<(), NoMemory>
    ensures { OnOk result (line.new ≡ line.old ++ field_text report.now.wording report.now.at report.now.field
        report.now.whole report.now.octets.now) }
{
    push_front(line, report)?;
    push_back(alloc, line, report)?;
    push_remark_line(line, remark_of(report))
}

/// Appends the member with the meaning, but for the blank before it, if there is a meaning.
fn push_said_member(out: &mut Output, text: &[u8]) -> Result<(), NoMemory>
    ensures { OnOk result (out.new ≡ with_pairs out.old (meaning_pairs text.now)) }
{
    match text {
        [] => Ok(()),
        [_, meaning @ ..] => out.string_member(b"meaning", meaning),
    }
}

/// Appends the member with what the octets of a field say, if they say anything.
fn push_meaning_member(out: &mut Output, report: &PrintedField<'_>) -> Result<(), NoMemory>
    ensures { OnOk result (out.new ≡ with_pairs out.old (meaning_pairs (meaning_of
        (reading_of report.now.field.name) report.now.wording report.now.whole report.now.octets.now))) }
{
    let mut text = Bytes::new(out.alloc);
    push_meaning(out.alloc, &mut text, report)?;
    push_said_member(out, text.as_slice())
}

/// Appends the member with what is strange in a field, if anything is.
fn push_remark_member(out: &mut Output, remark: Option<Remark>) -> Result<(), NoMemory>
    ensures { OnOk result (out.new ≡ with_pairs out.old (remark_pairs remark)) }
{
    match remark {
        None => Ok(()),
        Some(remark) => out.string_member(b"remark", remark.sentence().as_slice()),
    }
}

/// Appends the object of a field.
#[tactic(auto, using(crate::proofs::OutputParts::object_parts))]
fn push_field_object(out: &mut Output, report: &PrintedField<'_>) -> Result<(), NoMemory>
    requires { report.now.at + report.now.field.at < 2 ^ 64 }
    ensures { OnOk result (out.new ≡ with_value out.old (field_object report.now.wording report.now.at
        report.now.field report.now.whole report.now.octets.now)) }
{
    let field = report.field;
    out.begin(b"{")?;
    out.number_member(b"at", report.at + field.at as u64)?;
    out.number_member(b"depth", u64::from(field.depth))?;
    out.number_member(b"length", field.length as u64)?;
    push_meaning_member(out, report)?;
    out.string_member(b"name", field.name.text())?;
    out.octets_member(b"octets", report.octets)?;
    push_remark_member(out, remark_of(report))?;
    out.end(b"}")
}

/// Appends the lines of a field, or its object.
#[tactic(auto, unfolding(crate::specs::Outputs::with_text))]
fn push_field(out: &mut Output, style: Style<'_>, report: &PrintedField<'_>) -> Result<(), NoMemory>
    requires { report.now.at + report.now.field.at < 2 ^ 64 }
    ensures { OnOk result (out.new ≡ with_either (style_form style.entry) out.old
        (field_text report.now.wording report.now.at report.now.field report.now.whole report.now.octets.now)
        (field_object report.now.wording report.now.at report.now.field report.now.whole report.now.octets.now
        ∷ [])) }
{
    match style {
        Style::Lines(_) => push_field_lines(out.alloc, &mut out.text, report),
        Style::Objects(_) => push_field_object(out, report),
    }
}

/// Appends the lines of the fields of these bytes, or their objects, with `at` bytes of the input before them; what is
/// strange in them is remarked or not.
pub(crate) fn push_fields(
    out: &mut Output,
    style: Style<'_>,
    remarks: bool,
    at: u64,
    parsed: Parsed<'_>,
) -> Result<(), NoMemory>
    requires { PlacesFit at parsed.fields }
    ensures { OnOk result (out.new ≡ with_fields (style_form style.entry) out.old (first_wording
        (shown_by (style_form style.entry)) remarks) at parsed.entry.bytes.now parsed.entry.fields) }
{
    let Parsed { bytes, fields } = parsed;
    let mut wording = Wording::new(shown_by(style), remarks);
    for field in fields {
        let octets = octets_of(bytes, &field);
        let report = PrintedField {
            wording,
            at,
            field,
            whole: whole_of(bytes, &field),
            octets,
        };
        push_field(out, style, &report)?;
        wording = wording.after(field.name, octets);
    }
    Ok(())
}

/// Appends the array of the objects of the fields of these bytes.
#[tactic(auto, using(crate::proofs::OutputParts::array_parts))]
pub(crate) fn push_fields_array(
    out: &mut Output,
    remarks: bool,
    at: u64,
    parsed: Parsed<'_>,
) -> Result<(), NoMemory>
    requires { PlacesFit at parsed.fields }
    ensures { OnOk result (out.new
        ≡ with_value out.old (fields_array remarks at parsed.entry.bytes.now parsed.entry.fields)) }
{
    out.begin(b"[")?;
    push_fields(out, Style::Objects(None), remarks, at, parsed)?;
    out.end(b"]")
}

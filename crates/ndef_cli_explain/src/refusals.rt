//! The output for a refusal, and for a record that is refused.
ghost use Rattle.std.specs.Prelude.{◌≡◌, ◌++◌, ◌+◌, ◌<◌, ◌^◌, OnOk, IfSome, length};
ghost use Rattle.ndef_diagnostics.specs.Wordings.{expected_text};
ghost use Rattle.ndef_fields.specs.Reports.{AreFieldsBefore, IsMessageFront};
ghost use Rattle.ndef_cli_explain.specs.Advice.{hint_line};
ghost use Rattle.ndef_cli_explain.specs.Fields.{PlacesFit};
ghost use Rattle.ndef_cli_explain.specs.Forms.{name_of, style_form};
ghost use Rattle.ndef_cli_explain.specs.Outputs.{json_line, with_pairs, with_text, with_value};
ghost use Rattle.ndef_cli_explain.specs.Refusals.{byte_text, follows_pairs, goes_on_line, goes_on_object};
ghost use Rattle.ndef_cli_explain.specs.Refusals.{goes_on_text, goes_on_where, octet_pairs, place_pairs};
ghost use Rattle.ndef_cli_explain.specs.Refusals.{reason_lines, refusal_object, refused_lines, refused_object};
ghost use Rattle.ndef_cli_explain.specs.Refusals.{refused_text, sound_line, sound_object, sound_text};

use crate::advice::{push_hint_line, push_hint_members};
use crate::cells::{push_cells, push_column, push_place, push_start};
use crate::fields::{Parsed, push_fields};
use crate::messages::{begin_object, push_file};
use crate::output::Output;
use crate::recovery_place::Recovery;
use crate::said_refusal::{RefusedByte, SaidRefusal};
use crate::style::{Shown, Style};
use ndef_cli::push_number;
use ndef_diagnostics::Expected;
use ndef_fields::{Fields, fields_before, fields_before_are_exact};
use ndef_value::{Bytes, NoMemory, Reason, Refusal};

/// The fields of a front of a message, with `at` bytes of the input before it.
pub(crate) fn fields_of_front(at: u64, front: &[u8]) -> Fields<'_>
    requires front { IsMessageFront front.now }
    requires fits { at + length front.now < 2 ^ 64 }
    ensures reported { AreFieldsBefore front.now result }
    ensures fit { PlacesFit at result }
{
    // For the proof alone.
    let _place = at;
    fields_before_are_exact();
    fields_before(front)
}

/// Appends the line of a refused byte, if there is one: its place, the byte itself, its character if that is requested,
/// and its field.
fn push_byte(
    line: &mut Bytes,
    characters: bool,
    at: u64,
    refusal: Refusal,
    byte: Option<RefusedByte>,
) -> Result<(), NoMemory>
    ensures { OnOk result (line.new ≡ line.old ++ byte_text characters at refusal byte) }
{
    match byte {
        None => Ok(()),
        Some(byte) => {
            push_start(line, at, refusal.at, byte.field.depth)?;
            push_cells(line, &[byte.octet])?;
            line.extend(b"^ ")?;
            push_column(line, characters, &[byte.octet])?;
            line.extend(byte.field.name.text())?;
            line.extend(b"\n")
        }
    }
}

/// Appends the sentence for the expectation.
fn push_sentence(line: &mut Bytes, reason: Reason, expected: Expected) -> Result<(), NoMemory>
    ensures { OnOk result (line.new ≡ line.old ++ expected_text reason expected) }
{
    let sentence = expected.sentence(reason);
    line.extend(sentence.as_slice())
}

/// Appends the line of a refusal after `at` bytes, and the sentence for the expectation.
fn push_reason(
    line: &mut Bytes,
    at: u64,
    refusal: Refusal,
    expected: Expected,
) -> Result<(), NoMemory>
    requires { at + refusal.at < 2 ^ 64 }
    ensures { OnOk result (line.new ≡ line.old ++ reason_lines at refusal (expected_text refusal.reason expected)) }
{
    line.extend(b"refused at ")?;
    push_number(line, at + refusal.at)?;
    line.extend(b" (0x")?;
    push_place(line, at, refusal.at)?;
    line.extend(b"): ")?;
    push_number(line, u64::from(refusal.reason.number()))?;
    line.extend(b" ")?;
    line.extend(refusal.reason.name())?;
    line.extend(b"\n")?;
    push_sentence(line, refusal.reason, expected)?;
    line.extend(b"\n")
}

/// Appends the lines of the hint on a refusal, if there is one.
fn push_hint(line: &mut Bytes, said: &SaidRefusal) -> Result<(), NoMemory>
    ensures { OnOk result (line.new ≡ line.old ++ hint_line said.now.advice) }
{
    push_hint_line(line, said.advice.as_ref())
}

/// Appends the lines of a refusal after `at` bytes: those of the fields of this front, and the description.
#[tactic(auto, unfolding(crate::specs::Outputs::with_text))]
fn push_refused_lines(
    out: &mut Output,
    shown: Shown,
    at: u64,
    front: Parsed<'_>,
    said: &SaidRefusal,
) -> Result<(), NoMemory>
    requires place { at + said.now.refusal.at < 2 ^ 64 }
    requires fit { PlacesFit at front.fields }
    ensures { OnOk result (out.new.text
        ≡ out.old.text ++ refused_lines shown at front.entry.bytes.now front.entry.fields said.now) }
{
    push_fields(out, Style::Lines(shown), false, at, front)?;
    push_byte(&mut out.text, shown.characters, at, said.refusal, said.byte)?;
    push_reason(&mut out.text, at, said.refusal, said.expected)?;
    push_hint(&mut out.text, said)
}

/// Appends the depth and the field of a refused byte, if there is one.
fn push_place_members(out: &mut Output, byte: Option<RefusedByte>) -> Result<(), NoMemory>
    ensures { OnOk result (out.new ≡ with_pairs out.old (place_pairs byte)) }
{
    match byte {
        None => Ok(()),
        Some(byte) => {
            out.number_member(b"depth", u64::from(byte.field.depth))?;
            out.string_member(b"field", byte.field.name.text())
        }
    }
}

/// Appends a refused byte, if there is one.
fn push_octet_member(out: &mut Output, byte: Option<RefusedByte>) -> Result<(), NoMemory>
    ensures { OnOk result (out.new ≡ with_pairs out.old (octet_pairs byte)) }
{
    match byte {
        None => Ok(()),
        Some(byte) => out.octets_member(b"octet", &[byte.octet]),
    }
}

/// Appends the object with the description of a refusal after `at` bytes.
#[tactic(auto, using(crate::proofs::OutputParts::object_parts))]
fn push_said(out: &mut Output, at: u64, said: &SaidRefusal) -> Result<(), NoMemory>
    requires { at + said.now.refusal.at < 2 ^ 64 }
    ensures { OnOk result (out.new ≡ with_value out.old (refusal_object at said.now)) }
{
    let reason = said.refusal.reason;
    out.begin(b"{")?;
    out.number_member(b"at", at + said.refusal.at)?;
    push_place_members(out, said.byte)?;
    out.string_member(b"name", reason.name())?;
    push_octet_member(out, said.byte)?;
    out.number_member(b"reason", u64::from(reason.number()))?;
    out.string_member(b"sentence", said.expected.sentence(reason).as_slice())?;
    out.end(b"}")
}

/// Appends the number of the record after which this is, where there is one.
fn push_follows(out: &mut Output, from: Recovery) -> Result<(), NoMemory>
    ensures { OnOk result (out.new ≡ with_pairs out.old (follows_pairs from)) }
{
    if from.records == 0 {
        return Ok(());
    }
    out.number_member(b"follows", from.records)
}

/// Appends the object of a refusal in a line: the fields of this front, and the description.
#[tactic(auto, using(crate::proofs::OutputParts::line_parts, crate::proofs::OutputParts::pair_parts))]
fn push_refused_object(
    out: &mut Output,
    file: Option<&str>,
    from: Recovery,
    front: Parsed<'_>,
    said: &SaidRefusal,
) -> Result<(), NoMemory>
    requires place { from.at + said.now.refusal.at < 2 ^ 64 }
    requires fit { PlacesFit from.at front.fields }
    ensures { OnOk result (out.new.text ≡ out.old.text ++ json_line (refused_object (name_of file.entry) from
        front.entry.bytes.now front.entry.fields said.now)) }
{
    begin_object(out, false, file, from.at, front)?;
    push_follows(out, from)?;
    push_hint_members(out, said.advice.as_ref())?;
    out.number_member(b"message", from.message)?;
    out.name(b"refused")?;
    push_said(out, from.at, said)?;
    out.end(b"}")?;
    out.end(b"\n")
}

/// Appends the output for a refusal: the fields of this front, and the description.
pub(crate) fn push_refused(
    out: &mut Output,
    style: Style<'_>,
    from: Recovery,
    front: Parsed<'_>,
    said: &SaidRefusal,
) -> Result<(), NoMemory>
    requires place { from.at + said.now.refusal.at < 2 ^ 64 }
    requires fit { PlacesFit from.at front.fields }
    ensures { OnOk result (out.new.text ≡ out.old.text ++ refused_text
        (style_form style.entry) from front.entry.bytes.now front.entry.fields said.now) }
{
    match style {
        Style::Lines(shown) => push_refused_lines(out, shown, from.at, front, said),
        Style::Objects(file) => push_refused_object(out, file, from, front, said),
    }
}

/// Appends the line of a refused record past which the input is read on.
fn push_goes_on_line(line: &mut Bytes, number: u64, place: u64) -> Result<(), NoMemory>
    ensures { OnOk result (line.new ≡ line.old ++ goes_on_line number place) }
{
    line.extend(b"record ")?;
    push_number(line, number)?;
    line.extend(b" goes on to byte ")?;
    push_number(line, place)?;
    line.extend(b"\n")
}

/// Appends the object of a refused record past which the input is read on, in a line.
#[tactic(auto, using(crate::proofs::OutputParts::line_parts))]
fn push_goes_on_object(
    out: &mut Output,
    file: Option<&str>,
    end: u64,
    message: u64,
    number: u64,
) -> Result<(), NoMemory>
    ensures { OnOk result (out.new.text ≡ out.old.text ++ json_line (goes_on_object (name_of file.entry)
        end message number)) }
{
    out.begin_line()?;
    out.number_member(b"end", end)?;
    push_file(out, file)?;
    out.number_member(b"message", message)?;
    out.number_member(b"record", number)?;
    out.end(b"}")?;
    out.end(b"\n")
}

/// Appends that the input is read on past a refused record, which has this number of records before it.
pub(crate) fn push_goes_on(
    out: &mut Output,
    style: Style<'_>,
    from: Recovery,
    before: usize,
    end: usize,
) -> Result<(), NoMemory>
    requires number { from.records + before + 1 < 2 ^ 64 }
    requires place { from.at + end < 2 ^ 64 }
    ensures { OnOk result (out.new.text ≡ out.old.text ++ goes_on_text (style_form style.entry) from before end) }
{
    let (number, place) = (from.records + before as u64 + 1, from.at + end as u64);
    match style {
        Style::Lines(_) => push_goes_on_line(&mut out.text, number, place),
        Style::Objects(file) => push_goes_on_object(out, file, place, from.message, number),
    }
}

/// The same, where the end of the record is known.
pub(crate) fn push_goes_on_where(
    out: &mut Output,
    style: Style<'_>,
    from: Recovery,
    before: usize,
    end: Option<usize>,
) -> Result<(), NoMemory>
    requires number { from.records + before + 1 < 2 ^ 64 }
    requires place { IfSome end (λ end. from.at + end < 2 ^ 64) }
    ensures { OnOk result (out.new.text ≡ out.old.text ++ goes_on_where (style_form style.entry) from before end) }
{
    match end {
        None => Ok(()),
        Some(end) => push_goes_on(out, style, from, before, end),
    }
}

/// Appends the last line: the number of sound records, and that of all.
fn push_sound_line(line: &mut Bytes, sound: u64, all: u64) -> Result<(), NoMemory>
    ensures { OnOk result (line.new ≡ line.old ++ sound_line sound all) }
{
    line.extend(b"records sound: ")?;
    push_number(line, sound)?;
    line.extend(b" of ")?;
    push_number(line, all)?;
    line.extend(b"\n")
}

/// Appends the last object, in a line: the number of all records, and that of the sound ones.
#[tactic(auto, using(crate::proofs::OutputParts::line_parts))]
fn push_sound_object(
    out: &mut Output,
    file: Option<&str>,
    all: u64,
    sound: u64,
) -> Result<(), NoMemory>
    ensures { OnOk result (out.new.text ≡ out.old.text ++ json_line (sound_object (name_of file.entry) all sound)) }
{
    out.begin_line()?;
    out.number_member(b"counted", all)?;
    push_file(out, file)?;
    out.number_member(b"sound", sound)?;
    out.end(b"}")?;
    out.end(b"\n")
}

/// Appends the end of the output: the number of sound records.
pub(crate) fn push_sound(out: &mut Output, style: Style<'_>, last: Recovery) -> Result<(), NoMemory>
    requires { last.sound + last.refused < 2 ^ 64 }
    ensures { OnOk result (out.new.text ≡ out.old.text ++ sound_text (style_form style.entry) last) }
{
    let all = last.sound + last.refused;
    match style {
        Style::Lines(_) => push_sound_line(&mut out.text, last.sound, all),
        Style::Objects(file) => push_sound_object(out, file, all, last.sound),
    }
}

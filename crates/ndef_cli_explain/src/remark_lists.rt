//! The remarks on the records of a message.
ghost use Rattle.std.specs.Prelude.{◌≡◌, ◌++◌, IfOk, OnOk, map, option_map};
ghost use Rattle.ndef_cli_explain.specs.OfEach.{AreOfEach, Puts};
ghost use Rattle.ndef_cli_explain.specs.Outputs.{array_of, with_pairs, with_value, with_values};
ghost use Rattle.ndef_cli_explain.specs.RemarkLists.{AreRemarksIn, AreRemarksOn, record_remark_line};
ghost use Rattle.ndef_cli_explain.specs.RemarkLists.{record_remark_lines, record_remark_object, record_remark_pairs};
ghost use Rattle.ndef_cli_explain.specs.RemarkLists.{remarks_on};

use crate::output::Output;
use ndef_cli::push_number;
use ndef_diagnostics::{Remark, payload_remark, repeated_remark};
use ndef_message::{Item, View};
use ndef_value::{Bytes, NoMemory};
use std::alloc::Global;

/// A remark on a record of a message.
#[derive(Clone, Copy)]
pub(crate) struct RecordRemark {
    /// The number of the record, from 1.
    number: u64,
    remark: Remark,
}

/// Appends a remark on the record of this number, if there is one.
fn push_remark_on(
    remarks: &mut Vec<RecordRemark>,
    number: u64,
    remark: Option<Remark>,
) -> Result<(), NoMemory>
    ensures { OnOk result (remarks.new.items ≡ remarks.old.items ++ remarks_on number remark) }
{
    match remark {
        None => Ok(()),
        Some(remark) => Ok(remarks.push(RecordRemark { number, remark })?),
    }
}

/// Appends the remarks on a record of the message.
fn push_remarks_on(
    remarks: &mut Vec<RecordRemark>,
    message: &View<'_>,
    number: u64,
    item: &Item<'_>,
) -> Result<(), NoMemory>
    ensures { OnOk result (Puts ◌++◌ (AreRemarksOn message.now.runs number item.now)
        remarks.old.items remarks.new.items) }
{
    push_remark_on(remarks, number, repeated_remark(message, item))?;
    push_remark_on(remarks, number, payload_remark(message, item))
}

/// Appends the remarks on each record of the message.
fn push_remarks_on_each(remarks: &mut Vec<RecordRemark>, message: &View<'_>) -> Result<(), NoMemory>
    ensures { OnOk result (Puts ◌++◌ (AreOfEach (AreRemarksOn message.now.runs) 1 message.now.runs)
        remarks.old.items remarks.new.items) }
{
    let mut number = 1;
    for item in message.items() {
        push_remarks_on(remarks, message, number, &item)?;
        number += 1;
    }
    Ok(())
}

/// The remarks on the records of a message of few records.
pub(crate) fn record_remarks(
    alloc: Global,
    few: Option<&View<'_>>,
) -> Result<Vec<RecordRemark>, NoMemory>
    ensures { IfOk result (λ remarks. AreRemarksIn (option_map (λ message. message.now) few.entry) remarks.items) }
{
    let mut remarks = Vec::new(alloc);
    match few {
        None => {}
        Some(message) => push_remarks_on_each(&mut remarks, message)?,
    }
    Ok(remarks)
}

/// Appends the line of a remark on a record.
fn push_record_remark_line(line: &mut Bytes, on: &RecordRemark) -> Result<(), NoMemory>
    ensures { OnOk result (line.new ≡ line.old ++ record_remark_line on.now) }
{
    line.extend(b"remark: record ")?;
    push_number(line, on.number)?;
    line.extend(b": ")?;
    line.extend(on.remark.sentence().as_slice())?;
    line.extend(b"\n")
}

/// Appends the lines of remarks on records.
pub(crate) fn push_record_remark_lines(
    line: &mut Bytes,
    remarks: &[RecordRemark],
) -> Result<(), NoMemory>
    ensures { OnOk result (line.new ≡ line.old ++ record_remark_lines remarks.now) }
{
    let mut rest = remarks;
    while let [on, more @ ..] = rest {
        push_record_remark_line(line, on)?;
        rest = more;
    }
    Ok(())
}

/// Appends the object of a remark on a record.
#[tactic(auto, using(crate::proofs::OutputParts::object_parts))]
fn push_record_remark_object(out: &mut Output, on: &RecordRemark) -> Result<(), NoMemory>
    ensures { OnOk result (out.new ≡ with_value out.old (record_remark_object on.now)) }
{
    out.begin(b"{")?;
    out.number_member(b"record", on.number)?;
    out.string_member(b"sentence", on.remark.sentence().as_slice())?;
    out.end(b"}")
}

/// Appends the objects of remarks on records.
fn push_record_remark_objects(out: &mut Output, remarks: &[RecordRemark]) -> Result<(), NoMemory>
    ensures { OnOk result (out.new ≡ with_values out.old (map record_remark_object remarks.now)) }
{
    for on in remarks {
        push_record_remark_object(out, on)?;
    }
    Ok(())
}

/// Appends the array of the objects of remarks on records.
#[tactic(auto, using(crate::proofs::OutputParts::array_parts))]
fn push_record_remark_array(out: &mut Output, remarks: &[RecordRemark]) -> Result<(), NoMemory>
    ensures { OnOk result (out.new ≡ with_value out.old (array_of (map record_remark_object remarks.now))) }
{
    out.begin(b"[")?;
    push_record_remark_objects(out, remarks)?;
    out.end(b"]")
}

/// Appends the member of remarks on records, if there is one.
pub(crate) fn push_record_remarks_member(
    out: &mut Output,
    remarks: &[RecordRemark],
) -> Result<(), NoMemory>
    ensures { OnOk result (out.new ≡ with_pairs out.old (record_remark_pairs remarks.now)) }
{
    if remarks.is_empty() {
        return Ok(());
    }
    out.name(b"remarks")?;
    push_record_remark_array(out, remarks)
}

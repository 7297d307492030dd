//! The lines of records.
ghost use Rattle.std.specs.Prelude.{◌≡◌, ◌++◌, true, option_map, IfOk, OnOk};
ghost use Rattle.std.specs.List.{AllByRecursion};
ghost use Rattle.ndef_format.specs.Kinds.{kind_of};
ghost use Rattle.ndef_format.specs.Nested.{table_of};
ghost use Rattle.ndef_types.specs.Links.{is_handover};
ghost use Rattle.ndef_tool.specs.Members.{FindsFirst, HasMembers};
ghost use Rattle.ndef_tool.specs.Showing.{Adds, AreRecordLines, IsRecordLine, IsTyped, PrintsValue, record_front};

use crate::handover_lines::push_handover;
use crate::kinds::{is_handover, kind_of};
use crate::nested::Member;
use crate::poster_lines::push_poster;
use crate::quoting::push_named;
use crate::value_lines::{push_carrier, push_text, push_uri};
use ndef_cli::push_counted;
use ndef_lang::Kind;
use ndef_value::{Bytes, Message, NoMemory, Profile, Record};
use std::alloc::Global;

/// Appends the output for the value of the payload of a record.
fn push_reported(
    alloc: Global,
    line: &mut Bytes,
    profile: Profile,
    item: &Record,
) -> Result<(), NoMemory>
    requires { IsTyped profile item.now }
    ensures { OnOk result (Adds line.old line.new
        (PrintsValue (kind_of item.now.tnf item.now.kind) profile item.now.payload)) }
{
    let payload = item.payload();
    let kind = kind_of(item);
    match kind {
        Kind::Text => push_text(alloc, line, profile, payload),
        Kind::Uri => push_uri(alloc, line, profile, payload),
        Kind::SmartPoster => push_poster(alloc, line, profile, payload),
        Kind::Request | Kind::Select => {
            push_handover(alloc, line, profile, kind, payload)?;
            Ok(())
        }
        Kind::Carrier => push_carrier(alloc, line, profile, payload),
        Kind::Other
        | Kind::Action
        | Kind::Size
        | Kind::MediaType
        | Kind::Alternative
        | Kind::Collision
        | Kind::Error => line.extend(b" other"),
    }
}

/// Appends the number of a record, its type name format, its type, its id and the length of its
/// payload.
fn push_record_front(line: &mut Bytes, number: u64, item: &Record) -> Result<(), NoMemory>
    ensures { OnOk result (line.new ≡ line.old ++ record_front number item.now) }
{
    push_counted(line, b" ", number)?;
    push_counted(line, b" tnf ", u64::from(item.tnf().code()))?;
    push_named(line, b" type ", item.kind())?;
    push_named(line, b" id ", item.id())?;
    push_counted(line, b" payload ", item.payload().len() as u64)
}

/// Appends the line of a record.
fn push_record(
    alloc: Global,
    lines: &mut Bytes,
    profile: Profile,
    number: u64,
    item: &Record,
) -> Result<(), NoMemory>
    requires { IsTyped profile item.now }
    ensures { OnOk result (Adds lines.old lines.new (IsRecordLine profile number item.now)) }
{
    push_record_front(lines, number, item)?;
    push_reported(alloc, lines, profile, item)?;
    lines.extend(b"\n")
}

/// Appends the line of a handover. Returns its records.
fn push_first<'a>(
    alloc: Global,
    lines: &mut Bytes,
    profile: Profile,
    number: u64,
    item: &'a Record,
) -> Result<Vec<Member<'a>>, NoMemory>
    requires kind { is_handover (kind_of item.now.tnf item.now.kind) ≡ true }
    requires typed { IsTyped profile item.now }
    ensures members { IfOk result (λ members.
        HasMembers (table_of (kind_of item.now.tnf item.now.kind)) profile item.now.payload members.items) }
    ensures line { IfOk result (λ members. Adds lines.old lines.new (IsRecordLine profile number item.now)) }
{
    push_record_front(lines, number, item)?;
    let members = push_handover(alloc, lines, profile, kind_of(item), item.payload())?;
    lines.extend(b"\n")?;
    Ok(members)
}

/// Appends the lines of the records of a message. Returns the records in its first handover.
pub(crate) fn push_records<'a>(
    alloc: Global,
    lines: &mut Bytes,
    profile: Profile,
    message: &'a Message,
) -> Result<Option<Vec<Member<'a>>>, NoMemory>
    requires { AllByRecursion (IsTyped profile) message.now }
    ensures first { IfOk result (λ first. FindsFirst profile message.now (option_map (λ m. m.items) first)) }
    ensures lines { IfOk result (λ first. Adds lines.old lines.new (AreRecordLines profile 1 message.now)) }
{
    let mut first = None;
    for index in 0..message.len() {
        let Some(item) = message.get(index) else {
            unreachable!()
        };
        let number = index as u64 + 1;
        if first.is_none() && is_handover(kind_of(item)) {
            first = Some(push_first(alloc, lines, profile, number, item)?);
        } else {
            push_record(alloc, lines, profile, number, item)?;
        }
    }
    Ok(first)
}

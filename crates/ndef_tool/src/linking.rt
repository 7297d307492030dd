//! The lines of links.
ghost use Rattle.std.specs.Prelude.{◌≡◌, ◌++◌, IfOk, OnOk, option_map};
ghost use Rattle.std.specs.List.{AllByRecursion};
ghost use Rattle.ndef_types.specs.Links.{IsIndexOf};
ghost use Rattle.ndef_tool.specs.Members.{FindsFirst};
ghost use Rattle.ndef_tool.specs.Showing.{Adds, IsTyped};
ghost use Rattle.ndef_tool.specs.Linking.{AreCarrierLines, AreLinkLines, FindsIds, HasNumber, IsCarrier, link_text, power_name, record_name};

use crate::nested::Member;
use crate::quoting::push_named;
use ndef_cli::{push_counted, push_number};
use ndef_lang::Kind;
use ndef_types::{AlternativeParts, Power, alternatives_are_exact, is_kind};
use ndef_value::{Bytes, Message, NoMemory, Profile};
use std::alloc::Global;
use std::collections::BTreeMap;

/// The index from 0 of the first record of a message with each id (NDEF 1.0, ID).
type Ids<'a> = BTreeMap<&'a [u8], usize>;

/// The records of a message by their ids.
fn ids_of(alloc: Global, message: &Message) -> Result<Ids<'_>, NoMemory>
    ensures { IfOk result (FindsIds message.now) }
{
    let records = message.records();
    let mut ids = BTreeMap::new(alloc);
    let mut left = records.len();
    while left > 0 {
        left -= 1;
        ids.insert(records[left].id(), left)?;
    }
    Ok(ids)
}

/// The index of the first record with the id; no record has the empty id.
fn index_of<'a>(message: &Message, ids: &Ids<'a>, id: &'a [u8]) -> Option<usize>
    requires { FindsIds message.now ids.now }
    ensures index { IsIndexOf message.now id.now result }
    ensures number { HasNumber result }
{
    // For the proof alone.
    let _records = message.len();
    if id.is_empty() {
        return None;
    }
    ids.get(&id).copied()
}

/// The name of a power state.
fn power_name(power: Power) -> &'static [u8]
    ensures { result.now ≡ power_name power }
{
    match power {
        Power::Inactive => b"inactive",
        Power::Active => b"active",
        Power::Activating => b"activating",
        Power::Unknown => b"unknown",
    }
}

/// Appends the number of the record at an index, or `none`.
fn push_record_name(line: &mut Bytes, index: Option<usize>) -> Result<(), NoMemory>
    requires { HasNumber index }
    ensures { OnOk result (line.new ≡ line.old ++ record_name index) }
{
    match index {
        Some(index) => push_number(line, index as u64 + 1),
        None => line.extend(b"none"),
    }
}

/// Appends the line of the link of an alternative carrier with these parts to the record at an index.
fn push_link(
    line: &mut Bytes,
    number: u64,
    power: Power,
    reference: &[u8],
    index: Option<usize>,
) -> Result<(), NoMemory>
    requires { HasNumber index }
    ensures { OnOk result (line.new ≡ line.old ++ link_text number power reference.now index) }
{
    push_counted(line, b" carrier ", number)?;
    line.extend(b" power ")?;
    line.extend(power_name(power))?;
    push_named(line, b" reference ", reference)?;
    line.extend(b" record ")?;
    push_record_name(line, index)?;
    line.extend(b"\n")
}

/// Appends the lines of the links of the alternative carriers among the records of a handover, numbered from 1.
fn push_carriers<'a>(
    lines: &mut Bytes,
    message: &Message,
    ids: &Ids<'a>,
    members: &[Member<'a>],
) -> Result<(), NoMemory>
    requires ids { FindsIds message.now ids.now }
    requires carriers { AllByRecursion IsCarrier members.now }
    ensures { OnOk result (Adds lines.old lines.new (AreCarrierLines message.now 1 members.now)) }
{
    // Each payload has one value.
    alternatives_are_exact();
    let mut number = 0;
    let mut rest = members;
    while let [member, others @ ..] = rest {
        rest = others;
        if is_kind(member.kind, Kind::Alternative) {
            number += 1;
            let carrier = AlternativeParts::new(member.payload);
            let reference = carrier.reference();
            let index = index_of(message, ids, reference);
            push_link(lines, number, carrier.power(), reference, index)?;
        }
    }
    Ok(())
}

/// Appends the lines of the links of a message, the records in whose first handover are these.
pub(crate) fn push_link_lines<'a>(
    alloc: Global,
    lines: &mut Bytes,
    profile: Profile,
    message: &'a Message,
    first: Option<Vec<Member<'a>>>,
) -> Result<(), NoMemory>
    requires typed { AllByRecursion (IsTyped profile) message.now }
    requires first { FindsFirst profile message.now (option_map (λ m. m.items) first) }
    ensures { OnOk result (Adds lines.old lines.new (AreLinkLines profile message.now)) }
{
    let Some(members) = first else {
        return Ok(());
    };
    let ids = ids_of(alloc, message)?;
    push_carriers(lines, message, &ids, &members)
}

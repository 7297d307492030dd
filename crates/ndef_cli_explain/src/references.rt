//! The references of a handover's carriers, in JSON.
ghost use Rattle.std.specs.Prelude.{◌≡◌, ◌<◌, ◌^◌, IfSome, OnOk, Some, map, option_map};
ghost use Rattle.std.specs.List.{AllByRecursion};
ghost use Rattle.ndef_cli_explain.specs.Outputs.{array_of, with_pairs, with_value, with_values};
ghost use Rattle.ndef_cli_explain.specs.References.{AddsReferences, IsAmong, power_name};
ghost use Rattle.ndef_cli_explain.specs.References.{record_pairs, reference_object, reference_pairs};

use crate::output::Output;
use ndef_message::View;
use ndef_types::{Link, LinkError, Links, Power, carriers_view};
use ndef_value::NoMemory;

/// The name of a power state.
fn power_name(power: Power) -> &'static [u8]
    ensures { result.now ≡ power_name power }
{
    match power {
        Power::Inactive => b"inactive",
        Power::Active => b"active",
        Power::Activating => b"activating",
        Power::Unknown => b"unknown",
    }
}

/// Appends the member of the record to which a reference leads, if there is one.
fn push_record(out: &mut Output, index: Option<usize>) -> Result<(), NoMemory>
    requires { IfSome index (λ index. index < 2 ^ 32) }
    ensures { OnOk result (out.new ≡ with_pairs out.old (record_pairs index)) }
{
    match index {
        None => Ok(()),
        Some(index) => out.number_member(b"record", index as u64 + 1),
    }
}

/// Appends the object of a reference.
#[tactic(auto, using(crate::proofs::OutputParts::object_parts))]
fn push_reference(out: &mut Output, link: &Link) -> Result<(), NoMemory>
    requires { IsAmong (2 ^ 32) link.now }
    ensures { OnOk result (out.new ≡ with_value out.old (reference_object link.now)) }
{
    out.begin(b"{")?;
    out.string_member(b"power", power_name(link.ac.power()))?;
    push_record(out, link.index)?;
    out.quoted_member(b"reference", link.ac.reference().as_slice())?;
    out.end(b"}")
}

/// Appends the objects of references.
fn push_reference_objects(out: &mut Output, links: &Links) -> Result<(), NoMemory>
    requires { AllByRecursion (IsAmong (2 ^ 32)) links.now }
    ensures { OnOk result (out.new ≡ with_values out.old (map reference_object links.now)) }
{
    for link in links.iter() {
        push_reference(out, link)?;
    }
    Ok(())
}

/// Appends the array of the objects of references.
#[tactic(auto, using(crate::proofs::OutputParts::array_parts))]
fn push_reference_array(out: &mut Output, links: &Links) -> Result<(), NoMemory>
    requires { AllByRecursion (IsAmong (2 ^ 32)) links.now }
    ensures { OnOk result (out.new ≡ with_value out.old (array_of (map reference_object links.now))) }
{
    out.begin(b"[")?;
    push_reference_objects(out, links)?;
    out.end(b"]")
}

/// Appends the member of references, if there are some.
fn push_references(out: &mut Output, links: &Links) -> Result<(), NoMemory>
    requires { AllByRecursion (IsAmong (2 ^ 32)) links.now }
    ensures { OnOk result (out.new ≡ with_pairs out.old (reference_pairs links.now)) }
{
    if links.is_empty() {
        return Ok(());
    }
    out.name(b"references")?;
    push_reference_array(out, links)
}

/// Appends the member of the references of a message, if there are some.
fn push_references_of(out: &mut Output, message: &View<'_>) -> Result<(), NoMemory>
    ensures { OnOk result (AddsReferences (Some message.now) out.old out.new) }
{
    // For the proof alone.
    let _few = message.items();
    match carriers_view(out.alloc, message) {
        Ok(links) => {
            push_references(out, &links)?;
            Ok(())
        }
        Err(LinkError::Refused(_)) => Ok(()),
        Err(LinkError::NoMemory) => Err(NoMemory),
    }
}

/// Appends the member of the references of a message of few records, if there are some.
pub(crate) fn push_references_member(
    out: &mut Output,
    few: Option<&View<'_>>,
) -> Result<(), NoMemory>
    ensures { OnOk result (AddsReferences (option_map (λ message. message.now) few.entry) out.old out.new) }
{
    match few {
        None => Ok(()),
        Some(message) => push_references_of(out, message),
    }
}

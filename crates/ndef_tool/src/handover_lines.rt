//! The output for handover requests and selects.
ghost use Rattle.std.specs.Prelude.{◌≡◌, true, IfOk};
ghost use Rattle.ndef_value.specs.declared.limits.TheConstants.{MOST_RECORDS};
ghost use Rattle.ndef_format.specs.Nested.{table_of};
ghost use Rattle.ndef_format.specs.Payloads.{IsKindPayload};
ghost use Rattle.ndef_types.specs.Links.{is_handover};
ghost use Rattle.ndef_tool.specs.Members.{HasMembers};
ghost use Rattle.ndef_tool.specs.Showing.{Adds, PrintsValue, handover_word};

use crate::nested::{Member, count_of, members_of};
use ndef_cli::push_counted;
use ndef_lang::Kind;
use ndef_value::{Bytes, NoMemory, Profile};
use std::alloc::Global;

/// The text before the minor version of a handover.
fn handover_word(kind: Kind) -> &'static [u8]
    ensures { result.now ≡ handover_word kind }
{
    match kind {
        Kind::Request => b" request version 1.",
        _ => b" select version 1.",
    }
}

/// Appends the output for the payload of a handover: its minor version and its number of carriers. Returns its
/// records.
pub(crate) fn push_handover<'a>(
    alloc: Global,
    line: &mut Bytes,
    profile: Profile,
    kind: Kind,
    payload: &'a [u8],
) -> Result<Vec<Member<'a>>, NoMemory>
    requires kind { is_handover kind ≡ true }
    requires payload { IsKindPayload kind MOST_RECORDS profile payload.now }
    ensures members { IfOk result (λ members. HasMembers (table_of kind) profile payload.now members.items) }
    ensures printed { IfOk result (λ members. Adds line.old line.new (PrintsValue kind profile payload.now)) }
{
    let members = members_of(alloc, kind, payload)?;
    push_counted(line, handover_word(kind), u64::from(payload[0] - 0x10))?;
    push_counted(line, b" carriers ", count_of(&members, Kind::Alternative))?;
    Ok(members)
}

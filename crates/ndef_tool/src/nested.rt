//! The records of nested messages.
ghost use Rattle.std.specs.Prelude.{◌≡◌, [], IfOk, List, Some, map, option_map};
ghost use Rattle.std.specs.List.{AllByRecursion};
ghost use Rattle.ndef_format.specs.Messages.{SpellsPieces, all_pieces, run_record};
ghost use Rattle.ndef_format.specs.Nested.{table_in};
ghost use Rattle.ndef_format.specs.Records.{Run};
ghost use Rattle.ndef_format.specs.declared.table.Table.{Table};
ghost use Rattle.ndef_piece.specs.Steps.{inner_by};
ghost use Rattle.ndef_tool.specs.Members.{AreMembers, Counts, IsFirstMember};

use ndef_lang::Kind;
use ndef_piece::Walk;
use ndef_types::is_kind;
use ndef_value::NoMemory;
use std::alloc::Global;

/// A record of a nested message.
#[derive(Clone, Copy, Debug)]
pub(crate) struct Member<'a> {
    /// The kind of its payload there.
    pub(crate) kind: Kind,
    /// Its payload.
    pub(crate) payload: &'a [u8],
}

/// The records of the message in a payload of this kind, in order.
pub(crate) fn members_of(
    alloc: Global,
    kind: Kind,
    payload: &[u8],
) -> Result<Vec<Member<'_>>, NoMemory>
    ensures { (table : Table) (runs : List Run) → table_in kind ≡ Some table
        → AllByRecursion (λ r. r.later ≡ []) runs
        → SpellsPieces (all_pieces runs) (inner_by (Some table) payload.now)
        → IfOk result (λ members. AreMembers table (map run_record runs) members.items) }
{
    let mut members = Vec::new(alloc);
    let mut walk = Walk::of_payload(kind, payload);
    while let Some((step, next)) = walk.step() {
        members.push(Member {
            kind: step.kind,
            payload: step.piece.payload,
        })?;
        walk = next;
    }
    Ok(members)
}

/// The number of records of a kind.
pub(crate) fn count_of(members: &[Member<'_>], kind: Kind) -> u64
    ensures { Counts kind members.now result }
{
    let mut count = 0;
    let mut rest = members;
    while let [member, others @ ..] = rest {
        if is_kind(member.kind, kind) {
            count += 1;
        }
        rest = others;
    }
    count
}

/// The payload of the first record of a kind.
pub(crate) fn first_of<'a>(members: &[Member<'a>], kind: Kind) -> Option<&'a [u8]>
    ensures { IsFirstMember kind members.now (option_map (λ payload. payload.now) result) }
{
    let mut rest = members;
    while let [member, others @ ..] = rest {
        if is_kind(member.kind, kind) {
            return Some(member.payload);
        }
        rest = others;
    }
    None
}

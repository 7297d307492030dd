//! The records of nested messages.
ghost use Rattle.std.specs.Prelude.{◌≡◌, ◌<◌, ◌^◌, ◌↔◌, length, option_map, IsTrue, MatchOption};
ghost use Rattle.ndef_format.specs.Nested.{IsPayload};
ghost use Rattle.ndef_format.specs.declared.profile.Profile.TheVariants.{Strict};
ghost use Rattle.ndef_types.specs.Contents.{AreInOrder, IsFirstOf, IsFirstWrong, IsInOrder, IsOfKind, MayFollow};

use ndef_lang::{Kind, Language, Leaf, refusal_of};
use ndef_nest::Table;
use ndef_value::{Profile, Record};

/// Whether two kinds are one.
pub fn is_kind(kind: Kind, other: Kind) -> bool
    ensures { IsTrue result ↔ (kind ≡ other) }
{
    kind == other
}

/// The first record of a kind in a nested message.
pub(crate) fn first_of(table: Table, records: &[Record], kind: Kind) -> Option<&Record>
    ensures { IsFirstOf (IsOfKind table kind) records.now (option_map (λ r. r.now) result) }
{
    for item in records {
        if is_kind(table.kind(item.tnf(), item.kind()), kind) {
            return Some(item);
        }
    }
    None
}

/// Whether a record of the kind may follow others.
fn may_follow(table: Table, before: &[Record], kind: Kind) -> bool
    ensures { IsTrue result ↔ MayFollow table before.now kind }
{
    match table {
        Table::SmartPoster => {
            !is_kind(kind, Kind::Uri) || first_of(table, before, Kind::Uri).is_none()
        }
        Table::Request => !before.is_empty() || is_kind(kind, Kind::Collision),
        Table::Select => true,
    }
}

/// Whether the payload is one of the kind, as a strict reader takes it.
fn is_payload(kind: Kind, payload: &[u8]) -> bool
    requires { length payload.now < 2 ^ 32 }
    ensures { IsTrue result ↔ IsPayload kind Strict payload.now }
{
    Leaf::has(kind, 1, Profile::Strict, payload)
        || refusal_of::<Leaf>(kind, 1, Profile::Strict, payload).is_none()
}

/// Whether a record has a payload of its kind, as a strict reader takes it, and may follow
/// others.
fn is_in_order(table: Table, before: &[Record], item: &Record) -> bool
    ensures { IsTrue result ↔ IsInOrder table before.now item.now }
{
    let kind = table.kind(item.tnf(), item.kind());
    is_payload(kind, item.payload()) && may_follow(table, before, kind)
}

/// The index of the first record that isn't in order.
pub(crate) fn first_wrong(table: Table, records: &[Record]) -> Option<usize>
    ensures { MatchOption result (AreInOrder table records.now (length records.now)) (IsFirstWrong table records.now) }
{
    for (index, item) in records.iter().enumerate() {
        if !is_in_order(table, &records[..index], item) {
            return Some(index);
        }
    }
    None
}

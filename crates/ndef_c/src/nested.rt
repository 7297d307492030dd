//! Records of the messages in payloads, where they lie.
ghost use Rattle.std.specs.Prelude.{◌≡◌, List, length};
ghost use Rattle.ndef_format.specs.Messages.{Item};
ghost use Rattle.ndef_format.specs.declared.profile.Profile.{Profile};
ghost use Rattle.ndef_format.specs.Kinds.{kind_of};
ghost use Rattle.ndef_types.specs.Contents.{IsOfKind};
ghost use Rattle.ndef_types.specs.Links.{alternatives, is_alternative};
ghost use Rattle.ndef_c.specs.Nested.{MayBeInPieces, FirstLies};

use crate::query::{Expected, count_expected};
use crate::record::{part_in, tnf_in, type_in};
use crate::walk::Walk;
use ndef_lang::Kind;
use ndef_nest::Table;
use ndef_types::is_kind;
use ndef_value::Tnf;

/// The payload of a record in one piece, and where it lies.
#[derive(Clone, Copy)]
pub(crate) struct Found<'a> {
    /// The offset at which it begins.
    pub(crate) at: usize,
    /// Its bytes.
    pub(crate) payload: &'a [u8],
}

/// The payload of the first record of a kind in a nested message, each record of which is in one piece.
pub(crate) fn first_of(table: Table, bytes: &[u8], kind: Kind) -> Option<Found<'_>>
    requires { (profile : Profile) × (items : List Item) × MayBeInPieces profile items bytes.now }
    ensures { (profile : Profile) (items : List Item) → MayBeInPieces profile items bytes.now
        → FirstLies (IsOfKind table kind) items bytes.now result }
{
    for found in Walk::from(bytes, 0) {
        if is_kind(table.kind(tnf_in(&found), type_in(bytes, &found)), kind) {
            return Some(Found {
                at: found.payload_at,
                payload: part_in(bytes, &found),
            });
        }
    }
    None
}

/// Whether the records with a type are alternative carriers.
pub(crate) fn is_alternative(tnf: Tnf, kind: &[u8]) -> bool
    ensures { result ≡ is_alternative (kind_of tnf kind.now) }
{
    match Kind::of(tnf, kind) {
        Kind::Alternative => true,
        _ => false,
    }
}

/// The alternative carriers of a message.
pub(crate) struct Carriers;

impl Expected for Carriers {
    ghost expected = { λ tnf kind. is_alternative (kind_of tnf kind) };

    fn is_expected(tnf: Tnf, kind: &[u8]) -> bool {
        is_alternative(tnf, kind)
    }
}

/// The number of alternative carriers in a message, each record of which is in one piece.
pub(crate) fn alternatives_in(bytes: &[u8]) -> usize
    requires { (profile : Profile) × (items : List Item) × MayBeInPieces profile items bytes.now }
    ensures { (profile : Profile) (items : List Item) → MayBeInPieces profile items bytes.now
        → result ≡ length (alternatives items) }
{
    count_expected::<Carriers>(bytes)
}

//! The payloads of Handover Select records (Connection Handover 1.2).
ghost use Rattle.std.specs.Prelude.{◌≡◌, ◌≢◌, ◌<◌, ◌^◌, ◌↔◌, ◌⊎◌, List, length, drop, Option};
ghost use Rattle.ndef_format.specs.Messages.{Item};
ghost use Rattle.ndef_format.specs.declared.profile.Profile.{Profile};
ghost use Rattle.ndef_value.specs.declared.limits.TheConstants.{MOST_RECORDS};
ghost use Rattle.ndef_format.specs.declared.kind.Kind.TheVariants as kinds;
ghost use Rattle.ndef_format.specs.NestedReasons.{NestReason};
ghost use Rattle.ndef_format.specs.Nested.{IsNest};
ghost use Rattle.ndef_format.specs.declared.table.Table.TheVariants as tables;
ghost use Rattle.ndef_types.specs.Contents.{IsFirstOf, IsOfKind};
ghost use Rattle.ndef_c.specs.Checks.{profile_of};
ghost use Rattle.ndef_c.specs.Handovers.{AreHandoverContents, IsSelectAt, TellsError};
ghost use Rattle.ndef_c.specs.Payloads.{RefusesWith};

use crate::checking::NdefChecked;
use crate::handover::{after_version, version_of};
use crate::nested::{alternatives_in, first_of};
use crate::refusal::accepts;
use crate::status::{BAD_ARGUMENT, OK, REFUSED};
use ndef_lang::Kind;
use ndef_nest::{Nest, Table};

/// A handover select.
#[repr(C)]
#[derive(Clone, Copy, Drop)]
pub struct NdefSelect {
    /// Its alternative carriers.
    pub carriers: usize,
    /// The offset of the data of its error; 0 without one.
    pub detail_at: usize,
    /// The bytes of that data; 0 without one.
    pub detail_length: usize,
    /// The major version, which is 1.
    pub major: u32,
    /// The minor version, 0 to 15.
    pub minor: u32,
    /// 1 where it has an error, else 0.
    pub has_error: u32,
    /// The reason of that error, 0 to 255; 0 without one.
    pub error: u32,
}

/// An error, and where its data lies.
#[derive(Clone, Copy)]
struct Detail {
    /// 1 where there is one, else 0.
    has: u32,
    /// Its reason.
    reason: u32,
    /// The offset of its data.
    at: usize,
    /// The bytes of its data.
    length: usize,
}

/// The first error of a select.
fn error_in(payload: &[u8]) -> Detail
    requires nest { (profile : Profile) × IsNest tables.Select MOST_RECORDS profile payload.now }
    requires short { length payload.now < 2 ^ 32 }
    ensures { (profile : Profile) (items : List Item)
        → AreHandoverContents tables.Select profile items (drop 1 payload.now)
        → (error : Option Item) × IsFirstOf (IsOfKind tables.Select kinds.Error) items error
        × TellsError payload.now error result.has result.reason result.at result.length }
{
    let Some(found) = first_of(Table::Select, after_version(payload), Kind::Error) else {
        return Detail {
            has: 0,
            reason: 0,
            at: 0,
            length: 0,
        };
    };
    Detail {
        has: 1,
        reason: u32::from(found.payload[0]),
        at: found.at + 2,
        length: found.payload.len() - 1,
    }
}

/// The version of a select, its first error and its number of alternative carriers.
pub(crate) fn select_at(payload: &[u8]) -> NdefSelect
    requires nest { (profile : Profile) × IsNest tables.Select MOST_RECORDS profile payload.now }
    requires short { length payload.now < 2 ^ 32 }
    ensures { (profile : Profile) → IsNest tables.Select MOST_RECORDS profile payload.now
        → IsSelectAt profile payload.now result }
{
    let (major, minor) = version_of(payload);
    let error = error_in(payload);
    NdefSelect {
        carriers: alternatives_in(after_version(payload)),
        detail_at: error.at,
        detail_length: error.length,
        major,
        minor,
        has_error: error.has,
        error: error.reason,
    }
}

/// Gives the version of the handover select that the payload of a Handover Select record
/// describes, its error and its number of alternative carriers.
#[unsafe(no_mangle)]
pub extern "C" fn ndef_select(
    payload: &[u8],
    flags: u32,
    out: &mut NdefSelect,
    refusal: &mut NdefChecked,
) -> u32
    ensures bad { result ≡ BAD_ARGUMENT ↔ (1 < flags) }
    ensures known { (result ≡ OK) ⊎ (result ≡ REFUSED) ⊎ (result ≡ BAD_ARGUMENT) }
    ensures select { result ≡ OK → IsSelectAt (profile_of flags) payload.now out.new }
    ensures refused { result ≡ REFUSED → RefusesWith (IsNest tables.Select MOST_RECORDS (profile_of flags))
        (NestReason tables.Select MOST_RECORDS (profile_of flags)) payload.now refusal.new }
    ensures kept { result ≢ OK → out.new ≡ out.old }
    ensures kept_refusal { result ≢ REFUSED → refusal.new ≡ refusal.old }
{
    if flags > 1 {
        return BAD_ARGUMENT;
    }
    if !accepts::<Nest>(Kind::Select, flags, payload, refusal) {
        return REFUSED;
    }
    *out = select_at(payload);
    OK
}

//! The payloads of Handover Request records (Connection Handover 1.2).
ghost use Rattle.std.specs.Prelude.{◌≡◌, ◌≢◌, ◌<◌, ◌^◌, ◌↔◌, ◌⊎◌, List, length};
ghost use Rattle.ndef_format.specs.Messages.{Item};
ghost use Rattle.ndef_format.specs.declared.profile.Profile.{Profile};
ghost use Rattle.ndef_value.specs.declared.limits.TheConstants.{MOST_RECORDS};
ghost use Rattle.ndef_format.specs.NestedReasons.{NestReason};
ghost use Rattle.ndef_format.specs.Nested.{IsNest};
ghost use Rattle.ndef_format.specs.declared.table.Table.TheVariants as tables;
ghost use Rattle.ndef_types.specs.Handovers.{IsCollisionOf};
ghost use Rattle.ndef_c.specs.Checks.{profile_of};
ghost use Rattle.ndef_c.specs.Handovers.{AreHandoverContents, IsRequestAt};
ghost use Rattle.ndef_c.specs.Payloads.{RefusesWith};

use crate::checking::NdefChecked;
use crate::handover::{after_version, version_of};
use crate::nested::{alternatives_in, first_of};
use crate::numbers::number_in;
use crate::refusal::accepts;
use crate::status::{BAD_ARGUMENT, OK, REFUSED};
use ndef_lang::Kind;
use ndef_nest::{Nest, Table};

/// A handover request.
#[repr(C)]
#[derive(Clone, Copy, Drop)]
pub struct NdefRequest {
    /// Its alternative carriers.
    pub carriers: usize,
    /// The major version, which is 1.
    pub major: u32,
    /// The minor version, 0 to 15.
    pub minor: u32,
    /// The random number of its Collision Resolution record, 0 to 65535.
    pub collision: u32,
}

/// The random number of the first record of a request.
fn collision_of(message: &[u8]) -> u32
    requires { (profile : Profile) × (items : List Item)
        × AreHandoverContents tables.Request profile items message.now }
    ensures { (profile : Profile) (items : List Item) → AreHandoverContents tables.Request profile items message.now
        → IsCollisionOf items result }
{
    let Some(found) = first_of(Table::Request, message, Kind::Collision) else {
        unreachable!()
    };
    let Some(number) = number_in(Kind::Collision, found.payload) else {
        unreachable!()
    };
    number
}

/// The version of a request, its random number and its number of alternative carriers.
pub(crate) fn request_at(payload: &[u8]) -> NdefRequest
    requires nest { (profile : Profile) × IsNest tables.Request MOST_RECORDS profile payload.now }
    requires short { length payload.now < 2 ^ 32 }
    ensures { (profile : Profile) → IsNest tables.Request MOST_RECORDS profile payload.now
        → IsRequestAt profile payload.now result }
{
    let message = after_version(payload);
    let (major, minor) = version_of(payload);
    NdefRequest {
        carriers: alternatives_in(message),
        major,
        minor,
        collision: collision_of(message),
    }
}

/// Gives the version of the handover request that the payload of a Handover Request record describes, its random
/// number and its number of alternative carriers.
#[unsafe(no_mangle)]
pub extern "C" fn ndef_request(
    payload: &[u8],
    flags: u32,
    out: &mut NdefRequest,
    refusal: &mut NdefChecked,
) -> u32
    ensures bad { result ≡ BAD_ARGUMENT ↔ (1 < flags) }
    ensures known { (result ≡ OK) ⊎ (result ≡ REFUSED) ⊎ (result ≡ BAD_ARGUMENT) }
    ensures request { result ≡ OK → IsRequestAt (profile_of flags) payload.now out.new }
    ensures refused { result ≡ REFUSED → RefusesWith (IsNest tables.Request MOST_RECORDS (profile_of flags))
        (NestReason tables.Request MOST_RECORDS (profile_of flags)) payload.now refusal.new }
    ensures kept { result ≢ OK → out.new ≡ out.old }
    ensures kept_refusal { result ≢ REFUSED → refusal.new ≡ refusal.old }
{
    if flags > 1 {
        return BAD_ARGUMENT;
    }
    if !accepts::<Nest>(Kind::Request, flags, payload, refusal) {
        return REFUSED;
    }
    *out = request_at(payload);
    OK
}

//! Refusals as numbers.
ghost use Rattle.std.specs.Prelude.{◌≡◌, ◌<◌, ◌^◌, ◌↔◌, false, length, IsTrue};
ghost use Rattle.ndef_format.specs.Reasons.{reason_number};
ghost use Rattle.ndef_value.specs.declared.limits.TheConstants.{MOST_RECORDS};
ghost use Rattle.ndef_c.specs.Checks.{profile_of};
ghost use Rattle.ndef_c.specs.Payloads.{RefusesWith};

use crate::checking::NdefChecked;
use crate::limits::profile_of;
use crate::status::REFUSED;
use ndef_lang::{Kind, Language};
use ndef_types::accept;
use ndef_value::{Profile, Refusal};

/// A refusal as numbers.
pub(crate) fn refused_by(refusal: Refusal) -> NdefChecked
    ensures place { result.place ≡ refusal.at }
    ensures records { result.records ≡ 0 }
    ensures reason { result.reason ≡ reason_number refusal.reason }
{
    NdefChecked {
        place: refusal.at,
        records: 0,
        reason: u32::from(refusal.reason.number()),
    }
}

/// Writes a refusal, and returns the status of refused bytes.
pub(crate) fn refuse(refusal: Refusal, out: &mut NdefChecked) -> u32
    ensures place { out.new.place ≡ refusal.at }
    ensures records { out.new.records ≡ 0 }
    ensures reason { out.new.reason ≡ reason_number refusal.reason }
    ensures refused { result ≡ REFUSED }
{
    *out = refused_by(refusal);
    REFUSED
}

/// Whether the payload is one of the kind, as the profile reads it.
pub(crate) fn is_payload<L: Language>(kind: Kind, profile: Profile, payload: &[u8]) -> bool
    ensures { IsTrue result ↔ (L.payloads kind MOST_RECORDS profile payload.now × (length payload.now < 2 ^ 32)) }
{
    match accept::<L>(kind, profile, payload) {
        Ok(()) => true,
        Err(_) => false,
    }
}

/// Whether the payload is one of the kind, as the profile that the flags ask for reads it. If not, writes its refusal.
pub(crate) fn accepts<L: Language>(
    kind: Kind,
    flags: u32,
    payload: &[u8],
    refusal: &mut NdefChecked,
) -> bool
    ensures payload { IsTrue result → L.payloads kind MOST_RECORDS (profile_of flags) payload.now }
    ensures short { IsTrue result → length payload.now < 2 ^ 32 }
    ensures refused { result ≡ false → RefusesWith (L.payloads kind MOST_RECORDS (profile_of flags))
        (L.reasons kind MOST_RECORDS (profile_of flags)) payload.now refusal.new }
    ensures kept { IsTrue result → refusal.new ≡ refusal.old }
{
    match accept::<L>(kind, profile_of(flags), payload) {
        Ok(()) => true,
        Err(found) => {
            *refusal = refused_by(found);
            false
        }
    }
}

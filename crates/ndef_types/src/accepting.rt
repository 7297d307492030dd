//! Whether a payload is in the set of its type (NDEF 1.0, PAYLOAD_LENGTH; the sets are ndef_lang's).
ghost use Rattle.std.specs.Prelude.{◌^◌, ◌<◌, length, OnOk, IfErr};
ghost use Rattle.ndef_format.specs.Messages.{run_record};
ghost use Rattle.ndef_value.specs.declared.limits.TheConstants.{MOST_RECORDS};
ghost use Rattle.ndef_types.specs.Decoding.{RefusesPayload};

use ndef_lang::{Kind, Language, refusal_of};
use ndef_message::Item;
use ndef_value::{MOST_PAYLOAD, MOST_RECORDS, Profile, Reason, Refusal};

/// The greatest length of a payload, in bytes: the most that the four octets of PAYLOAD_LENGTH can
/// hold.
pub(crate) const MOST: usize = MOST_PAYLOAD as usize;

/// Returns `Ok` if the payload is in the set of its kind and of at most 4294967295 bytes, else the place and
/// the reason of its refusal.
#[inline(always)]
pub fn accept<L: Language>(kind: Kind, profile: Profile, payload: &[u8]) -> Result<(), Refusal>
    ensures ok { OnOk result ((length payload.now < 2 ^ 32) × L.payloads kind MOST_RECORDS profile payload.now) }
    ensures err { IfErr result
        (RefusesPayload (L.payloads kind MOST_RECORDS profile) (L.reasons kind MOST_RECORDS profile) payload.now) }
{
    if payload.len() > MOST {
        return Err(Refusal {
            at: 0,
            reason: Reason::DoesNotFit,
        });
    }
    if L::has(kind, MOST_RECORDS, profile, payload) {
        return Ok(());
    }
    match refusal_of::<L>(kind, MOST_RECORDS, profile, payload) {
        Some(refusal) => Err(refusal),
        None => Ok(()),
    }
}

/// Returns the result of `accept` for the payload of a record that is viewed, whose pieces are judged in place.
pub(crate) fn accept_item<L: Language>(
    kind: Kind,
    profile: Profile,
    item: &Item<'_>,
) -> Result<(), Refusal>
    ensures ok { OnOk result (let payload = (run_record item.now).payload in
        (length payload < 2 ^ 32) × L.payloads kind MOST_RECORDS profile payload) }
    ensures err { IfErr result (RefusesPayload (L.payloads kind MOST_RECORDS profile)
        (L.reasons kind MOST_RECORDS profile) (run_record item.now).payload) }
{
    if let Some(payload) = item.whole() {
        return accept::<L>(kind, profile, payload);
    }
    let mut state = L::start(kind, MOST_RECORDS, profile);
    let mut left = u64::from(item.length());
    if !state.fits(left, left) {
        return Err(Refusal {
            at: 0,
            reason: Reason::DoesNotFit,
        });
    }
    let mut at = 0;
    for piece in item.pieces() {
        let count = state.step_all(piece, left, left);
        at += count as u64;
        if count < piece.len() {
            return Err(Refusal {
                at,
                reason: state.reason(),
            });
        }
        left -= count as u64;
    }
    Ok(())
}

//! The payloads of Alternative Carrier records (Connection Handover 1.2).
ghost use Rattle.std.specs.Prelude.{◌≡◌, ◌≢◌, ◌<◌, ◌≤◌, ◌+◌, ◌^◌, ◌↔◌, ◌⊎◌, length, slice_index, IfNone, IfSome};
ghost use Rattle.ndef_format.specs.Handovers.{IsAlternative};
ghost use Rattle.ndef_format.specs.Reasons.{NoReason};
ghost use Rattle.ndef_types.specs.Values.{AcValue, StandsForAc};
ghost use Rattle.ndef_c.specs.Alternatives.{HasNoReference, IsAlternativeAt, IsReferencePart, IsReferenceAt, LiesAt, reference_place, references};
ghost use Rattle.ndef_c.specs.HandoverItems.{references_of};
ghost use Rattle.ndef_c.specs.Payloads.{RefusesWith};

use crate::checking::NdefChecked;
use crate::part::NdefPart;
use crate::refusal::{accepts, is_payload};
use crate::status::{BAD_ARGUMENT, END, OK, REFUSED};
use ndef_lang::{Kind, Leaf};
use ndef_types::{AlternativeParts, alternatives_are_exact};
use ndef_value::Profile;

/// An alternative carrier.
#[repr(C)]
#[derive(Clone, Copy, Drop)]
pub struct NdefAlternative {
    /// The power state of the carrier, 0 to 3.
    pub power: u32,
    /// The number of references, 1 to 256: the carrier data reference and the auxiliary ones.
    pub references: u32,
}

/// The power state of an alternative carrier, and its number of references.
fn alternative_at(payload: &[u8]) -> NdefAlternative
    requires alternative { IsAlternative payload.now }
    requires short { length payload.now < 2 ^ 32 }
    ensures { IsAlternativeAt payload.now result }
{
    // For the proof alone.
    alternatives_are_exact();
    let parts = AlternativeParts::new(payload);
    NdefAlternative {
        power: u32::from(parts.power().code()),
        references: 1 + parts.auxiliary_count() as u32,
    }
}

/// Gives the power state of the alternative carrier that the payload of an Alternative Carrier
/// record describes, and its number of references.
#[unsafe(no_mangle)]
pub extern "C" fn ndef_alternative(
    payload: &[u8],
    out: &mut NdefAlternative,
    refusal: &mut NdefChecked,
) -> u32
    ensures known { (result ≡ OK) ⊎ (result ≡ REFUSED) }
    ensures alternative { result ≡ OK → IsAlternativeAt payload.now out.new }
    ensures refused { result ≡ REFUSED → RefusesWith IsAlternative (λ s b. NoReason) payload.now refusal.new }
    ensures kept { result ≡ REFUSED → out.new ≡ out.old }
    ensures kept_refusal { result ≡ OK → refusal.new ≡ refusal.old }
{
    if !accepts::<Leaf>(Kind::Alternative, 0, payload, refusal) {
        return REFUSED;
    }
    *out = alternative_at(payload);
    OK
}

/// The reference after its length octet, at an offset.
pub(crate) fn counted_at(payload: &[u8], at: usize) -> NdefPart
    requires { at < length payload.now }
    ensures at { result.at ≡ at + 1 }
    ensures length { result.length ≡ slice_index payload.now at }
{
    NdefPart {
        at: at + 1,
        length: usize::from(payload[at]),
    }
}

/// The number of references of an alternative carrier.
pub(crate) fn references_in(payload: &[u8]) -> usize
    requires { IsAlternative payload.now }
    ensures count { result ≡ references_of payload.now }
    ensures few { result ≤ 256 }
{
    1 + usize::from(payload[2 + usize::from(payload[1])])
}

/// The auxiliary reference with an index of at most their count.
fn auxiliary_at(payload: &[u8], index: usize) -> NdefPart
    requires alternative { IsAlternative payload.now }
    requires index { index < slice_index payload.now (2 + slice_index payload.now 1) }
    ensures lies { (v : AcValue) → StandsForAc payload.now v → LiesAt payload.now v.auxiliary index result }
    ensures place { (v : AcValue) → StandsForAc payload.now v
        → result.at ≡ reference_place (references v) (index + 1) }
{
    let mut at = 3 + usize::from(payload[1]);
    for _before in 0..index {
        at += 1 + usize::from(payload[at]);
    }
    counted_at(payload, at)
}

/// The reference with an index, 0 the carrier data reference.
fn reference_at(payload: &[u8], index: usize) -> Option<NdefPart>
    requires { IsAlternative payload.now }
    ensures none { (v : AcValue) → StandsForAc payload.now v
        → IfNone result (length (references v) ≤ index) }
    ensures some { (v : AcValue) → StandsForAc payload.now v
        → IfSome result (IsReferencePart payload.now v index) }
{
    if index == 0 {
        return Some(counted_at(payload, 1));
    }
    let count = usize::from(payload[2 + usize::from(payload[1])]);
    if index > count {
        return None;
    }
    Some(auxiliary_at(payload, index - 1))
}

/// Gives the place of the reference with an index, if there is one.
fn give_reference(payload: &[u8], index: usize, out: &mut NdefPart) -> u32
    requires alternative { IsAlternative payload.now }
    requires short { length payload.now < 2 ^ 32 }
    ensures known { (result ≡ OK) ⊎ (result ≡ END) }
    ensures reference { result ≡ OK → IsReferenceAt payload.now index out.new }
    ensures end { result ≡ END → HasNoReference payload.now index }
    ensures kept { result ≢ OK → out.new ≡ out.old }
{
    // For the proof alone.
    alternatives_are_exact();
    match reference_at(payload, index) {
        Some(part) => {
            *out = part;
            OK
        }
        None => END,
    }
}

/// Gives the offset of the reference with an index in the payload of an Alternative Carrier record:
/// 0 is the carrier data reference, and the auxiliary ones follow.
#[unsafe(no_mangle)]
pub extern "C" fn ndef_reference(payload: &[u8], index: usize, out: &mut NdefPart) -> u32
    ensures known { (result ≡ OK) ⊎ (result ≡ END) ⊎ (result ≡ BAD_ARGUMENT) }
    ensures bad { result ≡ BAD_ARGUMENT ↔ ¬ (IsAlternative payload.now × (length payload.now < 2 ^ 32)) }
    ensures reference { result ≡ OK → IsReferenceAt payload.now index out.new }
    ensures end { result ≡ END → HasNoReference payload.now index }
    ensures kept { result ≢ OK → out.new ≡ out.old }
{
    if !is_payload::<Leaf>(Kind::Alternative, Profile::Strict, payload) {
        return BAD_ARGUMENT;
    }
    give_reference(payload, index, out)
}

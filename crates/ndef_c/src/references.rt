//! The places of all references of an alternative carrier (Connection Handover 1.2, Alternative Carrier record).
ghost use Rattle.std.specs.Prelude.{◌≡◌, ◌≢◌, ◌<◌, ◌+◌, ◌^◌, ◌↔◌, length, slice_index, List};
ghost use Rattle.ndef_format.specs.Handovers.{IsAlternative};
ghost use Rattle.ndef_types.specs.Values.{AcValue, StandsForAc};
ghost use Rattle.ndef_c.specs.Alternatives.{GivesReferences, IsReferencePart, references};
ghost use Rattle.ndef_c.specs.Arrays.{EachAt, set_over};
ghost use Rattle.ndef_c.specs.declared.part.NdefPart.{NdefPart as Part};

use crate::alternative::counted_at;
use crate::part::NdefPart;
use crate::refusal::is_payload;
use crate::status::{BAD_ARGUMENT, BUFFER_TOO_SMALL, OK};
use ndef_lang::{Kind, Leaf};
use ndef_types::alternatives_are_exact;
use ndef_value::Profile;

/// Writes where each reference lies to the front of the parts.
fn tell_references(payload: &[u8], parts: &mut [NdefPart])
    requires alternative { IsAlternative payload.now }
    requires buffer { slice_index payload.now (2 + slice_index payload.now 1) < length parts.old }
    ensures { (v : AcValue) → StandsForAc payload.now v
        → (reported : List Part) × EachAt (IsReferencePart payload.now v) 0 reported
        × (length reported ≡ length (references v)) × (parts.new ≡ set_over reported parts.old) }
{
    let first = usize::from(payload[1]);
    let count = usize::from(payload[2 + first]);
    let mut at = 3 + first;
    parts[0] = counted_at(payload, 1);
    for before in 0..count {
        let part = counted_at(payload, at);
        at = part.at + part.length;
        parts[before + 1] = part;
    }
}

/// Gives the place of each reference, where the parts are enough, and their number.
fn give_references(payload: &[u8], parts: &mut [NdefPart], count: &mut usize) -> u32
    requires alternative { IsAlternative payload.now }
    requires short { length payload.now < 2 ^ 32 }
    ensures { GivesReferences payload.now parts.old parts.new count.new result }
{
    // For the proof alone.
    alternatives_are_exact();
    let needed = 1 + usize::from(payload[2 + usize::from(payload[1])]);
    *count = needed;
    if parts.len() < needed {
        return BUFFER_TOO_SMALL;
    }
    tell_references(payload, parts);
    OK
}

/// Gives the offset of each reference in the payload of an Alternative Carrier record: the carrier data reference
/// first, then the auxiliary ones.
#[unsafe(no_mangle)]
pub extern "C" fn ndef_references(payload: &[u8], parts: &mut [NdefPart], count: &mut usize) -> u32
    ensures bad { result ≡ BAD_ARGUMENT ↔ ¬ (IsAlternative payload.now × (length payload.now < 2 ^ 32)) }
    ensures kept { result ≡ BAD_ARGUMENT → (parts.new ≡ parts.old) × (count.new ≡ count.old) }
    ensures references { result ≢ BAD_ARGUMENT
        → GivesReferences payload.now parts.old parts.new count.new result }
{
    if !is_payload::<Leaf>(Kind::Alternative, Profile::Strict, payload) {
        return BAD_ARGUMENT;
    }
    give_references(payload, parts, count)
}

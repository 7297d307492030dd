//! The payloads of Handover Carrier records (Connection Handover 1.2).
ghost use Rattle.std.specs.Prelude.{◌≡◌, ◌<◌, ◌^◌, ◌↔◌, ◌⊎◌, length, IsTrue};
ghost use Rattle.ndef_format.specs.Handovers.{IsCarrier};
ghost use Rattle.ndef_format.specs.Reasons.{NoReason};
ghost use Rattle.ndef_types.specs.Values.{WritesCarrier};
ghost use Rattle.ndef_c.specs.Carriers.{IsCarrierAt, MayBeCarrier, carrier_of};
ghost use Rattle.ndef_c.specs.Payloads.{GivesFor, RefusesWith};

use crate::buffer::give_parts;
use crate::checking::NdefChecked;
use crate::refusal::accepts;
use crate::status::{BAD_ARGUMENT, OK, REFUSED};
use ndef_lang::{Kind, Leaf};
use ndef_types::CarrierParts;

/// A handover carrier, by offsets and lengths in its payload.
#[repr(C)]
#[derive(Clone, Copy, Drop)]
pub struct NdefCarrier {
    /// The offset of the carrier type.
    pub type_at: usize,
    /// The bytes of the carrier type, at most 255.
    pub type_length: usize,
    /// The offset of the carrier data.
    pub data_at: usize,
    /// The bytes of the carrier data.
    pub data_length: usize,
    /// The carrier type format, 0 to 7.
    pub format: u32,
}

/// Returns the offsets and lengths of the parts of a carrier in its payload.
fn carrier_at(payload: &[u8]) -> NdefCarrier
    requires carrier { IsCarrier payload.now }
    requires short { length payload.now < 2 ^ 32 }
    ensures { IsCarrierAt payload.now result }
{
    let parts = CarrierParts::new(payload);
    let type_length = parts.kind().len();
    NdefCarrier {
        type_at: 2,
        type_length,
        data_at: 2 + type_length,
        data_length: parts.carried().len(),
        format: u32::from(parts.format()),
    }
}

/// Gives the offsets of the parts of the carrier that the payload of a Handover Carrier record describes.
#[unsafe(no_mangle)]
pub extern "C" fn ndef_carrier(
    payload: &[u8],
    out: &mut NdefCarrier,
    refusal: &mut NdefChecked,
) -> u32
    ensures known { (result ≡ OK) ⊎ (result ≡ REFUSED) }
    ensures carrier { result ≡ OK → IsCarrierAt payload.now out.new }
    ensures refused { result ≡ REFUSED → RefusesWith IsCarrier (λ s b. NoReason) payload.now refusal.new }
    ensures kept { result ≡ REFUSED → out.new ≡ out.old }
    ensures kept_refusal { result ≡ OK → refusal.new ≡ refusal.old }
{
    if !accepts::<Leaf>(Kind::Carrier, 0, payload, refusal) {
        return REFUSED;
    }
    *out = carrier_at(payload);
    OK
}

/// Whether a carrier of these parts may be written.
fn may_be_carrier(format: u32, kind: &[u8], carried: &[u8]) -> bool
    ensures { IsTrue result ↔ MayBeCarrier format kind.now carried.now }
{
    format < 8 && kind.len() < 256 && carried.len() <= u32::MAX as usize - 2 - kind.len()
}

/// Writes the payload of a Handover Carrier record, its reserved bits 0, to the buffer.
#[unsafe(no_mangle)]
pub extern "C" fn ndef_write_carrier(
    format: u32,
    kind: &[u8],
    carried: &[u8],
    buffer: &mut [u8],
    count: &mut usize,
) -> u32
    ensures bad { result ≡ BAD_ARGUMENT ↔ ¬ MayBeCarrier format kind.now carried.now }
    ensures kept { result ≡ BAD_ARGUMENT → (buffer.new ≡ buffer.old) × (count.new ≡ count.old) }
    ensures payload { MayBeCarrier format kind.now carried.now
        → GivesFor WritesCarrier (carrier_of format kind.now carried.now) buffer.old buffer.new count.new result }
{
    if !may_be_carrier(format, kind, carried) {
        return BAD_ARGUMENT;
    }
    give_parts(
        &[format as u8, kind.len() as u8],
        kind,
        carried,
        buffer,
        count,
    )
}

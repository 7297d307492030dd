//! The payloads of Error records (Connection Handover 1.2).
ghost use Rattle.std.specs.Prelude.{◌≡◌, ◌<◌, ◌^◌, ◌⊎◌, length};
ghost use Rattle.ndef_format.specs.Handovers.{IsError, IsErrorData};
ghost use Rattle.ndef_format.specs.Reasons.{NoReason};
ghost use Rattle.ndef_c.specs.Errors.{IsErrorAt, number_reported};
ghost use Rattle.ndef_c.specs.Payloads.{RefusesWith};

use crate::checking::NdefChecked;
use crate::poster::reported;
use crate::refusal::accepts;
use crate::status::{OK, REFUSED};
use ndef_lang::{Kind, Leaf};
use ndef_types::{ErrorParts, errors_are_exact};

/// A handover error, its data by their offset and length in its payload.
#[repr(C)]
#[derive(Clone, Copy, Drop)]
pub struct NdefError {
    /// The offset of the data.
    pub data_at: usize,
    /// The bytes of the data.
    pub data_length: usize,
    /// The reason, 0 to 255.
    pub reason: u32,
    /// 1 where the reason is one of those that the standard defines, 1 to 3, else 0.
    pub has_number: u32,
    /// The number that the data of such a reason give; 0 with another one.
    pub number: u32,
}

/// The number that the data of a defined reason give.
fn number_of(reason: u8, detail: &[u8]) -> Option<u32>
    requires { IsErrorData reason detail.now }
    ensures { result ≡ number_reported reason detail.now }
{
    match (reason, detail) {
        (1 | 3, [number]) => Some(u32::from(*number)),
        (2, [a, b, c, d]) => Some(u32::from_be_bytes([*a, *b, *c, *d])),
        _ => None,
    }
}

/// The reason of an error, where its data lie, and the number that they give.
fn error_at(payload: &[u8]) -> NdefError
    requires error { IsError payload.now }
    requires short { length payload.now < 2 ^ 32 }
    ensures { IsErrorAt payload.now result }
{
    // For the proof alone.
    errors_are_exact();
    let parts = ErrorParts::new(payload);
    let (reason, detail) = (parts.reason(), parts.detail());
    let (has_number, number) = reported(number_of(reason, detail));
    NdefError {
        data_at: 1,
        data_length: detail.len(),
        reason: u32::from(reason),
        has_number,
        number,
    }
}

/// Gives the reason of the error that the payload of an Error record describes, where its data
/// lie, and the number that they give.
#[unsafe(no_mangle)]
pub extern "C" fn ndef_error(payload: &[u8], out: &mut NdefError, refusal: &mut NdefChecked) -> u32
    ensures known { (result ≡ OK) ⊎ (result ≡ REFUSED) }
    ensures error { result ≡ OK → IsErrorAt payload.now out.new }
    ensures refused { result ≡ REFUSED → RefusesWith IsError (λ s b. NoReason) payload.now refusal.new }
    ensures kept { result ≡ REFUSED → out.new ≡ out.old }
    ensures kept_refusal { result ≡ OK → refusal.new ≡ refusal.old }
{
    if !accepts::<Leaf>(Kind::Error, 0, payload, refusal) {
        return REFUSED;
    }
    *out = error_at(payload);
    OK
}

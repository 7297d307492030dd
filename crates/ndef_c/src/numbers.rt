//! The payloads that say one number: those of Action and Size records (RTD Smart Poster 1.0) and of Collision
//! Resolution records (Connection Handover 1.2).
ghost use Rattle.std.specs.Prelude.{◌≡◌, ◌≢◌, ◌<◌, ◌≤◌, ◌↔◌, ◌⊎◌, length, None, Some, IfNone, IfSome};
ghost use Rattle.ndef_format.specs.declared.kind.Kind.TheVariants as kinds;
ghost use Rattle.ndef_c.specs.Numbers.{RefusesNumber, WritesNumber, number_kind, number_size};
ghost use Rattle.ndef_c.specs.Payloads.{GivesFor};

use crate::buffer::give;
use crate::checking::NdefChecked;
use crate::refusal::refuse;
use crate::status::{BAD_ARGUMENT, OK, REFUSED};
use ndef_lang::Kind;
use ndef_value::{Reason, Refusal};

/// The kind with a number, if its payloads are one number.
fn number_kind(kind: u32) -> Option<Kind>
    ensures { result ≡ number_kind kind }
{
    match kind {
        7 => Some(Kind::Action),
        8 => Some(Kind::Size),
        11 => Some(Kind::Collision),
        _ => None,
    }
}

/// The number that a payload of a kind is, if it has as many octets.
pub(crate) fn number_in(kind: Kind, payload: &[u8]) -> Option<u32>
    ensures none { IfNone result (number_size kind ≢ Some (length payload.now)) }
    ensures some { IfSome result (λ number. WritesNumber kind number payload.now) }
{
    match (kind, payload) {
        (Kind::Action, [a]) => Some(u32::from(*a)),
        (Kind::Size, [a, b, c, d]) => Some(u32::from_be_bytes([*a, *b, *c, *d])),
        (Kind::Collision, [a, b]) => Some(u32::from(u16::from_be_bytes([*a, *b]))),
        _ => None,
    }
}

/// Gives the number that the payload of an Action, a Size or a Collision Resolution record is; `kind` is the number of
/// the kind, as `ndef_kind` gives it.
///
/// - `REFUSED`: the payload has more or fewer octets. The offset of the refusal is 0, since no payload of that length
///   is one of the kind.
/// - `BAD_ARGUMENT`: payloads of the kind are no number.
#[unsafe(no_mangle)]
pub extern "C" fn ndef_number(
    kind: u32,
    payload: &[u8],
    out: &mut u32,
    refusal: &mut NdefChecked,
) -> u32
    ensures bad { result ≡ BAD_ARGUMENT ↔ (number_kind kind ≡ None) }
    ensures known { (result ≡ OK) ⊎ (result ≡ REFUSED) ⊎ (result ≡ BAD_ARGUMENT) }
    ensures number { result ≡ OK → IfSome (number_kind kind) (λ k. WritesNumber k out.new payload.now) }
    ensures refused { result ≡ REFUSED → IfSome (number_kind kind) (λ k. RefusesNumber k payload.now refusal.new) }
    ensures kept { result ≢ OK → out.new ≡ out.old }
    ensures kept_refusal { result ≢ REFUSED → refusal.new ≡ refusal.old }
{
    let Some(kind) = number_kind(kind) else {
        return BAD_ARGUMENT;
    };
    let Some(number) = number_in(kind, payload) else {
        let reason = Reason::DoesNotFit;
        return refuse(Refusal { at: 0, reason }, refusal);
    };
    *out = number;
    OK
}

/// Writes the payload of an Action record, one octet, to the buffer.
#[unsafe(no_mangle)]
pub extern "C" fn ndef_write_action(action: u32, buffer: &mut [u8], count: &mut usize) -> u32
    ensures bad { result ≡ BAD_ARGUMENT ↔ (255 < action) }
    ensures kept { result ≡ BAD_ARGUMENT → (buffer.new ≡ buffer.old) × (count.new ≡ count.old) }
    ensures payload { action ≤ 255
        → GivesFor (WritesNumber kinds.Action) action buffer.old buffer.new count.new result }
{
    if action > 255 {
        return BAD_ARGUMENT;
    }
    give(&[action as u8], buffer, count)
}

/// Writes the payload of a Size record, four octets, to the buffer.
#[unsafe(no_mangle)]
pub extern "C" fn ndef_write_size(bytes: u32, buffer: &mut [u8], count: &mut usize) -> u32
    ensures { GivesFor (WritesNumber kinds.Size) bytes buffer.old buffer.new count.new result }
{
    give(&bytes.to_be_bytes(), buffer, count)
}

/// Writes the payload of a Collision Resolution record, two octets, to the buffer.
#[unsafe(no_mangle)]
pub extern "C" fn ndef_write_collision(number: u32, buffer: &mut [u8], count: &mut usize) -> u32
    ensures bad { result ≡ BAD_ARGUMENT ↔ (65535 < number) }
    ensures kept { result ≡ BAD_ARGUMENT → (buffer.new ≡ buffer.old) × (count.new ≡ count.old) }
    ensures payload { number ≤ 65535
        → GivesFor (WritesNumber kinds.Collision) number buffer.old buffer.new count.new result }
{
    if number > 65535 {
        return BAD_ARGUMENT;
    }
    give(&(number as u16).to_be_bytes(), buffer, count)
}

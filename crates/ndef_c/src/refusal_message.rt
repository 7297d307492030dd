//! The reason why bytes are refused, in sentences.
ghost use Rattle.std.specs.Prelude.{◌≡◌, ◌≢◌, ◌≤◌, ◌⊎◌, ◌↔◌, IfNone, IfSome};
ghost use Rattle.ndef_format.specs.NestedReasons.{TypedReason};
ghost use Rattle.ndef_format.specs.Payloads.{IsTypedPayload};
ghost use Rattle.ndef_format.specs.Refusals.{Refuses};
ghost use Rattle.ndef_diagnostics.specs.Hints.{BeginsWithMessage};
ghost use Rattle.ndef_c.specs.Checks.{limits_of};
ghost use Rattle.ndef_c.specs.Fields.{MayTellFields};
ghost use Rattle.ndef_c.specs.RefusalMessages.{GivesRefusalMessage};

use crate::buffer::give;
use crate::fields::typed_limits;
use crate::limits::NdefLimits;
use crate::status::{BAD_ARGUMENT, BUFFER_TOO_SMALL, END, OK};
use ndef_diagnostics::expected_at;
use ndef_message::view;
use ndef_nest::Typed;
use ndef_value::{Limits, Refusal};

/// Returns the place and the reason of the refusal of the bytes; None if they begin with a message.
pub(crate) fn refusal_of(bytes: &[u8], limits: Limits) -> Option<Refusal>
    ensures some { IfSome result (Refuses IsTypedPayload TypedReason limits bytes.now) }
    ensures none { IfNone result (BeginsWithMessage limits bytes.now) }
{
    match view::<Typed>(bytes, limits) {
        Ok(_) => None,
        Err(refusal) => Some(refusal),
    }
}

/// Writes why the bytes are refused to the buffer.
fn give_refusal_message(bytes: &[u8], limits: Limits, buffer: &mut [u8], count: &mut usize) -> u32
    ensures known { (result ≡ OK) ⊎ (result ≡ BUFFER_TOO_SMALL) ⊎ (result ≡ END) }
    ensures message { GivesRefusalMessage limits bytes.now buffer.old buffer.new count.old count.new result }
    ensures short { result ≢ END → count.new ≤ 192 }
{
    match refusal_of(bytes, limits) {
        Some(refusal) => {
            let sentence = expected_at(bytes, refusal).sentence(refusal.reason);
            give(sentence.as_slice(), buffer, count)
        }
        None => END,
    }
}

/// Writes why the bytes are refused to the buffer: a sentence of English that states what was wanted, in ASCII and with
/// no NUL after it.
#[unsafe(no_mangle)]
pub extern "C" fn ndef_refusal_message(
    bytes: &[u8],
    limits: &NdefLimits,
    buffer: &mut [u8],
    count: &mut usize,
) -> u32
    ensures bad { result ≡ BAD_ARGUMENT ↔ ¬ MayTellFields limits.now }
    ensures kept { result ≡ BAD_ARGUMENT → (buffer.new ≡ buffer.old) × (count.new ≡ count.old) }
    ensures message { result ≢ BAD_ARGUMENT
        → GivesRefusalMessage (limits_of limits.now) bytes.now buffer.old buffer.new count.old count.new result }
    ensures short { (result ≡ OK) ⊎ (result ≡ BUFFER_TOO_SMALL) → count.new ≤ 192 }
{
    let Some(limits) = typed_limits(limits) else {
        return BAD_ARGUMENT;
    };
    give_refusal_message(bytes, limits, buffer, count)
}

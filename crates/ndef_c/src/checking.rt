//! Checks the message at the front of some bytes.
ghost use Rattle.std.specs.Prelude.{◌≡◌, ◌↔◌};
ghost use Rattle.ndef_c.specs.Checks.{ChecksPayloads, ChecksTo, LeavesPayloads, MayBeSet, limits_of};

use crate::limits::{NdefLimits, limits_of};
use crate::refusal::refuse;
use crate::status::{BAD_ARGUMENT, OK};
use ndef_lang::{Opaque, RecordLanguage};
use ndef_message::view;
use ndef_nest::Typed;
use ndef_value::Limits;

/// The answer of a check.
#[repr(C)]
#[derive(Clone, Copy, Drop)]
pub struct NdefChecked {
    /// The bytes of the message, or the offset of the refused byte.
    pub place: u64,
    /// The records of the message, 0 where it is refused.
    pub records: u32,
    /// 0, or the number of the reason.
    pub reason: u32,
}

/// Checks with the payloads of a language.
pub(crate) fn check_in<L: RecordLanguage>(
    bytes: &[u8],
    limits: Limits,
    out: &mut NdefChecked,
) -> u32
    ensures { ChecksTo L.payloads L.reasons limits bytes.now result out.new }
{
    match view::<L>(bytes, limits) {
        Ok(view) => {
            *out = NdefChecked {
                place: view.taken(),
                records: view.records(),
                reason: 0,
            };
            OK
        }
        Err(refusal) => refuse(refusal, out),
    }
}

/// Checks the message with which the bytes begin.
#[unsafe(no_mangle)]
pub extern "C" fn ndef_check(bytes: &[u8], limits: &NdefLimits, out: &mut NdefChecked) -> u32
    ensures bad { result ≡ BAD_ARGUMENT ↔ ¬ MayBeSet limits.now }
    ensures kept { result ≡ BAD_ARGUMENT → out.new ≡ out.old }
    ensures typed { MayBeSet limits.now → ChecksPayloads limits.now
        → ChecksTo ⟦<Typed as RecordLanguage>⟧.payloads ⟦<Typed as RecordLanguage>⟧.reasons (limits_of limits.now)
        bytes.now result out.new }
    ensures opaque { MayBeSet limits.now → LeavesPayloads limits.now
        → ChecksTo ⟦<Opaque as RecordLanguage>⟧.payloads ⟦<Opaque as RecordLanguage>⟧.reasons (limits_of limits.now)
        bytes.now result out.new }
{
    let Some((limits, looks)) = limits_of(limits) else {
        return BAD_ARGUMENT;
    };
    if looks {
        check_in::<Typed>(bytes, limits, out)
    } else {
        check_in::<Opaque>(bytes, limits, out)
    }
}

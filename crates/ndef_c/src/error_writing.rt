//! Writes the payloads of Error records (Connection Handover 1.2).
ghost use Rattle.std.specs.Prelude.{◌≡◌, ◌↔◌, IsTrue};
ghost use Rattle.ndef_types.specs.Values.{WritesError};
ghost use Rattle.ndef_c.specs.ErrorWrites.{GivesError, MayBeError, MayBeNumber, error_of};
ghost use Rattle.ndef_c.specs.Payloads.{GivesFor};

use crate::buffer::{give, give_parts};
use crate::status::BAD_ARGUMENT;
use ndef_types::goes_with;

/// Whether an error of a reason and some data may be written.
pub(crate) fn may_be_error(reason: u32, detail: &[u8]) -> bool
    ensures { IsTrue result ↔ MayBeError reason detail.now }
{
    reason < 256 && goes_with(reason as u8, detail) && detail.len() < u32::MAX as usize
}

/// Writes the payload of an Error record, the reason and its data, to the buffer.
#[unsafe(no_mangle)]
pub extern "C" fn ndef_write_error(
    reason: u32,
    detail: &[u8],
    buffer: &mut [u8],
    count: &mut usize,
) -> u32
    ensures bad { result ≡ BAD_ARGUMENT ↔ ¬ MayBeError reason detail.now }
    ensures kept { result ≡ BAD_ARGUMENT → (buffer.new ≡ buffer.old) × (count.new ≡ count.old) }
    ensures payload { MayBeError reason detail.now
        → GivesFor WritesError (error_of reason detail.now) buffer.old buffer.new count.new result }
{
    if !may_be_error(reason, detail) {
        return BAD_ARGUMENT;
    }
    give_parts(&[], &[reason as u8], detail, buffer, count)
}

/// Writes the payload of an Error record of a defined reason, whose data are a number, to the buffer.
#[unsafe(no_mangle)]
pub extern "C" fn ndef_write_error_number(
    reason: u32,
    number: u32,
    buffer: &mut [u8],
    count: &mut usize,
) -> u32
    ensures bad { result ≡ BAD_ARGUMENT ↔ ¬ MayBeNumber reason number }
    ensures kept { result ≡ BAD_ARGUMENT → (buffer.new ≡ buffer.old) × (count.new ≡ count.old) }
    ensures payload { MayBeNumber reason number → GivesError reason number buffer.old buffer.new count.new result }
{
    match reason {
        1 | 3 if number < 256 => give(&[reason as u8, number as u8], buffer, count),
        2 => give_parts(&[], &[2], &number.to_be_bytes(), buffer, count),
        _ => BAD_ARGUMENT,
    }
}

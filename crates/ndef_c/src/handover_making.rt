//! Writes the payloads of handover requests and selects from their parts (Connection Handover 1.2).
ghost use Rattle.std.specs.Prelude.{◌≡◌, ◌≢◌, ◌+◌, ◌<◌, ◌↔◌, IfNone, IfSome};
ghost use Rattle.ndef_c.specs.HandoverMaking.{GivesRequest, GivesSelect, MayBeErrorSaid, MayBeRequest, MayBeSelect, carriers_asked, error_items, select_asked};
ghost use Rattle.ndef_c.specs.RecordList.{AreSeries};

use crate::content::Content;
use crate::error_writing::may_be_error;
use crate::handover_parts::NdefAlternativeWriting;
use crate::part::NdefPart;
use crate::poster_parts::{known_made, part_in};
use crate::record_list::RecordList;
use crate::series_writing::give_message;
use crate::status::BAD_ARGUMENT;
use ndef_lang::Kind;

/// The parameters of a handover select that is written, except its alternative carriers.
#[repr(C)]
#[derive(Clone, Copy, Drop)]
pub struct NdefSelectWriting {
    /// The data of the error, where `has_error` is 1.
    pub detail: NdefPart,
    /// The minor version, 0 to 15; the major version is 1.
    pub minor: u32,
    /// 1 or 0.
    pub has_error: u32,
    /// The reason of the error, where `has_error` is 1.
    pub reason: u32,
}

/// The version octet of a minor version.
fn version_octet(minor: u32) -> u8
    requires { minor < 16 }
    ensures { result ≡ 0x10 + minor }
{
    0x10 + minor as u8
}

/// Writes the payload of a Handover Request record to the buffer: the collision resolution with the number,
/// and then the alternative carriers, whose references are parts of the bytes.
#[unsafe(no_mangle)]
pub extern "C" fn ndef_write_request<'a>(
    minor: u32,
    collision: u32,
    bytes: &'a [u8],
    references: &'a [NdefPart],
    alternatives: &'a [NdefAlternativeWriting],
    buffer: &mut [u8],
    count: &mut usize,
) -> u32
    ensures bad { result ≡ BAD_ARGUMENT
        ↔ ¬ MayBeRequest minor collision (carriers_asked bytes.now references.now alternatives.now) }
    ensures kept { result ≡ BAD_ARGUMENT → (buffer.new ≡ buffer.old) × (count.new ≡ count.old) }
    ensures request { result ≢ BAD_ARGUMENT
        → GivesRequest minor collision (carriers_asked bytes.now references.now alternatives.now)
        buffer.old buffer.new count.new result }
{
    if minor > 15 {
        return BAD_ARGUMENT;
    }
    if collision > 65535 {
        return BAD_ARGUMENT;
    }
    let number = (collision as u16).to_be_bytes();
    let octets = Content::Octets { octets: &number };
    let Some(made) = known_made(Kind::Collision, &[], &octets) else {
        unreachable!()
    };
    let several = [
        RecordList::One { made },
        RecordList::Alternatives {
            bytes,
            references,
            alternatives,
        },
    ];
    give_message(&[version_octet(minor)], &several, buffer, count)
}

/// Returns the record of the error, if one is requested.
fn error_series<'a>(how: &NdefSelectWriting, bytes: &'a [u8]) -> Option<RecordList<'a>>
    ensures none { IfNone result (¬ MayBeErrorSaid how.now bytes.now) }
    ensures may { IfSome result (λ _. MayBeErrorSaid how.now bytes.now) }
    ensures some { IfSome result (AreSeries (error_items how.now bytes.now)) }
{
    match how.has_error {
        0 => Some(RecordList::Nothing),
        1 => {
            let detail = part_in(bytes, &how.detail)?;
            if !may_be_error(how.reason, detail) {
                return None;
            }
            let reason = how.reason as u8;
            let made = known_made(Kind::Error, &[], &Content::Error { reason, detail })?;
            Some(RecordList::One { made })
        }
        _ => None,
    }
}

/// Writes the payload of a Handover Select record to the buffer: the alternative carriers, whose references
/// are parts of the bytes, and then the error. Without any of them it is the version alone.
#[unsafe(no_mangle)]
pub extern "C" fn ndef_write_select<'a>(
    how: &'a NdefSelectWriting,
    bytes: &'a [u8],
    references: &'a [NdefPart],
    alternatives: &'a [NdefAlternativeWriting],
    buffer: &mut [u8],
    count: &mut usize,
) -> u32
    ensures bad { result ≡ BAD_ARGUMENT
        ↔ ¬ MayBeSelect (select_asked how.now (carriers_asked bytes.now references.now alternatives.now)) }
    ensures kept { result ≡ BAD_ARGUMENT → (buffer.new ≡ buffer.old) × (count.new ≡ count.old) }
    ensures select { result ≢ BAD_ARGUMENT
        → GivesSelect (select_asked how.now (carriers_asked bytes.now references.now alternatives.now))
        buffer.old buffer.new count.new result }
{
    if how.minor > 15 {
        return BAD_ARGUMENT;
    }
    let Some(error) = error_series(how, bytes) else {
        return BAD_ARGUMENT;
    };
    let carriers = RecordList::Alternatives {
        bytes,
        references,
        alternatives,
    };
    give_message(
        &[version_octet(how.minor)],
        &[carriers, error],
        buffer,
        count,
    )
}

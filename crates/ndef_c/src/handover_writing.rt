//! Writes the payloads of Handover Request and Handover Select records (Connection Handover 1.2).
ghost use Rattle.std.specs.Prelude.{◌≡◌, ◌+◌, ◌<◌, ◌^◌, ◌↔◌, ◌∷◌, length, IsTrue};
ghost use Rattle.ndef_format.specs.declared.profile.Profile.TheVariants.{Strict};
ghost use Rattle.ndef_value.specs.declared.limits.TheConstants.{MOST_RECORDS};
ghost use Rattle.ndef_c.specs.HandoverWrites.{MayBeHandover, version_of};
ghost use Rattle.ndef_c.specs.Buffers.{Gives};

use crate::buffer::give_parts;
use crate::status::BAD_ARGUMENT;
use ndef_lang::{Kind, Language};
use ndef_nest::Nest;
use ndef_value::{MOST_RECORDS, Profile};

/// A handover request.
pub const REQUEST: u32 = 0;
/// A handover select.
pub const SELECT: u32 = 1;

/// Whether an octet and the bytes after it are a payload of the kind.
fn is_payload<L: Language>(kind: Kind, octet: u8, following: &[u8]) -> bool
    requires { 1 + length following.now < 2 ^ 32 }
    ensures { IsTrue result ↔ L.payloads kind MOST_RECORDS Strict (octet ∷ following.now) }
{
    let mut state = L::start(kind, MOST_RECORDS, Profile::Strict);
    state.step(octet);
    let length = following.len() as u64;
    if !state.fits(length, length) {
        return false;
    }
    state.step_all(following, length, length) == following.len()
}

/// Writes the payload of a handover record, a version octet and the bytes of a message, to the buffer.
#[unsafe(no_mangle)]
pub extern "C" fn ndef_write_handover(
    number: u32,
    major: u32,
    minor: u32,
    message: &[u8],
    buffer: &mut [u8],
    count: &mut usize,
) -> u32
    ensures bad { result ≡ BAD_ARGUMENT ↔ ¬ MayBeHandover number major minor message.now }
    ensures kept { result ≡ BAD_ARGUMENT → (buffer.new ≡ buffer.old) × (count.new ≡ count.old) }
    ensures payload { MayBeHandover number major minor message.now
        → Gives (version_of major minor ∷ message.now) buffer.old buffer.new count.new result }
{
    let kind = match number {
        REQUEST => Kind::Request,
        SELECT => Kind::Select,
        _ => return BAD_ARGUMENT,
    };
    if major > 15 || minor > 15 || message.len() >= u32::MAX as usize {
        return BAD_ARGUMENT;
    }
    let version = (16 * major + minor) as u8;
    if !is_payload::<Nest>(kind, version, message) {
        return BAD_ARGUMENT;
    }
    give_parts(&[], &[version], message, buffer, count)
}

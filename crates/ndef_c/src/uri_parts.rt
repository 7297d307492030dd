//! URIs where they lie in their payloads (RTD URI 1.0).
ghost use Rattle.std.specs.Prelude.{◌≡◌, ◌≢◌, ◌<◌, ◌^◌, ◌↔◌, ◌⊎◌, length};
ghost use Rattle.ndef_format.specs.declared.profile.Profile.{Profile};
ghost use Rattle.ndef_format.specs.Uris.{IsUri};
ghost use Rattle.ndef_format.specs.PayloadReasons.{UriReason};
ghost use Rattle.ndef_types.specs.Prefixes.{prefix_of};
ghost use Rattle.ndef_c.specs.Checks.{profile_of};
ghost use Rattle.ndef_c.specs.Payloads.{IsUriAt, RefusesWith};
ghost use Rattle.ndef_c.specs.Buffers.{Gives};

use crate::buffer::give;
use crate::checking::NdefChecked;
use crate::refusal::accepts;
use crate::status::{BAD_ARGUMENT, OK, REFUSED};
use ndef_lang::{Kind, Leaf};
use ndef_types::prefix;

/// A URI: the prefix of a code, and the rest, which lies in the payload.
#[repr(C)]
#[derive(Clone, Copy, Drop)]
pub struct NdefUri {
    /// The offset of the rest.
    pub rest_at: usize,
    /// The bytes of the rest.
    pub rest_length: usize,
    /// The code, 0 to 255; the reserved ones have no prefix.
    pub code: u32,
}

/// The code, and where the rest lies.
pub(crate) fn uri_at(payload: &[u8]) -> NdefUri
    requires uri { (profile : Profile) × IsUri profile payload.now }
    requires short { length payload.now < 2 ^ 32 }
    ensures { (profile : Profile) → IsUri profile payload.now → IsUriAt profile payload.now result }
{
    let [code, rest @ ..] = payload else {
        unreachable!()
    };
    NdefUri {
        rest_at: 1,
        rest_length: rest.len(),
        code: u32::from(*code),
    }
}

/// Gives the code of the prefix and the offset of the rest of the URI that the payload of a URI record holds.
#[unsafe(no_mangle)]
pub extern "C" fn ndef_split_uri(
    payload: &[u8],
    flags: u32,
    out: &mut NdefUri,
    refusal: &mut NdefChecked,
) -> u32
    ensures bad { result ≡ BAD_ARGUMENT ↔ (1 < flags) }
    ensures known { (result ≡ OK) ⊎ (result ≡ REFUSED) ⊎ (result ≡ BAD_ARGUMENT) }
    ensures uri { result ≡ OK → IsUriAt (profile_of flags) payload.now out.new }
    ensures refused { result ≡ REFUSED
        → RefusesWith (IsUri (profile_of flags)) (UriReason (profile_of flags)) payload.now refusal.new }
    ensures kept { result ≢ OK → out.new ≡ out.old }
    ensures kept_refusal { result ≢ REFUSED → refusal.new ≡ refusal.old }
{
    if flags > 1 {
        return BAD_ARGUMENT;
    }
    if !accepts::<Leaf>(Kind::Uri, flags, payload, refusal) {
        return REFUSED;
    }
    *out = uri_at(payload);
    OK
}

/// Writes the prefix of a code (RTD URI 1.0, URI identifier codes) to the buffer; a reserved
/// code has the empty one.
#[unsafe(no_mangle)]
pub extern "C" fn ndef_uri_prefix(code: u32, buffer: &mut [u8], count: &mut usize) -> u32
    ensures bad { result ≡ BAD_ARGUMENT ↔ (255 < code) }
    ensures kept { result ≡ BAD_ARGUMENT → (buffer.new ≡ buffer.old) × (count.new ≡ count.old) }
    ensures prefix { result ≢ BAD_ARGUMENT → Gives (prefix_of code) buffer.old buffer.new count.new result }
{
    if code > 255 {
        return BAD_ARGUMENT;
    }
    give(prefix(code as u8).as_bytes(), buffer, count)
}

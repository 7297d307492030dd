//! The payloads of URI records (RTD URI 1.0).
ghost use Rattle.std.specs.Prelude.{◌≡◌, ◌≢◌, ◌<◌, ◌↔◌, ◌⊎◌, IsUtf8};
ghost use Rattle.ndef_format.specs.Uris.{IsUri};
ghost use Rattle.ndef_format.specs.PayloadReasons.{UriReason};
ghost use Rattle.ndef_types.specs.Decoding.{IsTooLong};
ghost use Rattle.ndef_types.specs.Values.{WritesUri};
ghost use Rattle.ndef_c.specs.Checks.{profile_of};
ghost use Rattle.ndef_c.specs.Payloads.{GivesFor, GivesUri, RefusesWith};

use crate::buffer::give_parts;
use crate::checking::NdefChecked;
use crate::content::{Content, give_content};
use crate::refusal::accepts;
use crate::status::{BAD_ARGUMENT, REFUSED};
use ndef_lang::{Kind, Leaf};
use ndef_types::{prefix, split};

/// Writes the URI that the payload of a URI record holds, its prefix written out, to the buffer.
#[unsafe(no_mangle)]
pub extern "C" fn ndef_uri(
    payload: &[u8],
    flags: u32,
    buffer: &mut [u8],
    count: &mut usize,
    refusal: &mut NdefChecked,
) -> u32
    ensures bad { result ≡ BAD_ARGUMENT ↔ (1 < flags) }
    ensures refused { result ≡ REFUSED
        → RefusesWith (IsUri (profile_of flags)) (UriReason (profile_of flags)) payload.now refusal.new }
    ensures uri { result ≢ BAD_ARGUMENT → result ≢ REFUSED
        → GivesUri (profile_of flags) payload.now buffer.old buffer.new count.new result }
    ensures kept { (result ≡ BAD_ARGUMENT) ⊎ (result ≡ REFUSED) → (buffer.new ≡ buffer.old) × (count.new ≡ count.old) }
    ensures kept_refusal { result ≢ REFUSED → refusal.new ≡ refusal.old }
{
    if flags > 1 {
        return BAD_ARGUMENT;
    }
    if !accepts::<Leaf>(Kind::Uri, flags, payload, refusal) {
        return REFUSED;
    }
    let [code, rest @ ..] = payload else {
        unreachable!()
    };
    give_parts(&[], prefix(*code).as_bytes(), rest, buffer, count)
}

/// Writes the payload of a URI record, by the longest prefix that begins the URI, to the buffer.
#[unsafe(no_mangle)]
pub extern "C" fn ndef_write_uri(uri: &[u8], buffer: &mut [u8], count: &mut usize) -> u32
    ensures bad { result ≡ BAD_ARGUMENT → (¬ IsUtf8 uri.now) ⊎ IsTooLong WritesUri uri.now }
    ensures kept { result ≡ BAD_ARGUMENT → (buffer.new ≡ buffer.old) × (count.new ≡ count.old) }
    ensures utf8 { result ≢ BAD_ARGUMENT → IsUtf8 uri.now }
    ensures payload { result ≢ BAD_ARGUMENT → GivesFor WritesUri uri.now buffer.old buffer.new count.new result }
{
    let Ok(text) = simdutf8::basic::from_utf8(uri) else {
        return BAD_ARGUMENT;
    };
    let (code, rest) = split(text);
    give_content(&Content::Uri { code, rest }, buffer, count)
}

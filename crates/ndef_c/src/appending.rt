//! Texts and URIs that are appended to a message in a buffer, their payloads written in place.
ghost use Rattle.std.specs.Prelude.{◌≡◌, ◌≢◌, ◌↔◌, ◌⊎◌, IsTrue, IsUtf8};
ghost use Rattle.ndef_types.specs.Decoding.{IsTooLong};
ghost use Rattle.ndef_types.specs.Values.{WritesUri};
ghost use Rattle.ndef_c.specs.Appending.{GivesUriThere, MayBeJoined, MayBeTextThere, asked_of, text_record};
ghost use Rattle.ndef_c.specs.Built.{GivesWhole, held};

use crate::building::{NdefMessageBuilder, append_pending_record, may_grow};
use crate::content::Content;
use crate::poster_parts::known_made;
use crate::status::BAD_ARGUMENT;
use crate::text::text_content;
use ndef_lang::Kind;
use ndef_types::split;

/// Whether a record with the id may follow the message with which the buffer begins.
fn may_join(buffer: &[u8], builder: &NdefMessageBuilder, id: &[u8]) -> bool
    ensures { IsTrue result ↔ MayBeJoined id.now (held buffer.now builder.now) }
{
    id.len() <= 255 && may_grow(buffer, builder)
}

/// Appends the record of a text (RTD Text 1.0), which is given in UTF-8.
#[unsafe(no_mangle)]
pub extern "C" fn ndef_append_text(
    builder: &mut NdefMessageBuilder,
    id: &[u8],
    language: &[u8],
    text: &[u8],
    flags: u32,
    buffer: &mut [u8],
    count: &mut usize,
) -> u32
    ensures bad { result ≡ BAD_ARGUMENT
        ↔ ¬ MayBeTextThere id.now (asked_of flags language.now text.now) (held buffer.old builder.old) }
    ensures kept_buffer { result ≡ BAD_ARGUMENT → (buffer.new ≡ buffer.old) × (count.new ≡ count.old) }
    ensures kept { result ≡ BAD_ARGUMENT → builder.new ≡ builder.old }
    ensures appended { result ≢ BAD_ARGUMENT
        → GivesWhole (text_record id.now (asked_of flags language.now text.now))
        (held buffer.old builder.old) (held buffer.new builder.new) count.new result }
{
    let Some(content) = text_content(language, text, flags) else {
        return BAD_ARGUMENT;
    };
    if !may_join(buffer, builder, id) {
        return BAD_ARGUMENT;
    }
    let Some(made) = known_made(Kind::Text, id, &content) else {
        return BAD_ARGUMENT;
    };
    append_pending_record(buffer, builder, &made, count)
}

/// Appends the record of a URI (RTD URI 1.0), by the longest prefix that begins the URI.
#[unsafe(no_mangle)]
pub extern "C" fn ndef_append_uri(
    builder: &mut NdefMessageBuilder,
    id: &[u8],
    uri: &[u8],
    buffer: &mut [u8],
    count: &mut usize,
) -> u32
    ensures bad { result ≡ BAD_ARGUMENT → (¬ IsUtf8 uri.now) ⊎ IsTooLong WritesUri uri.now
        ⊎ ¬ MayBeJoined id.now (held buffer.old builder.old) }
    ensures kept_buffer { result ≡ BAD_ARGUMENT → (buffer.new ≡ buffer.old) × (count.new ≡ count.old) }
    ensures kept { result ≡ BAD_ARGUMENT → builder.new ≡ builder.old }
    ensures may { result ≢ BAD_ARGUMENT → IsUtf8 uri.now × MayBeJoined id.now (held buffer.old builder.old) }
    ensures appended { result ≢ BAD_ARGUMENT
        → GivesUriThere id.now uri.now (held buffer.old builder.old) (held buffer.new builder.new) count.new result }
{
    let Ok(text) = simdutf8::basic::from_utf8(uri) else {
        return BAD_ARGUMENT;
    };
    let (code, rest) = split(text);
    if !may_join(buffer, builder, id) {
        return BAD_ARGUMENT;
    }
    let Some(made) = known_made(Kind::Uri, id, &Content::Uri { code, rest }) else {
        return BAD_ARGUMENT;
    };
    append_pending_record(buffer, builder, &made, count)
}

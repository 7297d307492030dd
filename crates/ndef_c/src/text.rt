//! The payloads of Text records (RTD Text 1.0).
ghost use Rattle.std.specs.Prelude.{◌≡◌, ◌≢◌, ◌<◌, ◌^◌, ◌↔◌, ◌⊎◌, length, IfNone, IfSome};
ghost use Rattle.ndef_format.specs.Records.{bit};
ghost use Rattle.ndef_format.specs.Texts.{IsText};
ghost use Rattle.ndef_format.specs.PayloadReasons.{TextReason};
ghost use Rattle.ndef_types.specs.Values.{WritesText, is_utf16, text_payload};
ghost use Rattle.ndef_c.specs.Payloads.{GivesFor, IsTextAt, RefusesWith};
ghost use Rattle.ndef_c.specs.Contents.{IsContent, content_octets};
ghost use Rattle.ndef_c.specs.Texts.{GivesText, MayBeSpelled, MayBeText, asked_text};

use crate::buffer::give;
use crate::checking::NdefChecked;
use crate::content::{Content, give_content};
use crate::refusal::accepts;
use crate::status::{BAD_ARGUMENT, BUFFER_TOO_SMALL, OK, REFUSED};
use crate::utf16::give_in_utf8;
use ndef_lang::{Kind, Leaf};
use ndef_types::{Encoding, TextParts, texts_are_exact, unmark};

/// A text, by offsets and lengths in its payload.
#[repr(C)]
#[derive(Clone, Copy, Drop)]
pub struct NdefText {
    /// The offset of the language code.
    pub language_at: usize,
    /// The bytes of the language code, at most 63.
    pub language_length: usize,
    /// The offset of the text.
    pub text_at: usize,
    /// The bytes of the text.
    pub text_length: usize,
    /// 1 for UTF-16, after a byte order mark or big-endian without one; 0 for UTF-8.
    pub utf16: u32,
}

/// 1 for UTF-16, 0 for UTF-8.
fn utf16_flag(encoding: Encoding) -> u32
    ensures { result ≡ bit (is_utf16 encoding) }
{
    match encoding {
        Encoding::Utf8 => 0,
        Encoding::Utf16 => 1,
    }
}

/// Returns the offsets and lengths of the parts of a text in its payload.
pub(crate) fn text_at(payload: &[u8]) -> NdefText
    requires text { IsText payload.now }
    requires short { length payload.now < 2 ^ 32 }
    ensures { IsTextAt payload.now result }
{
    let parts = TextParts::new(payload);
    let language_length = parts.language().len();
    NdefText {
        language_at: 1,
        language_length,
        text_at: 1 + language_length,
        text_length: parts.octets().len(),
        utf16: utf16_flag(parts.encoding()),
    }
}

/// Gives the offsets of the parts of the text that the payload of a Text record holds.
#[unsafe(no_mangle)]
pub extern "C" fn ndef_text(payload: &[u8], out: &mut NdefText, refusal: &mut NdefChecked) -> u32
    ensures known { (result ≡ OK) ⊎ (result ≡ REFUSED) }
    ensures text { result ≡ OK → IsTextAt payload.now out.new }
    ensures refused { result ≡ REFUSED → RefusesWith IsText TextReason payload.now refusal.new }
    ensures kept { result ≡ REFUSED → out.new ≡ out.old }
    ensures kept_refusal { result ≡ OK → refusal.new ≡ refusal.old }
{
    if !accepts::<Leaf>(Kind::Text, 0, payload, refusal) {
        return REFUSED;
    }
    *out = text_at(payload);
    OK
}

/// Writes the text of a payload to the buffer in UTF-8.
fn give_text(payload: &[u8], buffer: &mut [u8], count: &mut usize) -> u32
    requires text { IsText payload.now }
    requires short { length payload.now < 2 ^ 32 }
    ensures { GivesText payload.now buffer.old buffer.new count.new result }
{
    // For the proof alone.
    texts_are_exact();
    let parts = TextParts::new(payload);
    match parts.encoding() {
        Encoding::Utf8 => give(parts.octets(), buffer, count),
        Encoding::Utf16 => {
            let (little, octets) = unmark(parts.octets());
            give_in_utf8(little, octets, buffer, count)
        }
    }
}

/// Writes the text that the payload of a Text record holds to the buffer in UTF-8, converted where
/// it is UTF-16, without its byte order mark.
#[unsafe(no_mangle)]
pub extern "C" fn ndef_text_in_utf8(
    payload: &[u8],
    buffer: &mut [u8],
    count: &mut usize,
    refusal: &mut NdefChecked,
) -> u32
    ensures known { (result ≡ OK) ⊎ (result ≡ BUFFER_TOO_SMALL) ⊎ (result ≡ REFUSED) }
    ensures refused { result ≡ REFUSED → RefusesWith IsText TextReason payload.now refusal.new }
    ensures text { result ≢ REFUSED → GivesText payload.now buffer.old buffer.new count.new result }
    ensures kept { result ≡ REFUSED → (buffer.new ≡ buffer.old) × (count.new ≡ count.old) }
    ensures kept_refusal { result ≢ REFUSED → refusal.new ≡ refusal.old }
{
    if !accepts::<Leaf>(Kind::Text, 0, payload, refusal) {
        return REFUSED;
    }
    give_text(payload, buffer, count)
}

/// Returns the content of a text, which is given in UTF-8, if the numbers and its parts may be written.
pub(crate) fn text_content<'a>(
    language: &'a [u8],
    text: &'a [u8],
    flags: u32,
) -> Option<Content<'a>>
    ensures none { IfNone result (¬ MayBeSpelled flags language.now text.now) }
    ensures may { IfSome result (λ _. MayBeSpelled flags language.now text.now) }
    ensures content { IfSome result IsContent }
    ensures payload { IfSome result (λ c. content_octets c ≡ text_payload (asked_text flags language.now text.now)) }
{
    if flags > 1 || language.len() > 63 || !language.is_ascii() {
        return None;
    }
    let Ok(text) = simdutf8::basic::from_utf8(text) else {
        return None;
    };
    if flags == 0 {
        Some(Content::Utf8 { language, text })
    } else {
        Some(Content::Utf16 { language, text })
    }
}

/// Writes the payload of a Text record to the buffer. The text is given in UTF-8.
#[unsafe(no_mangle)]
pub extern "C" fn ndef_write_text(
    language: &[u8],
    text: &[u8],
    flags: u32,
    buffer: &mut [u8],
    count: &mut usize,
) -> u32
    ensures bad { result ≡ BAD_ARGUMENT ↔ ¬ MayBeText flags language.now text.now }
    ensures kept { result ≡ BAD_ARGUMENT → (buffer.new ≡ buffer.old) × (count.new ≡ count.old) }
    ensures payload { MayBeText flags language.now text.now
        → GivesFor WritesText (asked_text flags language.now text.now) buffer.old buffer.new count.new result }
{
    let Some(content) = text_content(language, text, flags) else {
        return BAD_ARGUMENT;
    };
    give_content(&content, buffer, count)
}

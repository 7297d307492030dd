//! Texts.
ghost use Rattle.std.specs.Prelude.{◌≡◌, ◌<◌, ◌≤◌, ◌^◌, ◌++◌, ◌↔◌, true, false, [], length, slice_index, chars, encode_utf8_all, string_bytes, IsAscii, IsUtf8, IfNone, IfOk, IfSome, OnOk, IsErrOf, IsOk, IsTrue};
ghost use Rattle.ndef_types.specs.Equality.{text_eq, text_hash};
ghost use Rattle.ndef_types.specs.EqualityLaws.{text_alike, text_equiv, text_per};
ghost use Rattle.ndef_format.specs.Texts.{IsText, IsTextIn, is_wide};
ghost use Rattle.ndef_format.specs.PayloadReasons.{TextReason};
ghost use Rattle.ndef_types.specs.declared.text.TextError.TheVariants as errors;
ghost use Rattle.ndef_types.specs.Decoding.{DecodesTo, ParsesTo};
ghost use Rattle.ndef_types.specs.Values.{StandsForText, SpellsText, IsTextValue, is_utf16, language_octets, encoded_octets, status_octet, text_octets, text_payload};

use crate::accepting::{MOST, accept};
use crate::fields::after_first;
use crate::utf16::{push_text, read_utf16, units_len};
use crate::{DecodeError, EncodeError, Encoding};
use ndef_lang::{Kind, Leaf};
use ndef_value::{Bytes, NoMemory, Profile, Refusal};
use std::alloc::{AllocError, Global};
use std::hash::{Hash, Hasher};
use std::marker::Model;
use thiserror::Error;

/// A text in a language (RTD Text 1.0): its encoding, a language code of 0 to 63 bytes of ASCII, such as
/// `en`, and the text.
#[derive(Debug, Drop)]
pub struct Text {
    encoding: Encoding,
    language: String,
    text: String,
}

impl Model for Text {
    ghost use Rattle.std.specs.Prelude.{chars, string_bytes};
    ghost use Rattle.ndef_types.specs.Values.{TextValue, IsTextValue};

    ghost Value = { TextValue };

    ghost view = { λ t.
        record { encoding = t.encoding; language = string_bytes t.language; text = chars (string_bytes t.text) } };

    ghost invariant = { λ t. IsTextValue
        (record { encoding = t.encoding; language = string_bytes t.language; text = chars (string_bytes t.text) }) };
}

/// The reason why some parts make no text, in the order in which the reasons are tried.
#[derive(Clone, Copy, Debug, Drop, PartialEq, Eq, Hash, Error)]
pub enum TextError {
    /// A language code of more than 63 bytes.
    #[error("a language code of more than 63 bytes")]
    TooLong,
    /// A language code that isn't ASCII.
    #[error("a language code that is not ASCII")]
    NotAscii,
    /// An allocation failed.
    #[error("no memory")]
    NoMemory,
}

impl From<AllocError> for TextError {
    ghost from_gives = { λ _ error. error ≡ errors.NoMemory };

    fn from(_: AllocError) -> TextError {
        TextError::NoMemory
    }
}

/// A copy of a text; an empty one needs no memory.
pub(crate) fn copied(alloc: Global, text: &str) -> Result<String, AllocError>
    ensures ok { IfOk result (λ copy. string_bytes copy ≡ text.now) }
    ensures empty { text.now ≡ [] → IsOk result }
{
    let mut copy = String::with_capacity(alloc, text.len())?;
    copy.push_str(text)?;
    Ok(copy)
}

/// A copy of the text that the octets are.
fn read_utf8(alloc: Global, octets: &[u8]) -> Result<String, NoMemory>
    requires { IsUtf8 octets.now }
    ensures { IfOk result (λ text. string_bytes text ≡ octets.now) }
{
    // The octets are UTF-8, as is required.
    let text = unsafe { str::from_utf8_unchecked(octets) };
    Ok(copied(alloc, text)?)
}

/// The text that some octets spell.
fn read_octets(alloc: Global, encoding: Encoding, octets: &[u8]) -> Result<String, NoMemory>
    requires { IsTextIn (is_utf16 encoding) octets.now }
    ensures { IfOk result (λ text. SpellsText encoding octets.now (chars (string_bytes text))) }
{
    match encoding {
        Encoding::Utf8 => read_utf8(alloc, octets),
        Encoding::Utf16 => read_utf16(alloc, octets),
    }
}

/// The payload of a Text record, whose parts are slices of it (RTD Text 1.0). Contracts see its octets.
#[derive(Debug, Drop)]
pub struct TextParts<'a> {
    payload: &'a [u8],
}

impl<'a> Model for TextParts<'a> {
    ghost use Rattle.std.specs.Prelude.{List, ℕ};
    ghost use Rattle.ndef_format.specs.Texts.{IsText};

    ghost Value = { List ℕ };

    ghost view = { λ t. t.payload.now };

    ghost invariant = { λ t. IsText t.payload.now };
}

impl<'a> TextParts<'a> {
    /// The parts of a payload that is known to be that of a text.
    pub fn new(payload: &'a [u8]) -> TextParts<'a>
        requires { IsText payload.now }
        ensures { result ≡ payload.now }
    {
        TextParts { payload }
    }

    /// The parts of a payload, which is refused where it isn't in the set of its type or is longer than a
    /// payload may be.
    pub fn parse(payload: &'a [u8]) -> Result<TextParts<'a>, Refusal>
        ensures { ParsesTo IsText TextReason payload.now result }
    {
        match accept::<Leaf>(Kind::Text, Profile::Strict, payload) {
            Ok(()) => Ok(TextParts { payload }),
            Err(refusal) => Err(refusal),
        }
    }

    /// The encoding of the text: bit 7 of the status octet.
    pub fn encoding(&self) -> Encoding
        ensures { is_wide (slice_index self.now 0) ≡ is_utf16 result }
    {
        if self.payload[0] < 128 {
            Encoding::Utf8
        } else {
            Encoding::Utf16
        }
    }

    /// The octets of the language code and those of the text.
    fn split(&self) -> (&'a [u8], &'a [u8])
        ensures language { result.0.now ≡ language_octets self.now }
        ensures text { result.1.now ≡ encoded_octets self.now }
        ensures is_text { IsText self.now }
    {
        after_first(self.payload).split_at(usize::from(self.payload[0] % 64))
    }

    /// The language code, 0 to 63 bytes of ASCII.
    pub fn language(&self) -> &'a str
        ensures value { result.now ≡ language_octets self.now }
        ensures ascii { IsAscii result.now }
        ensures short { length result.now ≤ 63 }
    {
        // The octets are ASCII, and so UTF-8.
        unsafe { str::from_utf8_unchecked(self.split().0) }
    }

    /// The octets of the text. A byte order mark belongs to them: `unmark` takes it off.
    pub fn octets(&self) -> &'a [u8]
        ensures value { result.now ≡ encoded_octets self.now }
        ensures text { IsTextIn (is_wide (slice_index self.now 0)) result.now }
    {
        self.split().1
    }

    /// The text where it is in UTF-8, and None if it is in UTF-16.
    pub fn utf8(&self) -> Option<&'a str>
        ensures utf16 { IfNone result (is_wide (slice_index self.now 0) ≡ true) }
        ensures text { IfSome result (λ text. text.now ≡ encoded_octets self.now) }
        ensures utf8 { IfSome result (λ _. is_wide (slice_index self.now 0) ≡ false) }
    {
        match self.encoding() {
            // The octets are UTF-8, by the invariant.
            Encoding::Utf8 => Some(unsafe { str::from_utf8_unchecked(self.octets()) }),
            Encoding::Utf16 => None,
        }
    }

    /// A text of copies of the parts, or `NoMemory`. UTF-16 is converted, without its byte order mark.
    pub fn to_value(&self, alloc: Global) -> Result<Text, NoMemory>
        ensures { IfOk result (StandsForText self.now) }
    {
        let encoding = self.encoding();
        let language = copied(alloc, self.language())?;
        let text = read_octets(alloc, encoding, self.octets())?;
        Ok(Text {
            encoding,
            language,
            text,
        })
    }
}

/// The status octet of a language code of some octets.
fn status_octet(encoding: Encoding, length: u8) -> u8
    requires { length < 64 }
    ensures { result ≡ status_octet encoding length }
{
    match encoding {
        Encoding::Utf8 => length,
        Encoding::Utf16 => 128 + length,
    }
}

/// Whether the text has at most `most` octets.
fn octets_fit(encoding: Encoding, text: &str, most: usize) -> bool
    ensures { IsTrue result ↔ (length (text_octets encoding (chars text.now)) ≤ most) }
{
    match encoding {
        Encoding::Utf8 => text.len() <= most,
        Encoding::Utf16 => most >= 2 && units_len(text) <= (most as u64 - 2) / 2,
    }
}

/// Whether the payload of a text of these parts has at most 4294967295 bytes.
pub(crate) fn text_fits(encoding: Encoding, language: &str, text: &str) -> bool
    requires { length language.now ≤ 63 }
    ensures { IsTrue result ↔ (length (text_payload
        (record { encoding = encoding; language = language.now; text = chars text.now })) < 2 ^ 32) }
{
    octets_fit(encoding, text, MOST - 1 - language.len())
}

/// Appends the octets of a text.
fn push_octets(octets: &mut Bytes, encoding: Encoding, text: &str) -> Result<(), NoMemory>
    ensures { OnOk result (octets.new ≡ octets.old ++ text_octets encoding (chars text.now)) }
{
    match encoding {
        Encoding::Utf8 => octets.extend(text.as_bytes()),
        Encoding::Utf16 => {
            octets.extend(&[0xfe, 0xff])?;
            push_text(octets, text)
        }
    }
}

impl Text {
    /// A text of copies. `TooLong` comes before `NotAscii`, and `NotAscii` before `NoMemory`, which never comes for two
    /// empty texts. What the language code means isn't looked at.
    pub fn new(
        alloc: Global,
        encoding: Encoding,
        language: &str,
        text: &str,
    ) -> Result<Text, TextError>
        ensures ok { IfOk result
            (λ t. t ≡ record { encoding = encoding; language = language.now; text = chars text.now }) }
        ensures too_long { IsErrOf result TextError.TooLong ↔ (63 < length language.now) }
        ensures not_ascii { IsErrOf result TextError.NotAscii
            ↔ ((length language.now ≤ 63) × ¬ IsAscii language.now) }
        ensures empty { language.now ≡ [] → text.now ≡ [] → IsOk result }
    {
        if language.len() > 63 {
            return Err(TextError::TooLong);
        }
        if !language.is_ascii() {
            return Err(TextError::NotAscii);
        }
        let language = copied(alloc, language)?;
        let text = copied(alloc, text)?;
        Ok(Text {
            encoding,
            language,
            text,
        })
    }

    /// Returns the text of the payload of a Text record. A UTF-16 text may be big-endian or
    /// little-endian after its byte order mark, or big-endian without one; the mark is no part of the
    /// text. `Refused` if the payload isn't in the set of its type or is longer than a payload may
    /// be, else `NoMemory`.
    pub fn decode(alloc: Global, payload: &[u8]) -> Result<Text, DecodeError>
        ensures { DecodesTo IsText TextReason StandsForText payload.now result }
    {
        Ok(TextParts::parse(payload)?.to_value(alloc)?)
    }

    /// The payload of a Text record; UTF-16 is written big-endian after `FE FF`. `TooLong` comes before
    /// `NoMemory`.
    pub fn encode(&self, alloc: Global) -> Result<Bytes, EncodeError>
        ensures ok { IfOk result (λ payload. payload ≡ text_payload self.now) }
        ensures too_long { IsErrOf result EncodeError.TooLong ↔ (2 ^ 32 ≤ length (text_payload self.now)) }
    {
        if !text_fits(self.encoding, &self.language, &self.text) {
            return Err(EncodeError::TooLong);
        }
        Ok(self.payload(alloc)?)
    }

    /// The encoding of the text in its payload.
    pub fn encoding(&self) -> Encoding
        ensures value { result ≡ self.now.encoding }
        ensures text { IsTextValue self.now }
    {
        self.encoding
    }

    /// The language code, 0 to 63 bytes of ASCII.
    pub fn language(&self) -> &str
        ensures value { result.now ≡ self.now.language }
        ensures text { IsTextValue self.now }
    {
        self.language.as_str()
    }

    /// The text, without a byte order mark.
    pub fn text(&self) -> &str
        ensures value { result.now ≡ encode_utf8_all self.now.text }
        ensures text { IsTextValue self.now }
    {
        self.text.as_str()
    }

    /// The payload.
    fn payload(&self, alloc: Global) -> Result<Bytes, NoMemory>
        ensures { IfOk result (λ payload. payload ≡ text_payload self.now) }
    {
        let language = self.language.as_bytes();
        let status = status_octet(self.encoding, language.len() as u8);
        let mut payload = Bytes::new(alloc);
        payload.extend(&[status])?;
        payload.extend(language)?;
        push_octets(&mut payload, self.encoding, &self.text)?;
        Ok(payload)
    }
}

/// Texts are equal in encoding, language code and text.
impl PartialEq for Text {
    ghost eq = { text_eq };

    ghost laws = { text_per };

    fn eq(&self, other: &Text) -> bool {
        let same_parts = self.encoding == other.encoding && self.language == other.language;
        same_parts && self.text() == other.text()
    }
}

impl Eq for Text {
    ghost laws = { text_equiv };
}

impl Hash for Text {
    ghost hash_input = { text_hash };

    ghost respects_eq = { text_alike.fed };

    fn hash<H: Hasher>(&self, state: &mut H) {
        let encoding = self.encoding;
        encoding.hash(state);
        self.language.hash(state);
        self.text().hash(state);
    }
}

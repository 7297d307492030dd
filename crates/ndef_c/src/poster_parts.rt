//! The records of a smart poster, as parts of some bytes (RTD Smart Poster 1.0).
ghost use Rattle.std.specs.Prelude.{◌≡◌, ◌<◌, ◌≤◌, ◌^◌, ◌⊎◌, [], length, IfNone, IfSome, IsUtf8};
ghost use Rattle.ndef_format.specs.Kinds.{kind_name};
ghost use Rattle.ndef_format.specs.declared.tnf.Tnf.TheVariants.{WellKnown};
ghost use Rattle.ndef_types.specs.Decoding.{IsTooLong};
ghost use Rattle.ndef_types.specs.Values.{WritesUri};
ghost use Rattle.ndef_c.specs.AlternativeWrites.{IsPartWithin, part_of};
ghost use Rattle.ndef_c.specs.Contents.{IsContent, content_octets};
ghost use Rattle.ndef_c.specs.PendingRecord.{IsMade, item_with, made_item};
ghost use Rattle.ndef_c.specs.PosterParts.{IsUriItem, MayBeIcon, MayBeTitle, icon_item, title_item};

use crate::content::{Content, content_length};
use crate::making::PendingRecord;
use crate::part::NdefPart;
use crate::text::text_content;
use ndef_lang::Kind;
use ndef_types::split;
use ndef_value::Tnf;

/// A title of a smart poster that is written.
#[repr(C)]
#[derive(Clone, Copy, Drop)]
pub struct NdefTitleWriting {
    /// Its language code, in ASCII.
    pub language: NdefPart,
    /// The title, in UTF-8.
    pub text: NdefPart,
    /// 1 to write it in UTF-16, 0 for UTF-8.
    pub utf16: u32,
}

/// An icon of a smart poster that is written.
#[repr(C)]
#[derive(Clone, Copy, Drop)]
pub struct NdefIconWriting {
    /// Its media type.
    pub media_type: NdefPart,
    /// The bytes of the image.
    pub octets: NdefPart,
}

/// A part of some bytes, if it lies within them.
pub(crate) fn part_in<'a>(bytes: &'a [u8], part: &NdefPart) -> Option<&'a [u8]>
    ensures none { IfNone result (¬ IsPartWithin (length bytes.now) part.now) }
    ensures within { IfSome result (λ _. IsPartWithin (length bytes.now) part.now) }
    ensures some { IfSome result (λ found. found.now ≡ part_of bytes.now part.now) }
{
    if part.at > bytes.len() || part.length > bytes.len() - part.at {
        return None;
    }
    let (_before, from) = bytes.split_at(part.at);
    Some(&from[..part.length])
}

/// A record without an id, if a piece can tell the length of its payload.
fn content_made<'a>(tnf: Tnf, kind: &'a [u8], content: &Content<'a>) -> Option<PendingRecord<'a>>
    requires content { IsContent content.now }
    requires kind { length kind.now < 256 }
    ensures none { IfNone result (2 ^ 32 ≤ length (content_octets content.now)) }
    ensures fits { IfSome result (λ _. length (content_octets content.now) < 2 ^ 32) }
    ensures made { IfSome result IsMade }
    ensures item { IfSome result (λ m. made_item m ≡ item_with tnf kind.now [] (content_octets content.now)) }
{
    let bytes = content_length(content)?;
    Some(PendingRecord {
        tnf,
        kind,
        id: &[],
        content: *content,
        bytes,
    })
}

/// A record of the well-known type of a kind, if a piece can tell the length of its payload.
pub(crate) fn known_made<'a>(
    kind: Kind,
    id: &'a [u8],
    content: &Content<'a>,
) -> Option<PendingRecord<'a>>
    requires content { IsContent content.now }
    requires id { length id.now < 256 }
    ensures none { IfNone result (2 ^ 32 ≤ length (content_octets content.now)) }
    ensures fits { IfSome result (λ _. length (content_octets content.now) < 2 ^ 32) }
    ensures made { IfSome result IsMade }
    ensures item { IfSome result (λ m. made_item m
        ≡ item_with WellKnown (kind_name kind) id.now (content_octets content.now)) }
{
    let bytes = content_length(content)?;
    Some(PendingRecord {
        tnf: Tnf::WellKnown,
        kind: kind.name(),
        id,
        content: *content,
        bytes,
    })
}

/// The record of a URI (RTD URI 1.0), by the longest prefix that begins the URI.
pub(crate) fn uri_made(uri: &[u8]) -> Option<PendingRecord<'_>>
    ensures none { IfNone result ((¬ IsUtf8 uri.now) ⊎ IsTooLong WritesUri uri.now) }
    ensures utf8 { IfSome result (λ _. IsUtf8 uri.now) }
    ensures made { IfSome result IsMade }
    ensures item { IfSome result (λ m. IsUriItem uri.now (made_item m)) }
{
    let Ok(text) = simdutf8::basic::from_utf8(uri) else {
        return None;
    };
    let (code, rest) = split(text);
    known_made(Kind::Uri, &[], &Content::Uri { code, rest })
}

/// The record of a title (RTD Text 1.0), if it may be written.
pub(crate) fn title_made<'a>(bytes: &'a [u8], title: &NdefTitleWriting) -> Option<PendingRecord<'a>>
    ensures none { IfNone result (¬ MayBeTitle bytes.now title.now) }
    ensures may { IfSome result (λ _. MayBeTitle bytes.now title.now) }
    ensures made { IfSome result IsMade }
    ensures item { IfSome result (λ m. made_item m ≡ title_item bytes.now title.now) }
{
    let language = part_in(bytes, &title.language)?;
    let text = part_in(bytes, &title.text)?;
    let content = text_content(language, text, title.utf16)?;
    known_made(Kind::Text, &[], &content)
}

/// The record of an icon (RTD Smart Poster 1.0, icon record), if it may be written.
pub(crate) fn icon_made<'a>(bytes: &'a [u8], icon: &NdefIconWriting) -> Option<PendingRecord<'a>>
    ensures none { IfNone result (¬ MayBeIcon bytes.now icon.now) }
    ensures may { IfSome result (λ _. MayBeIcon bytes.now icon.now) }
    ensures made { IfSome result IsMade }
    ensures item { IfSome result (λ m. made_item m ≡ icon_item bytes.now icon.now) }
{
    let kind = part_in(bytes, &icon.media_type)?;
    let octets = part_in(bytes, &icon.octets)?;
    if kind.is_empty() || kind.len() > 255 {
        return None;
    }
    content_made(Tnf::Media, kind, &Content::Octets { octets })
}

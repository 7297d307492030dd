//! Writes the payloads of Alternative Carrier records (Connection Handover 1.2).
ghost use Rattle.std.specs.Prelude.{◌≡◌, ◌∷◌, ◌↔◌, length, IfNone, IfSome, IsTrue};
ghost use Rattle.std.specs.List.{All, flat_map};
ghost use Rattle.ndef_c.specs.AlternativeWrites.{GivesAlternative, MayBeAlternative, MayBeReference, counted_part};
ghost use Rattle.ndef_c.specs.Contents.{IsContent, alternative_octets, alternative_payload, content_octets};
ghost use Rattle.ndef_c.specs.Buffers.{Puts};

use crate::content::{Content, give_content};
use crate::out::Out;
use crate::part::NdefPart;
use crate::status::BAD_ARGUMENT;
use ndef_types::alternatives_are_exact;

/// Whether a part is a reference: it lies within the bytes, and has up to 255 of them.
fn is_reference(bytes: &[u8], part: &NdefPart) -> bool
    ensures { IsTrue result ↔ MayBeReference (length bytes.now) part.now }
{
    part.length < 256 && part.at <= bytes.len() && part.length <= bytes.len() - part.at
}

/// Whether each part is a reference.
fn are_references(bytes: &[u8], parts: &[NdefPart]) -> bool
    ensures { IsTrue result ↔ All (MayBeReference (length bytes.now)) parts.now }
{
    for part in parts {
        if !is_reference(bytes, part) {
            return false;
        }
    }
    true
}

/// Writes a reference after its length.
#[inline(always)]
fn put_reference(out: &mut Out<'_>, bytes: &[u8], part: &NdefPart)
    requires { MayBeReference (length bytes.now) part.now }
    ensures { Puts out.old (counted_part bytes.now part.now) out.new }
{
    out.put(&[part.length as u8]);
    let (_before, from) = bytes.split_at(part.at);
    out.put(&from[..part.length]);
}

/// Writes references, each after its length.
fn put_references(out: &mut Out<'_>, bytes: &[u8], parts: &[NdefPart])
    requires { All (MayBeReference (length bytes.now)) parts.now }
    ensures { Puts out.old (flat_map (counted_part bytes.now) parts.now) out.new }
{
    for part in parts {
        put_reference(out, bytes, part);
    }
}

/// Writes the payload of an alternative carrier.
#[inline(always)]
pub(crate) fn put_alternative(
    out: &mut Out<'_>,
    power: u8,
    bytes: &[u8],
    reference: &NdefPart,
    auxiliary: &[NdefPart],
)
    requires { MayBeAlternative power bytes.now (reference.now ∷ auxiliary.now) }
    ensures { Puts out.old (alternative_octets power bytes.now reference.now auxiliary.now) out.new }
{
    out.put(&[power]);
    put_reference(out, bytes, reference);
    out.put(&[auxiliary.len() as u8]);
    put_references(out, bytes, auxiliary);
}

/// Returns the content of an alternative carrier, if its power state and references may be written.
pub(crate) fn alternative_content<'a>(
    power: u32,
    bytes: &'a [u8],
    parts: &'a [NdefPart],
) -> Option<Content<'a>>
    ensures none { IfNone result (¬ MayBeAlternative power bytes.now parts.now) }
    ensures may { IfSome result (λ _. MayBeAlternative power bytes.now parts.now) }
    ensures content { IfSome result IsContent }
    ensures payload { IfSome result (λ c. content_octets c ≡ alternative_payload power bytes.now parts.now) }
{
    let [reference, auxiliary @ ..] = parts else {
        return None;
    };
    if power > 3 || auxiliary.len() > 255 || !are_references(bytes, parts) {
        return None;
    }
    Some(Content::Alternative {
        power: power as u8,
        bytes,
        reference,
        auxiliary,
    })
}

/// Writes the payload of an Alternative Carrier record, its reserved bits 0, to the buffer. Each reference
/// is a part of the bytes; the first is the carrier data reference, and the auxiliary ones follow.
#[unsafe(no_mangle)]
pub extern "C" fn ndef_write_alternative<'a>(
    power: u32,
    bytes: &'a [u8],
    parts: &'a [NdefPart],
    buffer: &mut [u8],
    count: &mut usize,
) -> u32
    ensures bad { result ≡ BAD_ARGUMENT ↔ ¬ MayBeAlternative power bytes.now parts.now }
    ensures kept { result ≡ BAD_ARGUMENT → (buffer.new ≡ buffer.old) × (count.new ≡ count.old) }
    ensures payload { MayBeAlternative power bytes.now parts.now
        → GivesAlternative power bytes.now parts.now buffer.old buffer.new count.new result }
{
    // For the proof only.
    alternatives_are_exact();
    let Some(content) = alternative_content(power, bytes, parts) else {
        return BAD_ARGUMENT;
    };
    give_content(&content, buffer, count)
}

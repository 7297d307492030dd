//! Writes the payloads of Smart Poster records from the parts of the poster (RTD Smart Poster 1.0).
ghost use Rattle.std.specs.Prelude.{◌≡◌, ◌≢◌, ◌<◌, ◌==◌, ◌⊎◌, ◌↔◌, [], ◌∷◌, length, if◌then◌else◌, IfNone, IfSome, IsTrue, IsUtf8};
ghost use Rattle.ndef_format.specs.Kinds.{kind_name};
ghost use Rattle.ndef_format.specs.declared.tnf.Tnf.TheVariants.{WellKnown};
ghost use Rattle.ndef_c.specs.AlternativeWrites.{IsPartWithin};
ghost use Rattle.ndef_c.specs.PendingRecord.{item_with};
ghost use Rattle.ndef_c.specs.RecordList.{AreSeries};
ghost use Rattle.ndef_c.specs.PosterWrites.{AreNumbers, AreSaid, GivesPoster, MayBeAsked, MayBeMedia, MayBePoster, MayBeSaid, asked_by, media_of, poster_asked};

use crate::content::Content;
use crate::making::PendingRecord;
use crate::part::NdefPart;
use crate::poster_parts::{NdefIconWriting, NdefTitleWriting, known_made, part_in, uri_made};
use crate::record_list::RecordList;
use crate::series_writing::give_message;
use crate::status::BAD_ARGUMENT;
use ndef_lang::Kind;
use ndef_types::uris_are_exact;

/// The parameters of a smart poster that is written, except its titles and icons.
#[repr(C)]
#[derive(Clone, Copy, Drop)]
pub struct NdefPosterWriting {
    /// The URI itself, in UTF-8.
    pub uri: NdefPart,
    /// The media type of the object to which the URI refers, where `has_media_type` is 1.
    pub media_type: NdefPart,
    /// 1 or 0.
    pub has_media_type: u32,
    /// 1 or 0.
    pub has_action: u32,
    /// The recommended action for the URI, if `has_action` is 1.
    pub action: u32,
    /// 1 or 0.
    pub has_size: u32,
    /// The bytes of the object to which the URI refers, where `has_size` is 1.
    pub size: u32,
}

/// The parts of a smart poster that is written.
#[derive(Clone, Copy)]
struct Poster<'a> {
    bytes: &'a [u8],
    how: &'a NdefPosterWriting,
    titles: &'a [NdefTitleWriting],
    icons: &'a [NdefIconWriting],
}

/// The octets of the numbers of a smart poster.
#[derive(Clone, Copy)]
struct Numbers {
    action: [u8; 1],
    size: [u8; 4],
}

/// The records of a smart poster but for its titles and icons.
#[derive(Clone, Copy)]
struct PosterProperties<'a> {
    uri: PendingRecord<'a>,
    action: RecordList<'a>,
    size: RecordList<'a>,
    media: RecordList<'a>,
}

/// The octets of the numbers.
fn numbers_of(how: &NdefPosterWriting) -> Numbers
    ensures { AreNumbers how.now result }
{
    Numbers {
        action: [(how.action % 256) as u8],
        size: how.size.to_be_bytes(),
    }
}

/// Returns the record of some octets, if `has` is 1.
fn asked_series<'a>(has: u32, kind: Kind, octets: &'a [u8]) -> Option<RecordList<'a>>
    ensures none { IfNone result (¬ MayBeAsked has octets.now) }
    ensures may { IfSome result (λ _. MayBeAsked has octets.now) }
    ensures some { IfSome result
        (AreSeries (if has == 1 then item_with WellKnown (kind_name kind) [] octets.now ∷ [] else [])) }
{
    match has {
        0 => Some(RecordList::Nothing),
        1 => {
            let made = known_made(kind, &[], &Content::Octets { octets })?;
            Some(RecordList::One { made })
        }
        _ => None,
    }
}

/// Returns the media type, or an empty one if it isn't requested.
fn media_octets<'a>(poster: &Poster<'a>) -> Option<&'a [u8]>
    ensures none { IfNone result (¬ MayBeMedia (asked_by poster.now)) }
    ensures some { IfSome result (λ octets. (poster.now.how.now.has_media_type ≡ 0)
        ⊎ ((octets.now ≡ media_of (asked_by poster.now)) × IsUtf8 octets.now
        × IsPartWithin (length poster.now.bytes.now) poster.now.how.now.media_type)) }
{
    if poster.how.has_media_type == 0 {
        return Some(&[]);
    }
    let octets = part_in(poster.bytes, &poster.how.media_type)?;
    match simdutf8::basic::from_utf8(octets) {
        Ok(_) => Some(octets),
        Err(_) => None,
    }
}

/// Whether the action is one octet, if it is requested.
fn says_octet(how: &NdefPosterWriting) -> bool
    ensures { IsTrue result ↔ (how.now.has_action ≡ 1 → how.now.action < 256) }
{
    how.has_action != 1 || how.action <= 255
}

/// Returns the records of the properties, if they may be written.
fn said_of<'a>(poster: &Poster<'a>, numbers: &'a Numbers) -> Option<PosterProperties<'a>>
    requires { AreNumbers poster.now.how.now numbers.now }
    ensures none { IfNone result (¬ MayBeSaid (asked_by poster.now)) }
    ensures some { IfSome result (AreSaid (asked_by poster.now)) }
{
    let how = poster.how;
    if !says_octet(how) {
        return None;
    }
    Some(PosterProperties {
        uri: uri_made(part_in(poster.bytes, &how.uri)?)?,
        action: asked_series(how.has_action, Kind::Action, &numbers.action)?,
        size: asked_series(how.has_size, Kind::Size, &numbers.size)?,
        media: asked_series(how.has_media_type, Kind::MediaType, media_octets(poster)?)?,
    })
}

/// Writes the payload of a Smart Poster record to the buffer. All that the poster holds are parts of the
/// bytes.
#[unsafe(no_mangle)]
pub extern "C" fn ndef_write_poster<'a>(
    bytes: &'a [u8],
    how: &'a NdefPosterWriting,
    titles: &'a [NdefTitleWriting],
    icons: &'a [NdefIconWriting],
    buffer: &mut [u8],
    count: &mut usize,
) -> u32
    ensures bad { result ≡ BAD_ARGUMENT ↔ ¬ MayBePoster (poster_asked bytes.now how.now titles.now icons.now) }
    ensures kept { result ≡ BAD_ARGUMENT → (buffer.new ≡ buffer.old) × (count.new ≡ count.old) }
    ensures poster { result ≢ BAD_ARGUMENT
        → GivesPoster (poster_asked bytes.now how.now titles.now icons.now) buffer.old buffer.new count.new result }
{
    // For the proof alone.
    uris_are_exact();
    let poster = Poster {
        bytes,
        how,
        titles,
        icons,
    };
    let numbers = numbers_of(how);
    let Some(said) = said_of(&poster, &numbers) else {
        return BAD_ARGUMENT;
    };
    let several = [
        RecordList::One { made: said.uri },
        RecordList::Titles { bytes, titles },
        said.action,
        said.size,
        said.media,
        RecordList::Icons { bytes, icons },
    ];
    give_message(&[], &several, buffer, count)
}

//! The icons of a smart poster, where they lie (RTD Smart Poster 1.0).
ghost use Rattle.std.specs.Prelude.{◌≡◌, ◌≢◌, ◌↔◌};
ghost use Rattle.std.proofs.Common.{inr};
ghost use Rattle.ndef_format.specs.declared.profile.Profile.TheVariants.{Standard};
ghost use Rattle.ndef_c.specs.Icons.{GivesIcons, IsIconAt, is_media};
ghost use Rattle.ndef_c.specs.Posters.{HasPosterRecords};
ghost use Rattle.ndef_c.specs.Titles.{IsPosterPayload};

use crate::part::NdefPart;
use crate::query::{Expected, RecordQuery, give_all};
use crate::record::NdefRecord;
use crate::status::BAD_ARGUMENT;
use crate::titles::is_poster;
use ndef_value::Tnf;

/// Where an icon of a smart poster lies.
#[repr(C)]
#[derive(Clone, Copy, Drop)]
pub struct NdefIcon {
    /// Its media type.
    pub media_type: NdefPart,
    /// The bytes of the image.
    pub octets: NdefPart,
}

/// The icons of a poster.
#[derive(Clone, Copy)]
struct Icons<'a> {
    payload: &'a [u8],
}

impl<'a> Expected for Icons<'a> {
    ghost expected = { λ tnf kind. is_media tnf };

    fn is_expected(tnf: Tnf, _kind: &[u8]) -> bool
        ensures { result ≡ is_media tnf }
    {
        match tnf {
            Tnf::Media => true,
            _ => false,
        }
    }
}

impl<'a> RecordQuery for Icons<'a> {
    type Given = NdefIcon;

    ghost octets = { λ icons. icons.payload.now };

    ghost has_records = { λ icons items. HasPosterRecords Standard items icons.payload.now };

    ghost is_given = { λ icons items. IsIconAt icons.payload.now items };

    ghost in_pieces = { λ icons items h.
        inr (record { runs = h.0; spelling = h.1.spelling; single = h.1.single }) };

    fn message(&self) -> &[u8] {
        self.payload
    }

    fn given(&self, found: &NdefRecord) -> NdefIcon {
        NdefIcon {
            media_type: NdefPart {
                at: found.type_at,
                length: found.type_length,
            },
            octets: NdefPart {
                at: found.payload_at,
                length: found.part_length,
            },
        }
    }
}

/// Gives the offsets of the media type and the image of each icon of a smart poster, in the payload
/// of the poster. Each record of a media type counts, whatever the type.
#[unsafe(no_mangle)]
pub extern "C" fn ndef_poster_icons(
    payload: &[u8],
    array: &mut [NdefIcon],
    count: &mut usize,
) -> u32
    ensures bad { result ≡ BAD_ARGUMENT ↔ ¬ IsPosterPayload payload.now }
    ensures kept { result ≡ BAD_ARGUMENT → (array.new ≡ array.old) × (count.new ≡ count.old) }
    ensures icons { result ≢ BAD_ARGUMENT → GivesIcons payload.now array.old array.new count.new result }
{
    if !is_poster(payload) {
        return BAD_ARGUMENT;
    }
    give_all(&Icons { payload }, array, count)
}

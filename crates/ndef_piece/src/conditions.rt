//! The reason why an octet is refused in the head of a piece: the lowest reason that holds of it.
ghost use Rattle.std.specs.Prelude.{◌≡◌, ◌<◌, ◌≤◌, [], ◌∷◌, length};
ghost use Rattle.ndef_format.specs.HeadReasons.{width, is_strict, reason_for};
ghost use Rattle.ndef_format.specs.Positions.{IsOpen};

use crate::Spot;
use crate::payload_length::least;
use ndef_format::header::{BEGIN, CHUNK, END, ID_THERE, is_set, tnf_number, width};
use ndef_value::{Profile, Reason};

/// Whether what is reserved is refused.
fn is_strict(profile: Profile) -> bool
    ensures { result ≡ is_strict profile }
{
    match profile {
        Profile::Strict => true,
        Profile::Standard => false,
    }
}

/// The reason why a header octet is refused.
fn header_reason(spot: &Spot, octet: u8) -> Option<Reason>
    ensures { result ≡ reason_for spot.now [] octet }
{
    let tnf = tnf_number(octet);
    let begins = is_set(BEGIN, octet);
    let ends = is_set(END, octet);
    let chunked = is_set(CHUNK, octet);
    if is_strict(spot.profile) && tnf == 7 {
        Some(Reason::ReservedTnf)
    } else if spot.first && !begins {
        Some(Reason::BeginMissing)
    } else if !spot.first && begins {
        Some(Reason::BeginAgain)
    } else if !spot.inside && tnf == 6 {
        Some(Reason::UnchangedOutside)
    } else if spot.inside && tnf != 6 {
        Some(Reason::ChangedInside)
    } else if spot.inside && is_set(ID_THERE, octet) {
        Some(Reason::IdInside)
    } else if chunked && ends {
        Some(Reason::ChunkAtEnd)
    } else if !spot.inside && chunked && tnf == 0 {
        Some(Reason::ChunkOfEmpty)
    } else if chunked && spot.last_piece {
        Some(Reason::TooManyPieces)
    } else if !chunked && !ends && spot.last_record {
        Some(Reason::TooManyRecords)
    } else {
        None
    }
}

/// The reason why the octet is refused as the first of a head, if it is.
#[tactic(auto, using(crate::proofs::Steps::open_start))]
pub fn first_reason(spot: &Spot, octet: u8) -> Option<Reason>
    ensures reason { result ≡ reason_for spot.now [] octet }
    // Some head may occur at any spot.
    ensures open { IsOpen spot.now [] }
{
    header_reason(spot, octet)
}

/// The reason why the octet of TYPE_LENGTH is refused.
fn type_length_reason(spot: &Spot, header: u8, octet: u8) -> Option<Reason>
    ensures { result ≡ reason_for spot.now (header ∷ []) octet }
{
    let tnf = tnf_number(header);
    if tnf > 4 && octet != 0 {
        Some(Reason::TypeNotEmpty)
    } else if tnf > 0 && tnf < 5 && octet == 0 {
        Some(Reason::TypeEmpty)
    } else if tnf == 0 && octet != 0 {
        Some(Reason::EmptyNotEmpty)
    } else {
        None
    }
}

/// The reason why an octet of PAYLOAD_LENGTH is refused, after these of it.
fn payload_length_reason(
    spot: &Spot,
    header: u8,
    kind_length: u8,
    front: &[u8],
    octet: u8,
) -> Option<Reason>
    requires { length front.now < width header }
    ensures { result ≡ reason_for spot.now (header ∷ kind_length ∷ front.now) octet }
{
    if tnf_number(header) == 0 && octet != 0 {
        Some(Reason::EmptyNotEmpty)
    } else if least(header, front, octet) > spot.room {
        Some(Reason::PayloadTooLarge)
    } else {
        None
    }
}

/// The reason why the octet of ID_LENGTH is refused.
fn id_length_reason(
    spot: &Spot,
    header: u8,
    kind_length: u8,
    front: &[u8],
    octet: u8,
) -> Option<Reason>
    requires { width header ≤ length front.now }
    ensures { result ≡ reason_for spot.now (header ∷ kind_length ∷ front.now) octet }
{
    if tnf_number(header) == 0 && octet != 0 {
        Some(Reason::EmptyNotEmpty)
    } else {
        None
    }
}

/// The reason why an octet is refused after these of a head.
pub(crate) fn reason(spot: &Spot, front: &[u8], octet: u8) -> Option<Reason>
    ensures { result ≡ reason_for spot.now front.now octet }
{
    match front {
        [] => header_reason(spot, octet),
        [header] => type_length_reason(spot, *header, octet),
        [header, kind_length, rest @ ..] => {
            if rest.len() < width(*header) {
                payload_length_reason(spot, *header, *kind_length, rest, octet)
            } else {
                id_length_reason(spot, *header, *kind_length, rest, octet)
            }
        }
    }
}

//! A piece at the front of some bytes, as far as it has come.
ghost use Rattle.std.specs.Prelude.{◌≡◌, ◌+◌, ◌<◌, ◌≤◌, ◌++◌, [], ◌∷◌, length, take, drop, slice_index, true, false, if◌then◌else◌};
ghost use Rattle.ndef_format.specs.Records.{tnf_of};
ghost use Rattle.ndef_format.specs.HeadReasons.{is_set, tnf_number, width};
ghost use Rattle.ndef_piece.specs.Come.{HasParts, IsBegun, IsFrontOf, body_given, come, id_given, id_length_come, id_length_width, payload_length_come};
ghost use Rattle.ndef_piece.specs.Whole.{IsSplit, shown};

use crate::header::header_tnf;
use crate::whole::{WholePiece, whole_piece};
use ndef_format::header::{CHUNK, ID_THERE, is_set, width};
use ndef_value::Tnf;

/// A piece (NDEF 1.0, record layout), as far as it has come, its parts being slices of the bytes that spell it. Octets
/// that have not come count as 0.
#[derive(Clone, Copy, Debug)]
pub struct PieceFront<'a> {
    /// What has come of it: all of a whole piece.
    pub octets: &'a [u8],
    /// The header octet, which also shows the reserved type name format 7.
    pub header: u8,
    /// Whether all of it has come.
    pub whole: bool,
    /// TYPE, 0 to 255 bytes.
    pub kind: &'a [u8],
    /// ID, 0 to 255 bytes, empty where IL is clear.
    pub id: &'a [u8],
    /// PAYLOAD, of this piece alone.
    pub payload: &'a [u8],
}

/// Returns the octets after the first `count`, none if there are fewer.
fn following(octets: &[u8], count: usize) -> &[u8]
    ensures { result.now ≡ drop count octets.now }
{
    octets.split_at(count.min(octets.len())).1
}

/// The first `count` octets, all where there are fewer.
fn front_of(octets: &[u8], count: usize) -> &[u8]
    ensures { result.now ≡ take count octets.now }
{
    octets.split_at(count.min(octets.len())).0
}

/// The octet at a place; 0 where there is none.
fn octet_at(octets: &[u8], place: usize) -> u8
    ensures { result ≡ slice_index octets.now place }
{
    if place < octets.len() {
        octets[place]
    } else {
        0
    }
}

/// The number of octets of ID_LENGTH: 1 with IL, else 0.
fn id_width(header: u8) -> usize
    ensures { result ≡ id_length_width header }
{
    usize::from(is_set(ID_THERE, header))
}

/// ID_LENGTH after PAYLOAD_LENGTH; 0 where there is none.
fn id_length_in(header: u8, tail: &[u8]) -> u8
    ensures { result ≡ id_given header tail.now }
{
    if is_set(ID_THERE, header) {
        octet_at(tail, width(header))
    } else {
        0
    }
}

/// The piece of which these octets have come, and no more.
fn begun_front(octets: &[u8]) -> PieceFront<'_>
    ensures octets { result.octets.now ≡ octets.now }
    ensures header { result.header ≡ slice_index octets.now 0 }
    ensures whole { result.whole ≡ false }
    ensures parts { HasParts result.octets.now result }
    ensures shorter { 0 < length octets.now → length result.payload.now < length octets.now }
{
    let (header, tail) = (octet_at(octets, 0), following(octets, 2));
    let body = following(tail, width(header) + id_width(header));
    let kind_length = usize::from(octet_at(octets, 1));
    let id_length = usize::from(id_length_in(header, tail));
    PieceFront {
        octets,
        header,
        whole: false,
        kind: front_of(body, kind_length),
        id: front_of(following(body, kind_length), id_length),
        payload: following(body, kind_length + id_length),
    }
}

/// A whole piece with which these octets begin.
fn whole_front<'a>(octets: &'a [u8], piece: WholePiece<'a>) -> PieceFront<'a>
    requires split { IsSplit (shown piece) (is_set 4 piece.header) piece.rest.now octets.now }
    requires no_id { is_set 3 piece.header ≡ false → piece.id.now ≡ [] }
    requires fits { 3 + length piece.payload.now + length piece.rest.now ≤ length octets.now }
    ensures joined { octets.now ≡ result.octets.now ++ piece.entry.rest.now }
    ensures header { result.header ≡ piece.entry.header }
    ensures whole { result.whole ≡ true }
    ensures no_id { is_set 3 result.header ≡ false → result.id.now ≡ [] }
    ensures shorter { length result.payload.now < length result.octets.now }
    ensures split { IsSplit (come result) (is_set 4 result.header) piece.entry.rest.now octets.now }
{
    PieceFront {
        octets: octets.split_at(octets.len() - piece.rest.len()).0,
        header: piece.header,
        whole: true,
        kind: piece.kind,
        id: piece.id,
        payload: piece.payload,
    }
}

/// The piece with which these octets begin, as far as it has come, and the bytes after it (NDEF 1.0, record layout).
pub fn piece_front(octets: &[u8]) -> (PieceFront<'_>, &[u8])
    ensures front { IsFrontOf octets.now result.1.now result.0 }
    ensures shorter { 0 < length octets.now → length result.0.payload.now < length result.0.octets.now }
    ensures none { length octets.now ≡ 0 → length result.0.payload.now ≡ 0 }
{
    match whole_piece(octets) {
        Some(piece) => (whole_front(octets, piece), piece.rest),
        None => (begun_front(octets), &[]),
    }
}

impl<'a> PieceFront<'a> {
    /// The type name format (NDEF 1.0, TNF), the reserved 7 being read as Unknown.
    pub fn tnf(&self) -> Tnf
        ensures { result ≡ tnf_of (tnf_number self.now.header) }
    {
        header_tnf(self.header)
    }

    /// CF: whether another piece of its record follows.
    pub fn is_chunked(&self) -> bool
        ensures { result ≡ is_set 5 self.now.header }
    {
        is_set(CHUNK, self.header)
    }

    /// The header octet, as far as it has come: 0 or 1 bytes.
    pub fn header_octets(&self) -> &'a [u8]
        ensures { result.now ≡ take 1 self.now.octets.now }
    {
        front_of(self.octets, 1)
    }

    /// TYPE_LENGTH: 0 or 1 bytes.
    pub fn kind_length_octets(&self) -> &'a [u8]
        ensures { result.now ≡ take 1 (drop 1 self.now.octets.now) }
    {
        front_of(following(self.octets, 1), 1)
    }

    /// PAYLOAD_LENGTH: at most 1 byte in a short record, else at most 4.
    pub fn payload_length_octets(&self) -> &'a [u8]
        ensures { result.now ≡ payload_length_come self.now.octets.now }
    {
        front_of(following(self.octets, 2), width(octet_at(self.octets, 0)))
    }

    /// ID_LENGTH: 0 or 1 bytes.
    pub fn id_length_octets(&self) -> &'a [u8]
        ensures { result.now ≡ id_length_come self.now.octets.now }
    {
        let header = octet_at(self.octets, 0);
        front_of(
            following(following(self.octets, 2), width(header)),
            id_width(header),
        )
    }
}

//! A whole piece at the front of a slice, its parts left where they are.
ghost use Rattle.std.specs.Prelude.{◌≡◌, ◌+◌, ◌^◌, ◌<◌, ◌≤◌, ◌++◌, false, true, length, slice_index, IfNone, IfSome, IsTrue, Some, None, [], if◌then◌else◌};
ghost use Rattle.ndef_format.specs.Records.{FitsForm, id_length_octets, payload_length_octets, tnf_of};
ghost use Rattle.ndef_format.specs.HeadReasons.{is_set, tnf_number, width};
ghost use Rattle.ndef_format.specs.Positions.{IsConsistentAt};
ghost use Rattle.ndef_piece.specs.Whole.{BeginWithHead, BeginWithPiece, IsSplit, shown};

use crate::header::header_tnf;
use crate::standing::{may_occur, opens, suits};
use crate::{Head, Spot};
use ndef_format::header::{BEGIN, CHUNK, END, ID_THERE, SHORT, is_set, tnf_number};
use ndef_value::Tnf;

/// A whole piece (NDEF 1.0, record layout), its parts being slices of the bytes that spell it, and
/// what follows it there.
#[derive(Clone, Copy, Debug, PartialEq, Eq, Hash)]
pub struct WholePiece<'a> {
    /// The header octet, which also shows the reserved type name format 7.
    pub header: u8,
    /// TYPE, 0 to 255 bytes.
    pub kind: &'a [u8],
    /// ID, 0 to 255 bytes, empty where IL is clear.
    pub id: &'a [u8],
    /// PAYLOAD, of this piece alone, 0 to 4294967295 bytes.
    pub payload: &'a [u8],
    /// The bytes after the piece.
    pub rest: &'a [u8],
}

/// PAYLOAD_LENGTH at the front of the bytes, and the rest after it.
#[inline(always)]
fn payload_length_at(header: u8, bytes: &[u8]) -> Option<(u32, &[u8])>
    ensures small { IfSome result (λ r. r.0 < 2 ^ 32) }
    ensures form { IfSome result (λ r. FitsForm (is_set 4 header) r.0) }
    ensures joined { IfSome result (λ r. bytes.now ≡ payload_length_octets (is_set 4 header) r.0 ++ r.1.now) }
    ensures none { IfNone result (length bytes.now < width header) }
{
    if is_set(SHORT, header) {
        let [length, rest @ ..] = bytes else {
            return None;
        };
        Some((u32::from(*length), rest))
    } else {
        let [a, b, c, d, rest @ ..] = bytes else {
            return None;
        };
        Some((u32::from_be_bytes([*a, *b, *c, *d]), rest))
    }
}

/// ID_LENGTH at the front of the bytes, 0 where IL is clear, and the rest after it.
#[inline(always)]
fn id_length_at(header: u8, bytes: &[u8]) -> Option<(u8, &[u8])>
    ensures joined { IfSome result (λ r. bytes.now
        ≡ id_length_octets (if is_set 3 header then Some r.0 else None) ++ r.1.now) }
    ensures clear { is_set 3 header ≡ false → IfSome result (λ r. r.0 ≡ 0) }
    ensures none { IfNone result ((is_set 3 header ≡ true) × (length bytes.now ≡ 0)) }
{
    if !is_set(ID_THERE, header) {
        return Some((0, bytes));
    }
    let [length, rest @ ..] = bytes else {
        return None;
    };
    Some((*length, rest))
}

/// The head at the front of the bytes, and its number of octets, if it is whole and may occur at the spot.
#[inline(always)]
pub(crate) fn head_at(spot: &Spot, bytes: &[u8]) -> Option<(Head, usize)>
    ensures { IfSome result (λ r. BeginWithHead spot.now bytes.now r.0 r.1) }
{
    let [header, kind_length, rest @ ..] = bytes else {
        return None;
    };
    let (payload_length, rest) = payload_length_at(*header, rest)?;
    let (id_length, rest) = id_length_at(*header, rest)?;
    if !may_occur(
        spot,
        *header,
        usize::from(*kind_length),
        usize::from(id_length),
        payload_length as usize,
    ) {
        return None;
    }
    let head = Head {
        first: is_set(BEGIN, *header),
        last: is_set(END, *header),
        chunked: is_set(CHUNK, *header),
        short: is_set(SHORT, *header),
        tnf: header_tnf(*header),
        kind_length: *kind_length,
        payload_length,
        id_length: is_set(ID_THERE, *header).then_some(id_length),
    };
    Some((head, bytes.len() - rest.len()))
}

/// The first `count` bytes, and the rest after them.
#[inline(always)]
fn cut(bytes: &[u8], count: usize) -> Option<(&[u8], &[u8])>
    ensures length { IfSome result (λ r. length r.0.now ≡ count) }
    ensures joined { IfSome result (λ r. bytes.now ≡ r.0.now ++ r.1.now) }
    ensures none { IfNone result (length bytes.now < count) }
{
    if bytes.len() < count {
        return None;
    }
    Some(bytes.split_at(count))
}

/// The piece at the front of the bytes, or None if they don't hold a whole one (NDEF 1.0, record
/// layout). Any header octet will do: the call doesn't check whether the piece may occur in a message.
#[inline(always)]
pub fn whole_piece(bytes: &[u8]) -> Option<WholePiece<'_>>
    ensures piece { IfSome result (λ w. IsSplit (shown w) (is_set 4 w.header) w.rest.now bytes.now) }
    ensures no_id { IfSome result (λ w. is_set 3 w.header ≡ false → w.id.now ≡ []) }
    ensures header { IfSome result (λ w. w.header ≡ slice_index bytes.now 0) }
    ensures fits { IfSome result (λ w. 3 + length w.payload.now + length w.rest.now ≤ length bytes.now) }
    ensures none { IfNone result (¬ BeginWithPiece bytes.now) }
{
    let [header, kind_length, rest @ ..] = bytes else {
        return None;
    };
    let (payload_length, rest) = payload_length_at(*header, rest)?;
    let (id_length, rest) = id_length_at(*header, rest)?;
    let (kind, rest) = cut(rest, usize::from(*kind_length))?;
    let (id, rest) = cut(rest, usize::from(id_length))?;
    let (payload, rest) = cut(rest, payload_length as usize)?;
    Some(WholePiece {
        header: *header,
        kind,
        id,
        payload,
        rest,
    })
}

impl WholePiece<'_> {
    /// The type name format (NDEF 1.0, TNF), the reserved 7 being read as Unknown.
    pub fn tnf(&self) -> Tnf
        ensures { result ≡ tnf_of (tnf_number self.now.header) }
    {
        header_tnf(self.header)
    }

    /// CF: whether another piece of its record follows.
    pub fn is_chunked(&self) -> bool
        ensures { result ≡ is_set 5 self.now.header }
    {
        is_set(CHUNK, self.header)
    }
    /// ME: whether it ends its message.
    pub fn is_last(&self) -> bool
        ensures { result ≡ is_set 6 self.now.header }
    {
        is_set(END, self.header)
    }

    /// Whether it is clear at once that it may occur at the spot and continues the run there (NDEF
    /// 1.0, chunked payloads).
    pub fn goes_on_at(&self, spot: &Spot) -> bool
        requires { spot.now.inside ≡ true }
        ensures { IsTrue result → IsConsistentAt spot.now (shown self.now) }
    {
        tnf_number(self.header) == 6
            && self.kind.is_empty()
            && !is_set(ID_THERE, self.header)
            && suits(spot, self.header, self.payload.len())
    }

    /// Whether it is clear at once that it may occur at the spot and begins a record there.
    #[inline(always)]
    pub fn opens_at(&self, spot: &Spot) -> bool
        ensures stands { IsTrue result → IsConsistentAt spot.now (shown self.now) }
        ensures outside { IsTrue result → spot.now.inside ≡ false }
    {
        opens(
            spot,
            self.header,
            self.kind.len(),
            self.id.len(),
            self.payload.len(),
        )
    }

    /// Whether it is clear at once that it may occur at the spot and is a record in one piece.
    #[inline(always)]
    pub fn is_record_at(&self, spot: &Spot) -> bool
        ensures stands { IsTrue result → IsConsistentAt spot.now (shown self.now) }
        ensures one { IsTrue result → is_set 5 self.now.header ≡ false }
        ensures outside { IsTrue result → spot.now.inside ≡ false }
    {
        !self.is_chunked() && self.opens_at(spot)
    }
}

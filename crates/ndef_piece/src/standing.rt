//! Whether a piece may occur at a spot, by its header octet and its lengths. Only a true answer is conclusive.
ghost use Rattle.std.specs.Prelude.{◌≡◌, ◌≢◌, ◌≤◌, false, true, IsTrue};
ghost use Rattle.ndef_format.specs.Records.{HasShape, IsRead, tnf_of};
ghost use Rattle.ndef_format.specs.HeadReasons.{is_set, tnf_number};
ghost use Rattle.ndef_format.specs.Positions.{CanBeSpelled, MayOccur};
ghost use Rattle.ndef_piece.specs.Whole.{fields_of};

use crate::Spot;
use ndef_format::header::{BEGIN, CHUNK, END, ID_THERE, is_set, tnf_number};
use ndef_value::Profile;

/// Whether a record in one piece may have this type name format and these lengths.
#[inline(always)]
fn has_shape(profile: Profile, tnf: u8, kind: usize, id: usize, payload: usize) -> bool
    ensures { IsTrue result → IsRead profile tnf × (tnf ≢ 6) × HasShape (tnf_of tnf) kind id payload }
{
    if 1 <= tnf && tnf <= 4 {
        return kind > 0;
    }
    match tnf {
        0 => kind == 0 && id == 0 && payload == 0,
        5 => kind == 0,
        7 => matches!(profile, Profile::Standard) && kind == 0,
        _ => false,
    }
}

/// Whether the flags may occur at the spot, and `payload` bytes fit in its payload budget.
#[inline(always)]
pub(crate) fn suits(spot: &Spot, header: u8, payload: usize) -> bool
    ensures begins { IsTrue result → is_set 7 header ≡ spot.now.first }
    ensures chunked { IsTrue result → is_set 5 header ≡ true
        → (is_set 6 header ≡ false) × (spot.now.last_piece ≡ false) }
    ensures followed { IsTrue result → is_set 5 header ≡ false → is_set 6 header ≡ false
        → spot.now.last_record ≡ false }
    ensures room { IsTrue result → payload ≤ spot.now.room }
{
    let is_last = is_set(END, header);
    let followed = if is_set(CHUNK, header) {
        !is_last && !spot.last_piece
    } else {
        is_last || !spot.last_record
    };
    followed && is_set(BEGIN, header) == spot.first && payload <= spot.room as usize
}

/// Whether a piece with this header octet and these lengths may occur at the spot and begins a record there.
#[inline(always)]
pub(crate) fn opens(spot: &Spot, header: u8, kind: usize, id: usize, payload: usize) -> bool
    ensures outside { IsTrue result → spot.now.inside ≡ false }
    ensures read { IsTrue result → IsRead spot.now.profile (tnf_number header) }
    ensures changed { IsTrue result → tnf_number header ≢ 6 }
    ensures some { IsTrue result → is_set 5 header ≡ true → tnf_number header ≢ 0 }
    ensures shape { IsTrue result → HasShape (tnf_of (tnf_number header)) kind id payload }
    ensures begins { IsTrue result → is_set 7 header ≡ spot.now.first }
    ensures chunked { IsTrue result → is_set 5 header ≡ true
        → (is_set 6 header ≡ false) × (spot.now.last_piece ≡ false) }
    ensures followed { IsTrue result → is_set 5 header ≡ false → is_set 6 header ≡ false
        → spot.now.last_record ≡ false }
    ensures room { IsTrue result → payload ≤ spot.now.room }
{
    let tnf = tnf_number(header);
    !spot.inside
        && suits(spot, header, payload)
        && (tnf > 0 || !is_set(CHUNK, header))
        && has_shape(spot.profile, tnf, kind, id, payload)
}

/// Whether a head with this header octet and these lengths may occur at the spot.
pub(crate) fn may_occur(spot: &Spot, header: u8, kind: usize, id: usize, payload: usize) -> bool
    ensures { IsTrue result → CanBeSpelled (fields_of header kind id payload)
        → MayOccur spot.now (fields_of header kind id payload) }
{
    if spot.inside {
        tnf_number(header) == 6
            && kind == 0
            && !is_set(ID_THERE, header)
            && suits(spot, header, payload)
    } else {
        opens(spot, header, kind, id, payload)
    }
}

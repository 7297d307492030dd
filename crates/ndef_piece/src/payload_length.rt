//! The octets of PAYLOAD_LENGTH, most significant first (NDEF 1.0, PAYLOAD_LENGTH).
ghost use Rattle.std.specs.Prelude.{◌≡◌, ◌<◌, ◌≤◌, [], ◌∷◌, ◌++◌, length, ◌⊎◌};
ghost use Rattle.ndef_format.specs.HeadReasons.{width, least_from};
ghost use Rattle.ndef_piece.specs.Ranges.{greatest_from, length_front};

use ndef_format::header::{SHORT, is_set, width};

/// The least and the greatest number of `width` octets, of which these are the front.
pub(crate) fn least_and_greatest(width: usize, front: &[u8]) -> (u32, u32)
    requires widths { (width ≡ 1) ⊎ (width ≡ 4) }
    requires short { length front.now ≤ width }
    ensures least { result.0 ≡ least_from width front.now }
    ensures greatest { result.1 ≡ greatest_from width front.now }
{
    match *front {
        [] if width == 1 => (0, 255),
        [] => (0, u32::MAX),
        [a] if width == 1 => (u32::from(a), u32::from(a)),
        [a] => (
            u32::from_be_bytes([a, 0, 0, 0]),
            u32::from_be_bytes([a, 255, 255, 255]),
        ),
        [a, b] => (
            u32::from_be_bytes([a, b, 0, 0]),
            u32::from_be_bytes([a, b, 255, 255]),
        ),
        [a, b, c] => (
            u32::from_be_bytes([a, b, c, 0]),
            u32::from_be_bytes([a, b, c, 255]),
        ),
        [a, b, c, d, ..] => {
            let n = u32::from_be_bytes([a, b, c, d]);
            (n, n)
        }
    }
}

/// The least number that these octets of PAYLOAD_LENGTH and then one more can spell.
pub(crate) fn least(header: u8, front: &[u8], octet: u8) -> u32
    requires { length front.now < width header }
    ensures { result ≡ least_from (width header) (front.now ++ octet ∷ []) }
{
    match *front {
        [] if is_set(SHORT, header) => u32::from(octet),
        [] => u32::from_be_bytes([octet, 0, 0, 0]),
        [a] => u32::from_be_bytes([a, octet, 0, 0]),
        [a, b] => u32::from_be_bytes([a, b, octet, 0]),
        [a, b, c, ..] => u32::from_be_bytes([a, b, c, octet]),
    }
}

/// The octets of PAYLOAD_LENGTH among these of a head.
pub(crate) fn length_front(taken: &[u8]) -> &[u8]
    ensures { result.now ≡ length_front taken.now }
{
    match taken {
        [header, _, rest @ ..] => {
            let count = width(*header);
            if rest.len() < count {
                rest
            } else {
                &rest[..count]
            }
        }
        _ => &[],
    }
}

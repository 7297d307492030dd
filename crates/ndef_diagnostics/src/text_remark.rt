//! Remarks about the payload of a text.
ghost use Rattle.std.specs.Prelude.{◌≡◌};
ghost use Rattle.ndef_diagnostics.specs.TextRemarks.{is_marked, is_swapped, text_remark, unmarked_remark};

use crate::Remark;
use crate::begun::after;

/// Whether octets begin with a byte order mark of UTF-16.
fn is_marked(octets: &[u8]) -> bool
    ensures { result ≡ is_marked octets.now }
{
    matches!(octets, [0xFE, 0xFF, ..] | [0xFF, 0xFE, ..])
}

/// Whether octets are pairs of which the second octet is 0.
fn is_swapped(octets: &[u8]) -> bool
    ensures { result ≡ is_swapped octets.now }
{
    let mut rest = octets;
    while let [_, second, more @ ..] = rest {
        if *second != 0 {
            return false;
        }
        rest = more;
    }
    rest.is_empty()
}

/// A text after its language code, where it is in UTF-16 or not.
fn unmarked_remark(wide: bool, octets: &[u8]) -> Option<Remark>
    ensures { result ≡ unmarked_remark wide octets.now }
{
    if wide && !octets.is_empty() && !is_marked(octets) && is_swapped(octets) {
        Some(Remark::LittleEndian)
    } else {
        None
    }
}

/// Returns the remark about the payload of a text as a whole (RTD Text 1.0): it is likely little-endian, without a byte
/// order mark. None if nothing strange is known of it.
pub fn text_remark_of(payload: &[u8]) -> Option<Remark>
    ensures { result ≡ text_remark payload.now }
{
    match payload {
        [] => None,
        [status, more @ ..] => {
            unmarked_remark(*status >= 128, after(more, usize::from(*status % 64)))
        }
    }
}

//! The description of a refusal.
ghost use Rattle.std.specs.Prelude.{◌≡◌, length};
ghost use Rattle.ndef_cli_explain.specs.Refusals.{IsSaid, IsShownByte};

use crate::advice::Advice;
use ndef_diagnostics::{Expected, expected_at};
use ndef_fields::{ByteField, field_of_last};
use ndef_value::Refusal;

/// A refused byte, and its field.
#[derive(Clone, Copy)]
pub(crate) struct RefusedByte {
    pub(crate) octet: u8,
    pub(crate) field: ByteField,
}

/// A refusal, the refused byte, if there is one, what was wanted, and a hint, if one is given.
#[derive(Drop)]
pub(crate) struct SaidRefusal {
    pub(crate) refusal: Refusal,
    pub(crate) byte: Option<RefusedByte>,
    pub(crate) expected: Expected,
    pub(crate) advice: Option<Advice>,
}

/// The refused byte, if there is one: its field by the bytes that are read, its octet by those of the input.
fn shown_byte(read: &[u8], bytes: &[u8], refusal: Refusal) -> Option<RefusedByte>
    requires { length bytes.now ≡ length read.now }
    ensures { IsShownByte read.now bytes.now refusal result }
{
    let place = refusal.at as usize;
    if place >= read.len() {
        return None;
    }
    Some(RefusedByte {
        octet: bytes[place],
        field: field_of_last(read.split_at(place + 1).0),
    })
}

/// Returns the description of a refusal of the bytes `read`, with this hint; the input holds `bytes` in their place.
pub(crate) fn said_of(
    read: &[u8],
    bytes: &[u8],
    refusal: Refusal,
    advice: Option<Advice>,
) -> SaidRefusal
    requires { length bytes.now ≡ length read.now }
    ensures { IsSaid read.now bytes.now refusal advice result }
{
    SaidRefusal {
        refusal,
        byte: shown_byte(read, bytes, refusal),
        expected: expected_at(read, refusal),
        advice,
    }
}

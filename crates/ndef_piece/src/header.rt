//! The header octet of a piece (NDEF 1.0, record layout).
ghost use Rattle.std.specs.Prelude.{◌≡◌, is_some};
ghost use Rattle.ndef_format.specs.Records.{code, header_octet, tnf_of};
ghost use Rattle.ndef_format.specs.HeadReasons.{tnf_number};
ghost use Rattle.ndef_piece.specs.Header.{size};

use crate::Head;
use ndef_format::header::{BEGIN, CHUNK, END, ID_THERE, SHORT, is_set, tnf_number, width};
use ndef_value::Tnf;

/// The type name format of a number.
pub(crate) fn tnf_of(number: u8) -> Tnf
    ensures { result ≡ tnf_of number }
{
    match number {
        0 => Tnf::Empty,
        1 => Tnf::WellKnown,
        2 => Tnf::Media,
        3 => Tnf::AbsoluteUri,
        4 => Tnf::External,
        6 => Tnf::Unchanged,
        _ => Tnf::Unknown,
    }
}

/// The type name format that a header octet gives (NDEF 1.0, TNF). The reserved 7 is read as
/// Unknown.
pub fn header_tnf(header: u8) -> Tnf
    ensures { result ≡ tnf_of (tnf_number header) }
{
    tnf_of(tnf_number(header))
}

/// The number of octets of the head.
pub(crate) fn size(header: u8) -> usize
    ensures { result ≡ size header }
{
    2 + width(header) + usize::from(is_set(ID_THERE, header))
}

/// The header octet of a head.
pub(crate) fn header_octet(head: &Head) -> u8
    ensures { result ≡ header_octet head.now.first head.now.last head.now.chunked head.now.short
        (is_some head.now.id_length) (code head.now.tnf) }
{
    u8::from(head.first) << BEGIN
        | u8::from(head.last) << END
        | u8::from(head.chunked) << CHUNK
        | u8::from(head.short) << SHORT
        | u8::from(head.id_length.is_some()) << ID_THERE
        | head.tnf.code()
}

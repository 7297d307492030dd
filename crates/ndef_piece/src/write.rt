//! The head of a piece, written.
ghost use Rattle.std.specs.Prelude.{◌≡◌, ◌≤◌, ◌++◌, length, drop};
ghost use Rattle.ndef_format.specs.Records.{octets, FitsForm};
ghost use Rattle.ndef_piece.specs.Heads.{written_fields, IsWholeHead};
ghost use Rattle.ndef_format.specs.Positions.{MayOccur};
ghost use Rattle.ndef_format.specs.declared.spot.Spot.{Spot};

use crate::Head;
use crate::header::header_octet;
use byteorder::{BigEndian, ByteOrder};

/// Writes the octets of a head (NDEF 1.0, record layout) up to ID_LENGTH, leaves the rest of `out`
/// as it is, and returns their number, 3 to 7. The short form is for at most 255 payload bytes. No
/// head is written with the reserved type name format 7.
pub fn write_head(head: &Head, out: &mut [u8; 7]) -> usize
    requires { FitsForm head.now.short head.now.payload_length }
    ensures written { out.new ≡ octets (written_fields head.now) ++ drop result out.old }
    ensures count { result ≡ length (octets (written_fields head.now)) }
    ensures few { (3 ≤ result) × (result ≤ 7) }
    // If the head may occur at a spot, these octets are read as it there.
    ensures read_back { (spot : Spot) → MayOccur spot (written_fields head.now)
        → IsWholeHead spot (octets (written_fields head.now)) head.now }
{
    out[0] = header_octet(head);
    out[1] = head.kind_length;
    let at = if head.short {
        out[2] = head.payload_length as u8;
        3
    } else {
        BigEndian::write_u32(&mut out[2..], head.payload_length);
        6
    };
    match head.id_length {
        Some(length) => {
            out[at] = length;
            at + 1
        }
        None => at,
    }
}

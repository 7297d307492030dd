//! The field of each byte of a payload, its chunks joined.
ghost use Rattle.std.specs.Prelude.{◌≡◌, ◌≢◌, ◌<◌, ◌↔◌, ◌⊎◌, List};
ghost use Rattle.ndef_fields.specs.Reports.{ArePayloadFields};
ghost use Rattle.ndef_fields.specs.declared.field.Field.{Field as Part};
ghost use Rattle.ndef_c.specs.Fields.{GivesEach, GivesPayloadFields};

use crate::fields::{NdefField, too_many, write_fields};
use crate::status::{BAD_ARGUMENT, BUFFER_TOO_SMALL, OK};
use crate::writing::tnf_of;
use ndef_fields::{payload_fields, payload_fields_are_exact};
use ndef_lang::Kind;

/// Writes the fields of a payload of this kind, if the array is large enough, and sets `count` to their number.
fn give_payload_fields(
    kind: Kind,
    payload: &[u8],
    array: &mut [NdefField],
    count: &mut usize,
) -> u32
    ensures known { (result ≡ BUFFER_TOO_SMALL) ⊎ (result ≡ OK) }
    ensures fields { (reported : List Part) × ArePayloadFields kind payload.now reported
        × GivesEach reported OK array.old array.new count.new result }
{
    // For the proof alone.
    payload_fields_are_exact();
    let Some(needed) = too_many(payload_fields(kind, payload), payload.len(), array.len()) else {
        *count = write_fields(payload_fields(kind, payload), array);
        return OK;
    };
    *count = needed;
    BUFFER_TOO_SMALL
}

/// Gives the field of each byte of the payload of a record with a type name format and a type, its chunks joined (RTD
/// Text 1.0, RTD URI 1.0, RTD Smart Poster 1.0 and Connection Handover 1.2).
#[unsafe(no_mangle)]
pub extern "C" fn ndef_payload_fields(
    tnf: u32,
    kind: &[u8],
    payload: &[u8],
    fields: &mut [NdefField],
    count: &mut usize,
) -> u32
    ensures bad { result ≡ BAD_ARGUMENT ↔ (5 < tnf) }
    ensures kept { result ≡ BAD_ARGUMENT → (fields.new ≡ fields.old) × (count.new ≡ count.old) }
    ensures fields { result ≢ BAD_ARGUMENT
        → GivesPayloadFields tnf kind.now payload.now fields.old fields.new count.new result }
{
    let Some(tnf) = tnf_of(tnf) else {
        return BAD_ARGUMENT;
    };
    give_payload_fields(Kind::of(tnf, kind), payload, fields, count)
}

//! Writes a record.
ghost use Rattle.std.specs.Prelude.{◌≡◌, ◌≢◌, ◌+◌, ◌*◌, ◌≤◌, ◌<◌, ◌^◌, [], length, unwrap_or, Some, IfNone, IfSome, IsNone, IsTrue, ◌↔◌, ℕ};
ghost use Rattle.ndef_format.specs.Records.{FitsForm, HasShape, tnf_of};
ghost use Rattle.ndef_format.specs.Canonical.{HasLengths};
ghost use Rattle.ndef_format.specs.declared.tnf.Tnf.TheVariants.{Unchanged};
ghost use Rattle.ndef_c.specs.Buffers.{Gives, Puts};
ghost use Rattle.ndef_c.specs.Normalizing.{IsWhole};
ghost use Rattle.ndef_c.specs.Writes.{item_of, octets_by, octets_of_piece, asked, asked_octets, is_first, is_last, form_of, size_of, LastBegins, MayBeWritten};

use crate::out::Out;
use crate::status::{BAD_ARGUMENT, BUFFER_TOO_SMALL, OK};
use ndef_message::{Form, Standing, first_head, first_part, later_head};
use ndef_piece::{Head, write_head};
use ndef_value::Tnf;

/// How a record is written.
#[repr(C)]
#[derive(Clone, Copy, Drop)]
pub struct NdefWriting {
    /// The type name format, 0 to 5.
    pub tnf: u32,
    /// 1 for the first record of the message, 2 for the last, 3 for both, and 4 more for the long form.
    pub flags: u32,
    /// The payload bytes of a chunk, or 0 for one chunk.
    pub chunk: u32,
}

/// The parts of a record.
#[derive(Clone, Copy)]
pub(crate) struct Parts<'a> {
    tnf: Tnf,
    kind: &'a [u8],
    id: &'a [u8],
    payload: &'a [u8],
}

/// The position of a record in its message, and the way in which it is written.
#[derive(Clone, Copy)]
pub(crate) struct Placement {
    pub(crate) first: bool,
    pub(crate) last: bool,
    pub(crate) form: Form,
    /// The payload bytes of a piece, at least 1.
    pub(crate) size: usize,
}

/// The type name format of a record with a number (NDEF 1.0, TNF).
pub(crate) fn tnf_of(number: u32) -> Option<Tnf>
    ensures some { IfSome result (λ t. t ≡ tnf_of number) }
    ensures known { IfSome result (λ _. number ≤ 5) }
    ensures none { IsNone result → 5 < number }
{
    match number {
        0 => Some(Tnf::Empty),
        1 => Some(Tnf::WellKnown),
        2 => Some(Tnf::Media),
        3 => Some(Tnf::AbsoluteUri),
        4 => Some(Tnf::External),
        5 => Some(Tnf::Unknown),
        _ => None,
    }
}

/// Whether parts of such lengths go with a type name format (NDEF 1.0, TNF).
fn has_shape(tnf: Tnf, kind: usize, id: usize, payload: usize) -> bool
    ensures { IsTrue result ↔ ((tnf ≢ Unchanged) × HasShape tnf kind id payload) }
{
    match tnf {
        Tnf::Empty => kind == 0 && id == 0 && payload == 0,
        Tnf::WellKnown | Tnf::Media | Tnf::AbsoluteUri | Tnf::External => kind > 0,
        Tnf::Unknown => kind == 0,
        Tnf::Unchanged => false,
    }
}

/// Whether parts of such lengths can be a record in one piece.
pub(crate) fn is_whole(tnf: Tnf, kind: usize, id: usize, payload: usize) -> bool
    ensures { IsTrue result ↔ IsWhole tnf kind id payload }
{
    has_shape(tnf, kind, id, payload) && kind <= 255 && id <= 255 && payload <= u32::MAX as usize
}

/// Writes a piece.
#[inline(always)]
pub(crate) fn put_piece(out: &mut Out<'_>, head: &Head, kind: &[u8], id: &[u8], part: &[u8])
    requires { FitsForm head.now.short head.now.payload_length }
    ensures put { Puts out.old (octets_of_piece head.now kind.now id.now part.now) out.new }
    ensures most { length (octets_of_piece head.now kind.now id.now part.now)
        ≤ 7 + (length kind.now + (length id.now + length part.now)) }
{
    let mut octets = [0; 7];
    let count = write_head(head, &mut octets);
    out.put(&octets[..count]);
    out.put(kind);
    out.put(id);
    out.put(part);
}

/// Writes a record so, and answers where its last piece begins.
#[inline(always)]
pub(crate) fn put_record(out: &mut Out<'_>, parts: &Parts<'_>, way: Placement) -> usize
    requires lengths { HasLengths (item_of parts.now) }
    requires some { 1 ≤ way.size }
    requires place { out.old.at < 2 ^ 63 }
    ensures put { Puts out.old (octets_by way (item_of parts.now)) out.new }
    ensures bound { length (octets_by way (item_of parts.now)) < 2 ^ 36 }
    ensures last { (at : ℕ) × LastBegins way.form way.first way.last (Some way.size) (item_of parts.now) at
        × (result ≡ out.old.at + at) }
{
    let (part, following) = first_part(parts.payload, way.size);
    let alone = following.is_empty();
    let standing = Standing {
        first: way.first,
        last: way.last,
        alone,
    };
    let head = first_head(
        parts.tnf,
        parts.kind.len(),
        parts.id.len(),
        part.len(),
        standing,
        way.form,
    );
    let mut last = out.at();
    put_piece(out, &head, parts.kind, parts.id, part);
    let mut rest = following;
    while !rest.is_empty() {
        let (part, later) = first_part(rest, way.size);
        let head = later_head(way.last, later.is_empty(), way.form, part.len());
        last = out.at();
        put_piece(out, &head, &[], &[], part);
        rest = later;
    }
    last
}

/// Returns the position of a record, and the way in which it is written, from the numbers.
pub(crate) fn way_of(how: &NdefWriting) -> Placement
    ensures first { result.first ≡ is_first how.now }
    ensures last { result.last ≡ is_last how.now }
    ensures form { result.form ≡ form_of how.now }
    ensures size { result.size ≡ unwrap_or (size_of how.now) 4294967295 }
{
    Placement {
        first: how.flags % 2 == 1,
        last: how.flags / 2 % 2 == 1,
        form: if how.flags >= 4 {
            Form::Long
        } else {
            Form::Short
        },
        size: if how.chunk == 0 {
            u32::MAX as usize
        } else {
            how.chunk as usize
        },
    }
}

/// Returns the parts of a record that is requested, if it may be written.
pub(crate) fn asked_parts<'a>(
    kind: &'a [u8],
    id: &'a [u8],
    payload: &'a [u8],
    how: &NdefWriting,
) -> Option<Parts<'a>>
    ensures none { IfNone result (¬ MayBeWritten how.now (asked how.now kind.now id.now payload.now)) }
    ensures may { IfSome result (λ _. MayBeWritten how.now (asked how.now kind.now id.now payload.now)) }
    ensures some { IfSome result (λ p. item_of p ≡ asked how.now kind.now id.now payload.now) }
{
    let Some(tnf) = tnf_of(how.tnf) else {
        return None;
    };
    if how.flags > 7 || !is_whole(tnf, kind.len(), id.len(), payload.len()) {
        return None;
    }
    Some(Parts {
        tnf,
        kind,
        id,
        payload,
    })
}

/// Writes a record to the buffer (NDEF 1.0, record layout and chunked payloads), as the numbers say; an
/// empty id isn't written.
#[unsafe(no_mangle)]
pub extern "C" fn ndef_write_record(
    kind: &[u8],
    id: &[u8],
    payload: &[u8],
    how: &NdefWriting,
    buffer: &mut [u8],
    count: &mut usize,
) -> u32
    ensures bad { result ≡ BAD_ARGUMENT ↔ ¬ MayBeWritten how.now (asked how.now kind.now id.now payload.now) }
    ensures kept { result ≡ BAD_ARGUMENT → (buffer.new ≡ buffer.old) × (count.new ≡ count.old) }
    ensures written { MayBeWritten how.now (asked how.now kind.now id.now payload.now)
        → Gives (asked_octets how.now (asked how.now kind.now id.now payload.now))
        buffer.old buffer.new count.new result }
{
    let Some(parts) = asked_parts(kind, id, payload, how) else {
        return BAD_ARGUMENT;
    };
    let way = way_of(how);
    let mut counter = Out::new(&mut [], 0);
    let _last = put_record(&mut counter, &parts, way);
    *count = counter.at();
    if buffer.len() < *count {
        return BUFFER_TOO_SMALL;
    }
    let _last = put_record(&mut Out::new(buffer, 0), &parts, way);
    OK
}

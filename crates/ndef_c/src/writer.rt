//! A record that is written in steps.
ghost use Rattle.std.specs.Prelude.{◌≡◌, ◌≢◌, ◌≤◌, ◌↔◌, List, ℕ, IfSome, IsNone};
ghost use Rattle.ndef_message.specs.Steps.{AreLeft, LeavesNothing};
ghost use Rattle.ndef_c.specs.Writers.{BeginsAsWritten, IsWriter, MayBegin, MayGoOn, MovesOn, asked_plan, begun_of, unwritten};

use crate::status::{BAD_ARGUMENT, END, OK};
use crate::writing::{NdefWriting, tnf_of, way_of};
use ndef_message::{Progress, RecordEncoder, RecordPlan};

/// A record that is written in steps, for a caller that does not have the whole payload, or no memory for the record.
/// It is plain numbers: it may be copied and kept.
#[repr(C)]
#[derive(Clone, Copy, Drop)]
pub struct NdefWriter {
    /// How the record is written.
    pub how: NdefWriting,
    /// The bytes of the type.
    pub type_length: u32,
    /// The bytes of the id.
    pub id_length: u32,
    /// The bytes of the whole payload.
    pub payload_length: u32,
    /// The bytes of the payload that are written.
    pub taken: u32,
    /// The bytes that are written of the head, type and id of the chunk that is begun. It is 0 once the whole payload
    /// is written, where that has a byte.
    pub head: u32,
}

/// Returns the plan of the record that is requested.
fn plan_of(how: &NdefWriting, kind: usize, id: usize, payload: usize) -> Option<RecordPlan>
    ensures none { IsNone result → ¬ MayBegin how.now (record { kind = kind; id = id; payload = payload }) }
    ensures some { IfSome result (λ p. p ≡ asked_plan how.now (record { kind = kind; id = id; payload = payload })) }
    ensures flags { IfSome result (λ _. how.now.flags ≤ 7) }
    ensures tnf { IfSome result (λ _. how.now.tnf ≤ 5) }
{
    let Some(tnf) = tnf_of(how.tnf) else {
        return None;
    };
    if how.flags > 7 {
        return None;
    }
    let way = way_of(how);
    Some(RecordPlan {
        tnf,
        kind_length: kind,
        id_length: id,
        payload_length: payload,
        first: way.first,
        last: way.last,
        form: way.form,
        size: if how.chunk == 0 {
            None
        } else {
            Some(how.chunk)
        },
    })
}

/// The encoder that a writer describes, if a call left it so.
fn encoder_of(writer: &NdefWriter) -> Option<RecordEncoder>
    ensures none { IsNone result → ¬ IsWriter writer.now }
    ensures some { IfSome result (λ e. e ≡ begun_of writer.now) }
    ensures is { IfSome result (λ _. IsWriter writer.now) }
{
    let Some(plan) = plan_of(
        &writer.how,
        writer.type_length as usize,
        writer.id_length as usize,
        writer.payload_length as usize,
    ) else {
        return None;
    };
    let progress = Progress {
        taken: writer.taken as usize,
        head: writer.head as usize,
    };
    RecordEncoder::resume(plan, progress)
}

/// Begins a record that is written in steps, whose type, id and payload have these lengths. Nothing of it is written
/// yet.
/// - `OK`: the writer holds it.
/// - `BAD_ARGUMENT`: what `ndef_write_record` answers so of a type, an id and a payload of these lengths.
#[unsafe(no_mangle)]
pub extern "C" fn ndef_writer_begin(
    writer: &mut NdefWriter,
    type_length: usize,
    id_length: usize,
    payload_length: usize,
    how: &NdefWriting,
) -> u32
    ensures bad { result ≡ BAD_ARGUMENT
        ↔ ¬ MayBegin how.now (record { kind = type_length; id = id_length; payload = payload_length }) }
    ensures kept { result ≡ BAD_ARGUMENT → writer.new ≡ writer.old }
    ensures begun { result ≢ BAD_ARGUMENT → (result ≡ OK) × (writer.new
        ≡ unwritten how.now (record { kind = type_length; id = id_length; payload = payload_length })) }
    // It begins where `ndef_write_record` writes, and all bytes of that are left then.
    ensures same { BeginsAsWritten how.now (record { kind = type_length; id = id_length; payload = payload_length }) }
{
    let Some(plan) = plan_of(how, type_length, id_length, payload_length) else {
        return BAD_ARGUMENT;
    };
    if RecordEncoder::new(plan).is_none() {
        return BAD_ARGUMENT;
    }
    *writer = NdefWriter {
        how: *how,
        type_length: type_length as u32,
        id_length: id_length as u32,
        payload_length: payload_length as u32,
        taken: 0,
        head: 0,
    };
    OK
}

/// Writes the next bytes of the record to the buffer, as many as there are and fit. `part` is the payload from byte
/// `writer->taken` on, or as much of it as is at hand: the call takes what it writes, and moves `writer->taken` on by
/// that. The type and the id are the same in each call. What the calls write, one after another, is what
/// `ndef_write_record` writes of the whole payload.
/// - `OK`: `*count` bytes were written. Where they do not fill the buffer, the whole part was taken, and either more of
///   the payload is needed (`*count` may then be 0) or the record is whole.
/// - `END`: the record is whole.
/// - `BAD_ARGUMENT`: the part is longer than the rest of the payload; the type or the id has another length than
///   `ndef_writer_begin` was given; the writer holds what these calls never write.
#[unsafe(no_mangle)]
pub extern "C" fn ndef_writer_next(
    writer: &mut NdefWriter,
    kind: &[u8],
    id: &[u8],
    part: &[u8],
    buffer: &mut [u8],
    count: &mut usize,
) -> u32
    ensures bad { result ≡ BAD_ARGUMENT
        ↔ ¬ MayGoOn writer.old (record { kind = kind.now; id = id.now; part = part.now }) }
    ensures end { (rest : List ℕ) → MayGoOn writer.old (record { kind = kind.now; id = id.now; part = part.now })
        → AreLeft (begun_of writer.old) kind.now id.now rest
        → result ≡ END ↔ LeavesNothing (begun_of writer.old) kind.now id.now rest }
    ensures kept { result ≢ OK → (writer.new ≡ writer.old) × (buffer.new ≡ buffer.old) × (count.new ≡ count.old) }
    ensures written { result ≢ BAD_ARGUMENT → result ≢ END → (result ≡ OK) × MovesOn writer.old
        (record { kind = kind.now; id = id.now; part = part.now }) buffer.old buffer.new count.new writer.new }
{
    let Some(mut encoder) = encoder_of(writer) else {
        return BAD_ARGUMENT;
    };
    let whole = encoder.is_whole();
    let Ok(written) = encoder.next(kind, id, part, buffer) else {
        return BAD_ARGUMENT;
    };
    if whole {
        return END;
    }
    let progress = encoder.progress();
    *count = written;
    writer.taken = progress.taken as u32;
    writer.head = progress.head as u32;
    OK
}

//! Writes a record in steps.
ghost use Rattle.std.specs.Prelude.{◌≡◌, ◌≤◌, ◌<◌, ◌+◌, ◌-◌, ◌++◌, [], List, ℕ, false, true, min, length, take, drop, IsTrue, ◌↔◌};
ghost use Rattle.std.specs.Option.{ForSome};
ghost use Rattle.ndef_format.specs.Records.{FitsForm};
ghost use Rattle.ndef_piece.specs.Heads.{written_fields};
ghost use Rattle.ndef_message.specs.Machine.Stepping.{IsWaiting, PutsAt, advanced};
ghost use Rattle.ndef_message.specs.Steps.{AreLeft, AreNames, CanBeWritten, IsBegun, LeavesNothing, Steps, IsProgress, chunk_begin, chunk_fields, chunk_front, chunk_length, chunk_size, front_length, is_last_chunk, is_over};

use crate::heads::{Standing, first_head, later_head};
use crate::plan::{Progress, RecordPlan};
use ndef_piece::{Head, write_head};
use ndef_value::Tnf;

/// A chunk of a record.
#[derive(Clone, Copy)]
struct Chunk {
    /// The byte of the payload with which it begins.
    begin: usize,
    /// Its bytes of the payload.
    length: usize,
    /// It is the last of its record.
    ends: bool,
}

/// The result of a step.
#[derive(Clone, Copy)]
pub(crate) struct Stepped {
    /// The progress in the record after the step.
    pub(crate) progress: Progress,
    /// The bytes that went out.
    pub(crate) count: usize,
}

/// The chunk that is begun.
fn chunk_at(plan: &RecordPlan, taken: usize) -> Chunk
    requires size { ForSome plan.now.size (λ n. 1 ≤ n) }
    requires taken { taken ≤ plan.now.payload_length }
    ensures begin { result.begin ≡ chunk_begin plan.now taken }
    ensures length { result.length ≡ chunk_length plan.now (chunk_begin plan.now taken) }
    ensures ends { result.ends ≡ is_last_chunk plan.now (chunk_begin plan.now taken) }
    ensures within { taken ≤ result.begin + result.length }
{
    let size = plan.size.unwrap_or(u32::MAX) as usize;
    let begin = taken - taken % size;
    let left = plan.payload_length - begin;
    Chunk {
        begin,
        length: left.min(size),
        ends: left <= size,
    }
}

/// The head of a chunk.
fn head_of(plan: &RecordPlan, chunk: Chunk) -> Head
    requires can { CanBeWritten plan.now }
    requires length { chunk.length ≡ chunk_length plan.now chunk.begin }
    requires ends { chunk.ends ≡ is_last_chunk plan.now chunk.begin }
    ensures head { written_fields result ≡ chunk_fields plan.now chunk.begin }
    ensures form { FitsForm result.short result.payload_length }
{
    if chunk.begin == 0 {
        let standing = Standing {
            first: plan.first,
            last: plan.last,
            alone: chunk.ends,
        };
        first_head(
            plan.tnf,
            plan.kind_length,
            plan.id_length,
            chunk.length,
            standing,
            plan.form,
        )
    } else {
        later_head(plan.last, chunk.ends, plan.form, chunk.length)
    }
}

/// Puts as many of the bytes at a place of the buffer as fit, and returns their number.
fn put(bytes: &[u8], buffer: &mut [u8], at: usize) -> usize
    requires { at ≤ length buffer.old }
    ensures count { result ≡ min (length bytes.now) (length buffer.old - at) }
    ensures put { PutsAt at (take result bytes.now) buffer.old buffer.new result }
{
    let count = bytes.len().min(buffer.len() - at);
    buffer[at..at + count].copy_from_slice(&bytes[..count]);
    count
}

/// Returns the rest of some bytes, of which the first `out` are written.
pub(crate) fn rest_of(bytes: &[u8], out: usize) -> &[u8]
    ensures { result.now ≡ drop out bytes.now }
{
    &bytes[out.min(bytes.len())..]
}

/// Puts the rest of a head, a type and an id, as far as it fits.
fn put_front(head: &[u8], kind: &[u8], id: &[u8], out: usize, buffer: &mut [u8], at: usize) -> usize
    requires { at ≤ length buffer.old }
    ensures count { result ≡ min (length (drop out (head.now ++ (kind.now ++ id.now)))) (length buffer.old - at) }
    ensures put { PutsAt at (take result (drop out (head.now ++ (kind.now ++ id.now)))) buffer.old buffer.new result }
{
    let of_head = put(rest_of(head, out), buffer, at);
    let after_head = out.saturating_sub(head.len());
    let of_kind = put(rest_of(kind, after_head), buffer, at + of_head);
    let after_kind = after_head.saturating_sub(kind.len());
    let of_id = put(rest_of(id, after_kind), buffer, at + of_head + of_kind);
    of_head + of_kind + of_id
}

/// Puts the rest of the head, type and id of a chunk, as far as it fits. `out` of their bytes are out.
fn put_chunk_front(
    plan: &RecordPlan,
    chunk: Chunk,
    kind: &[u8],
    id: &[u8],
    out: usize,
    buffer: &mut [u8],
    at: usize,
) -> usize
    requires can { CanBeWritten plan.now }
    requires length { chunk.length ≡ chunk_length plan.now chunk.begin }
    requires ends { chunk.ends ≡ is_last_chunk plan.now chunk.begin }
    requires at { at ≤ length buffer.old }
    ensures count { result ≡ min (length (drop out (chunk_front plan.now chunk.begin kind.now id.now)))
        (length buffer.old - at) }
    ensures put { PutsAt at (take result (drop out (chunk_front plan.now chunk.begin kind.now id.now)))
        buffer.old buffer.new result }
{
    let mut octets = [0; 7];
    let count = write_head(&head_of(plan, chunk), &mut octets);
    if chunk.begin == 0 {
        put_front(&octets[..count], kind, id, out, buffer, at)
    } else {
        put_front(&octets[..count], &[], &[], out, buffer, at)
    }
}

/// Returns the progress in a record after this many bytes of a chunk's front and of its payload.
fn advanced(chunk: Chunk, progress: Progress, of_front: usize, of_part: usize) -> Progress
    requires taken { progress.taken + of_part ≤ 4294967295 }
    requires front { progress.head + of_front ≤ 4294967295 }
    requires chunk { chunk.begin + chunk.length ≤ 4294967295 }
    ensures { result ≡ advanced (chunk.begin + chunk.length) progress of_front of_part }
{
    let taken = progress.taken + of_part;
    let ends = of_part > 0 && taken == chunk.begin + chunk.length;
    Progress {
        taken,
        head: if ends { 0 } else { progress.head + of_front },
    }
}

/// Writes the rest of the chunk that is begun, as far as it fits and the part has it.
fn step(
    plan: &RecordPlan,
    progress: Progress,
    kind: &[u8],
    id: &[u8],
    part: &[u8],
    buffer: &mut [u8],
    at: usize,
) -> Stepped
    requires can { CanBeWritten plan.now }
    requires size { ForSome plan.now.size (λ n. 1 ≤ n) }
    requires names { AreNames plan.now kind.now id.now }
    requires is { IsProgress plan.now progress }
    requires unfinished { is_over plan.now progress ≡ false }
    requires part { progress.taken + length part.now ≤ plan.now.payload_length }
    requires at { at ≤ length buffer.old }
    ensures steps { (text : List ℕ) × PutsAt at text buffer.old buffer.new result.count
        × Steps plan.now kind.now id.now part.now progress result.progress text }
    ensures is { IsProgress plan.now result.progress }
    ensures none { result.count ≡ 0 → at < length buffer.old
        → (part.now ≡ []) × IsWaiting plan.now progress }
{
    let chunk = chunk_at(plan, progress.taken);
    let of_front = put_chunk_front(plan, chunk, kind, id, progress.head, buffer, at);
    let there = chunk.begin + chunk.length - progress.taken;
    let of_part = put(&part[..part.len().min(there)], buffer, at + of_front);
    Stepped {
        progress: advanced(chunk, progress, of_front, of_part),
        count: of_front + of_part,
    }
}

/// Whether a payload that has a byte is written.
fn is_over(plan: &RecordPlan, progress: Progress) -> bool
    ensures { result ≡ is_over plan.now progress }
{
    plan.payload_length > 0 && progress.taken == plan.payload_length
}

/// Writes the next bytes of a record from a place of the buffer on, as many as there are and fit.
pub(crate) fn fill(
    plan: &RecordPlan,
    progress: Progress,
    kind: &[u8],
    id: &[u8],
    part: &[u8],
    buffer: &mut [u8],
    at: usize,
) -> Stepped
    requires can { CanBeWritten plan.now }
    requires size { ForSome plan.now.size (λ n. 1 ≤ n) }
    requires names { AreNames plan.now kind.now id.now }
    requires is { IsProgress plan.now progress }
    requires part { progress.taken + length part.now ≤ plan.now.payload_length }
    requires at { at ≤ length buffer.old }
    ensures steps { (text : List ℕ) × PutsAt at text buffer.old buffer.new result.count
        × Steps plan.now kind.now id.now part.now progress result.progress text }
    ensures is { IsProgress plan.now result.progress }
    ensures full { at + result.count < length buffer.old
        → (result.progress.taken ≡ progress.taken + length part.now) × IsWaiting plan.now result.progress }
{
    let mut reached = progress;
    let mut end = at;
    'steps: while end < buffer.len() && !is_over(plan, reached) {
        let rest = rest_of(part, reached.taken - progress.taken);
        let next = step(plan, reached, kind, id, rest, buffer, end);
        if next.count == 0 {
            break 'steps;
        }
        reached = next.progress;
        end += next.count;
    }
    Stepped {
        progress: reached,
        count: end - at,
    }
}

/// Whether a record has such a plan: its lengths go with the type name format, and a head can say them.
pub(crate) fn can_be_written(plan: &RecordPlan) -> bool
    ensures { IsTrue result ↔ CanBeWritten plan.now }
{
    let goes = match plan.tnf {
        Tnf::Empty => plan.kind_length == 0 && plan.id_length == 0 && plan.payload_length == 0,
        Tnf::WellKnown | Tnf::Media | Tnf::AbsoluteUri | Tnf::External => plan.kind_length > 0,
        Tnf::Unknown => plan.kind_length == 0,
        Tnf::Unchanged => false,
    };
    goes && plan.kind_length <= 255
        && plan.id_length <= 255
        && plan.payload_length <= u32::MAX as usize
}

/// The bytes of a chunk before its payload.
fn front_length(plan: &RecordPlan, chunk: Chunk) -> usize
    requires can { CanBeWritten plan.now }
    requires length { chunk.length ≡ chunk_length plan.now chunk.begin }
    requires ends { chunk.ends ≡ is_last_chunk plan.now chunk.begin }
    ensures { result ≡ front_length plan.now chunk.begin }
{
    let count = write_head(&head_of(plan, chunk), &mut [0; 7]);
    if chunk.begin == 0 {
        count + plan.kind_length + plan.id_length
    } else {
        count
    }
}

/// Whether writing in steps leaves this much of the record.
pub(crate) fn is_progress(plan: &RecordPlan, progress: Progress) -> bool
    requires can { CanBeWritten plan.now }
    requires size { ForSome plan.now.size (λ n. 1 ≤ n) }
    ensures { IsTrue result ↔ IsProgress plan.now progress }
{
    if progress.taken > plan.payload_length {
        return false;
    }
    if is_over(plan, progress) {
        return progress.head == 0;
    }
    let chunk = chunk_at(plan, progress.taken);
    let front = front_length(plan, chunk);
    if progress.taken == chunk.begin {
        progress.head <= front
    } else {
        progress.head == front
    }
}

/// Whether the whole record is written.
pub(crate) fn is_whole(plan: &RecordPlan, progress: Progress) -> bool
    requires { IsBegun (record { plan = plan.now; progress = progress }) }
    ensures { (kind id rest : List ℕ) → AreLeft (record { plan = plan.now; progress = progress }) kind id rest
        → IsTrue result ↔ LeavesNothing (record { plan = plan.now; progress = progress }) kind id rest }
{
    if plan.payload_length > 0 {
        progress.taken == plan.payload_length
    } else {
        progress.head == front_length(plan, chunk_at(plan, 0))
    }
}

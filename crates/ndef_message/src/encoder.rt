//! A message that is encoded in steps.
ghost use Rattle.std.specs.Prelude.{◌≡◌, ◌≤◌, ◌<◌, ◌+◌, ◌++◌, ◌⊎◌, List, ℕ, min, length, take, drop};
ghost use Rattle.std.specs.Option.{ForSome};
ghost use Rattle.ndef_format.specs.Canonical.{AreItems, IsItem};
ghost use Rattle.ndef_message.specs.Machine.Encoding.{IsSpot, message_left, plan_of};
ghost use Rattle.ndef_message.specs.Machine.Stepping.{PutsAt};
ghost use Rattle.ndef_message.specs.Steps.{CanBeWritten};
ghost use Rattle.ndef_message.specs.Written.{cut_octets};

use crate::Form;
use crate::plan::{Progress, RecordPlan};
use crate::stepping::{fill, is_whole, rest_of};
use ndef_value::{Message, Record};
use std::marker::Model;

/// The position of a writer in a message.
#[derive(Clone, Copy, Debug)]
struct Spot {
    /// The record, counted from 0.
    index: usize,
    /// The progress in that record.
    progress: Progress,
}

/// The result of a step.
#[derive(Clone, Copy)]
struct Filled {
    spot: Spot,
    /// The bytes that went out.
    count: usize,
}

/// Returns the plan by which a record is written.
fn plan_of(record: &Record, first: bool, last: bool, form: Form, size: Option<u32>) -> RecordPlan
    ensures value { result ≡ plan_of form size first last record.now }
    ensures can { CanBeWritten result }
{
    RecordPlan {
        tnf: record.tnf(),
        kind_length: record.kind().len(),
        id_length: record.id().len(),
        payload_length: record.payload().len(),
        first,
        last,
        form,
        size,
    }
}

/// Writes the next bytes of a record from a place of the buffer on, as many as fit.
fn fill_record(
    message: &Message,
    form: Form,
    size: Option<u32>,
    spot: Spot,
    buffer: &mut [u8],
    at: usize,
) -> Filled
    requires is { IsSpot form size message.now spot }
    requires index { spot.index < length message.now }
    requires at { at ≤ length buffer.old }
    ensures written { (text : List ℕ) × PutsAt at text buffer.old buffer.new result.count
        × (message_left form size message.now spot ≡ text ++ message_left form size message.now result.spot) }
    ensures is { IsSpot form size message.now result.spot }
    ensures moves { ((result.spot.index ≡ spot.index) × (at + result.count ≡ length buffer.old))
        ⊎ (result.spot.index ≡ spot.index + 1) }
{
    let count = message.len();
    let record = message.get(spot.index).unwrap();
    let plan = plan_of(record, spot.index == 0, spot.index + 1 == count, form, size);
    let rest = rest_of(record.payload(), spot.progress.taken);
    let next = fill(
        &plan,
        spot.progress,
        record.kind(),
        record.id(),
        rest,
        buffer,
        at,
    );
    let spot = if is_whole(&plan, next.progress) {
        Spot {
            index: spot.index + 1,
            progress: Progress { taken: 0, head: 0 },
        }
    } else {
        Spot {
            index: spot.index,
            progress: next.progress,
        }
    };
    Filled {
        spot,
        count: next.count,
    }
}

/// Writes the next bytes of a message to the front of the buffer, as many as fit.
fn fill_message(
    message: &Message,
    form: Form,
    size: Option<u32>,
    spot: Spot,
    buffer: &mut [u8],
) -> Filled
    requires { IsSpot form size message.now spot }
    ensures is { IsSpot form size message.now result.spot }
    ensures count { result.count ≡ min (length buffer.old) (length (message_left form size message.now spot)) }
    ensures written { buffer.new
        ≡ take result.count (message_left form size message.now spot) ++ drop result.count buffer.old }
    ensures left { message_left form size message.now result.spot
        ≡ drop result.count (message_left form size message.now spot) }
{
    let mut reached = spot;
    let mut end = 0;
    'records: while end < buffer.len() && reached.index < message.len() {
        let next = fill_record(message, form, size, reached, buffer, end);
        reached = next.spot;
        end += next.count;
    }
    Filled {
        spot: reached,
        count: end,
    }
}

/// A message that is encoded in steps, into buffers of any sizes: for a caller that has no memory for all of its
/// bytes. It takes no memory. Contracts see the bytes that are left.
#[derive(Debug, Drop)]
pub struct Encoder<'a> {
    message: &'a Message,
    form: Form,
    size: Option<u32>,
    spot: Spot,
}

impl<'a> Model for Encoder<'a> {
    ghost use Rattle.std.specs.Prelude.{List, ℕ};
    ghost use Rattle.ndef_message.specs.Machine.Encoding.{IsSpot, message_left};

    ghost Value = { List ℕ };

    ghost view = { λ e. message_left e.form e.size e.message.now e.spot };

    ghost invariant = { λ e. IsSpot e.form e.size e.message.now e.spot };
}

impl<'a> Encoder<'a> {
    /// Begins the message, each record in one chunk, or in chunks of `size` payload bytes and a last one of the rest
    /// (NDEF 1.0, chunked payloads). The bytes are those that `encode` and `encode_chunked` return.
    pub fn new(message: &'a Message, form: Form, size: Option<u32>) -> Encoder<'a>
        requires { ForSome size (λ n. 1 ≤ n) }
        ensures { result ≡ cut_octets form size message.now }
    {
        // For the proof alone.
        let _count = message.len();
        let spot = Spot {
            index: 0,
            progress: Progress { taken: 0, head: 0 },
        };
        Encoder {
            message,
            form,
            size,
            spot,
        }
    }

    /// Writes the next bytes of the message to the front of the buffer, as many as fit, and returns their number: 0
    /// where all are written, or where the buffer is empty.
    pub fn next(&mut self, buffer: &mut [u8]) -> usize
        ensures count { result ≡ min (length buffer.old) (length self.old) }
        ensures written { buffer.new ≡ take result self.old ++ drop result buffer.old }
        ensures left { self.new ≡ drop result self.old }
    {
        let next = fill_message(self.message, self.form, self.size, self.spot, buffer);
        self.spot = next.spot;
        next.count
    }
}

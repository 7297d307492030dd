//! A record that is encoded in steps.
ghost use Rattle.std.specs.Prelude.{◌≡◌, ◌≤◌, ◌↔◌, List, ℕ, IfOk, IfSome, IsErr, IsNone, IsTrue, OnErr};
ghost use Rattle.std.specs.Option.{ForSome};
ghost use Rattle.ndef_message.specs.Steps.{AreLeft, CanBeWritten, Continues, IsBegun, IsProgress, LeavesAll, LeavesNothing, WritesNext, chunk_begin, chunk_length, front_length, is_last_chunk, unstarted};

use crate::plan::{Progress, RecordPlan};
use crate::stepping::{can_be_written, fill, is_progress, is_whole};
use std::marker::Model;
use thiserror::Error;

/// A record that is encoded in steps, into buffers and from parts of its payload of any sizes (NDEF 1.0, record layout
/// and chunked payloads): for a caller that doesn't have the whole payload, or no memory for the record. It takes no
/// memory. Contracts see the plan of the record and how much of it is written.
#[derive(Debug, Drop)]
pub struct RecordEncoder {
    plan: RecordPlan,
    progress: Progress,
}

impl Model for RecordEncoder {
    ghost use Rattle.ndef_message.specs.Steps.{Begun, IsBegun};

    ghost Value = { Begun };

    ghost view = { λ e. record { plan = e.plan; progress = e.progress } };

    ghost invariant = { λ e. IsBegun (record { plan = e.plan; progress = e.progress }) };
}

/// A type, an id or a part of a payload that isn't of the record: the type or the id has another length than in the
/// plan, or the part is longer than the rest of the payload.
#[derive(Clone, Copy, Debug, Drop, PartialEq, Eq, Hash, Error)]
#[error("the type, the id or the payload has another length than was said")]
pub struct OtherLength;

impl RecordEncoder {
    /// Begins a record. `None` where no record has such a plan: a reader would refuse its head, since the lengths don't
    /// go with the type name format, or are more than a head can say.
    pub fn new(plan: RecordPlan) -> Option<RecordEncoder>
        requires { ForSome plan.size (λ n. 1 ≤ n) }
        ensures none { IsNone result ↔ ¬ CanBeWritten plan }
        ensures value { IfSome result (λ e. e ≡ record { plan = plan; progress = unstarted }) }
        ensures all { IfSome result (λ e. LeavesAll e) }
    {
        if !can_be_written(&plan) {
            return None;
        }
        let progress = Progress { taken: 0, head: 0 };
        Some(RecordEncoder { plan, progress })
    }

    /// Returns an encoder that continues a record at the `progress` of another encoder. `None` if `new` returns it for
    /// this plan, or if no encoder of the record has this progress.
    pub fn resume(plan: RecordPlan, progress: Progress) -> Option<RecordEncoder>
        requires { ForSome plan.size (λ n. 1 ≤ n) }
        ensures none { IsNone result ↔ ¬ IsBegun (record { plan = plan; progress = progress }) }
        ensures value { IfSome result (λ e. e ≡ record { plan = plan; progress = progress }) }
    {
        if !can_be_written(&plan) || !is_progress(&plan, progress) {
            return None;
        }
        Some(RecordEncoder { plan, progress })
    }

    /// The plan of the record.
    pub fn plan(&self) -> RecordPlan
        ensures { result ≡ self.now.plan }
    {
        self.plan
    }

    /// Returns the part of the record that is written: of a head, a type and an id at most 517 bytes.
    pub fn progress(&self) -> Progress
        ensures value { result ≡ self.now.progress }
        ensures is { IsBegun self.now }
        ensures few { self.now.progress.head ≤ 517 }
    {
        self.progress
    }

    /// The bytes of the payload that are written: the next call of `next` is given the payload from there on.
    pub fn taken(&self) -> usize
        ensures value { result ≡ self.now.progress.taken }
        ensures is { IsBegun self.now }
    {
        self.progress.taken
    }

    /// Whether the whole record is written.
    pub fn is_whole(&self) -> bool
        ensures { (kind id rest : List ℕ) → AreLeft self.now kind id rest
            → IsTrue result ↔ LeavesNothing self.now kind id rest }
    {
        is_whole(&self.plan, self.progress)
    }

    /// Writes the next bytes of the record to the front of the buffer, as many as there are and fit, and returns their
    /// number. `part` is the payload from byte `taken()` on, or as much of it as is at hand; `taken()` then returns how
    /// far it was taken. `OtherLength` if the type, the id or the part isn't of the record: nothing changes.
    pub fn next(
        &mut self,
        kind: &[u8],
        id: &[u8],
        part: &[u8],
        buffer: &mut [u8],
    ) -> Result<usize, OtherLength>
        ensures refused { IsErr result
            ↔ ¬ Continues self.old (record { kind = kind.now; id = id.now; part = part.now }) }
        ensures kept { OnErr result ((self.new ≡ self.old) × (buffer.new ≡ buffer.old)) }
        ensures written { IfOk result (λ n. WritesNext self.old
            (record { kind = kind.now; id = id.now; part = part.now }) buffer.old buffer.new n self.new) }
    {
        let plan = self.plan;
        let left = plan.payload_length - self.progress.taken;
        if kind.len() != plan.kind_length || id.len() != plan.id_length || part.len() > left {
            return Err(OtherLength);
        }
        let next = fill(&plan, self.progress, kind, id, part, buffer, 0);
        self.progress = next.progress;
        Ok(next.count)
    }
}

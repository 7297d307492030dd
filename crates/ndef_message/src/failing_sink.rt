//! A sink into memory that fails at a place, for tests.
ghost use Rattle.std.specs.Prelude.{◌≡◌, ◌≤◌, ◌+◌, ◌↔◌, false, true, Some, [], length, IfOk, IsErr};
ghost use Rattle.ndef_message.specs.Machine.Faults.{is_stopped, most_of};
ghost use Rattle.ndef_message.specs.Sinks.{Writes, MarkAfter};

use crate::sink::{Sink, SinkFault};
use std::marker::Model;

/// A sink into a slice. It takes at most `per` bytes at a `write`, and none beyond the place where it stops: once it
/// has those before that place it answers a fault. Where the slice is full it answers 0, and a fault after it. So a
/// test lets each write of a run fail in turn.
#[derive(Debug, Drop)]
pub struct FailingSink<'a> {
    room: &'a mut [u8],
    per: usize,
    stop: Option<u64>,
    count: usize,
    has_failed: bool,
}

impl<'a> Model for FailingSink<'a> {
    ghost use Rattle.std.specs.Prelude.{◌≤◌, length, take};
    ghost use Rattle.std.specs.Option.{ForSome};
    ghost use Rattle.ndef_message.specs.Machine.Faults.{Stopping};

    ghost Value = { Stopping };

    ghost view = { λ s. record {
      written = take s.count s.room.now;
      room = length s.room.now;
      per = s.per;
      stop = s.stop;
      failed = s.has_failed;
    } };

    ghost invariant = { λ s.
        (s.count ≤ length s.room.now) × (1 ≤ s.per) × ForSome s.stop (λ stop. s.count ≤ stop) };
}

impl<'a> FailingSink<'a> {
    /// A sink into the slice that takes at most `per` bytes at a `write`, and none beyond `stop`, where
    /// one is given. Nothing is written yet.
    pub fn new(room: &'a mut [u8], per: usize, stop: Option<u64>) -> FailingSink<'a>
        requires { 1 ≤ per }
        ensures value { result
            ≡ record { written = []; room = length room.old; per = per; stop = stop; failed = false } }
        ensures written { ⟦<FailingSink<'a> as Sink>⟧.written result ≡ Some [] }
        ensures mark { ⟦<FailingSink<'a> as Sink>⟧.has_failed result ≡ false }
    {
        FailingSink {
            room,
            per,
            stop,
            count: 0,
            has_failed: false,
        }
    }

    /// The bytes that were written.
    pub fn written(&self) -> &[u8]
        ensures { result.now ≡ self.now.written }
    {
        &self.room[..self.count]
    }

    /// The number of the offered bytes that it takes, where it hasn't stopped.
    fn most(&self, offered: usize) -> usize
        requires { is_stopped self.now ≡ false }
        ensures value { result ≡ most_of self.now offered }
        ensures within { result ≤ offered }
        ensures room { length self.now.written + result ≤ self.now.room }
    {
        let room = self.room.len() - self.count;
        let most = offered.min(self.per).min(room);
        match self.stop {
            Some(stop) => most.min((stop - self.count as u64) as usize),
            None => most,
        }
    }
}

impl<'a> Sink for FailingSink<'a> {
    ghost written = { λ s. Some s.written };

    ghost has_failed = { λ s. s.failed };

    fn write(&mut self, bytes: &[u8]) -> Result<usize, SinkFault>
        ensures bound { IfOk result (λ n. n ≤ length bytes.now) }
        ensures bytes { Writes (Some self.old.written) (Some self.new.written) bytes.now result }
        ensures mark { MarkAfter self.old.failed self.new.failed bytes.now result }
        // It fails exactly where it stops, or has failed.
        ensures fails { IsErr result ↔ is_stopped self.old ≡ true }
        // Else it takes as many bytes as it may and can hold.
        ensures count { IfOk result (λ n. n ≡ most_of self.old (length bytes.now)) }
        ensures value { self.new ≡ record self.old { written = self.new.written; failed = self.new.failed } }
    {
        if self.has_failed || self.stop == Some(self.count as u64) {
            self.has_failed = true;
            return Err(SinkFault);
        }
        let count = self.most(bytes.len());
        self.room[self.count..self.count + count].copy_from_slice(&bytes[..count]);
        self.count += count;
        self.has_failed = count == 0 && !bytes.is_empty();
        Ok(count)
    }
}

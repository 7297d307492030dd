//! A source over bytes in memory that fails at a place, for tests.
ghost use Rattle.std.specs.Prelude.{◌≡◌, ◌≤◌, ◌-◌, ◌↔◌, false, Some, [], length, take, All, IfOk, IsErr};
ghost use Rattle.std.specs.List.Sorted.{IsNonDecreasing};
ghost use Rattle.std.specs.Borrow.{sem};
ghost use Rattle.std.specs.Io.BufRead.{Rests};
ghost use mir.Syntax.{named};
ghost use Rattle.ndef_message.specs.Machine.Slices.{ShowsAlone};
ghost use Rattle.ndef_message.specs.Sources.{Shows, Filled, Drops, Counts};

use crate::slice_source::cut_after;
use crate::source::{Source, SourceFault};
use std::marker::Model;

/// The bytes of a slice up to a place, each `fill` going up to the next cut after the bytes that were taken.
/// Only these are to come: once they are taken, each `fill` is a fault. So a test lets each read of a
/// run fail in turn.
#[derive(Debug, Drop)]
pub struct FailingSource<'a> {
    /// Those before the place where it fails.
    bytes: &'a [u8],
    cuts: &'a [usize],
    place: usize,
    shown: usize,
    has_failed: bool,
}

impl<'a> Model for FailingSource<'a> {
    ghost use Rattle.std.specs.Prelude.{◌≡◌, ◌+◌, ◌≤◌, true, length};
    ghost use Rattle.ndef_message.specs.Machine.Faults.{Failing};

    ghost Value = { Failing };

    ghost view = { λ s. record {
      slice = record { bytes = s.bytes.now; cuts = s.cuts.now; place = s.place; shown = s.shown };
      failed = s.has_failed;
    } };

    ghost invariant = { λ s.
        (s.place + s.shown ≤ length s.bytes.now) × (s.has_failed ≡ true → s.place ≡ length s.bytes.now) };
}

impl<'a> FailingSource<'a> {
    /// A source of the bytes, cut at these places, in ascending order and at most the length, that
    /// fails at `place`.
    pub fn new(bytes: &'a [u8], cuts: &'a [usize], place: usize) -> FailingSource<'a>
        requires ordered { IsNonDecreasing cuts.now }
        requires within { All (λ cut. cut ≤ length bytes.now) cuts.now }
        requires place { place ≤ length bytes.now }
        ensures slice { result.slice ≡ record { bytes = take place bytes.now; cuts = cuts.now; place = 0; shown = 0 } }
        ensures failed { result.failed ≡ false }
        ensures coming { ⟦<FailingSource<'a> as Source>⟧.coming result ≡ Some (take place bytes.now) }
        ensures taken { ⟦<FailingSource<'a> as Source>⟧.taken result ≡ 0 }
        ensures shown { ⟦<FailingSource<'a> as Source>⟧.shown result ≡ 0 }
        ensures mark { ⟦<FailingSource<'a> as Source>⟧.has_failed result ≡ false }
    {
        FailingSource {
            bytes: &bytes[..place],
            cuts,
            place: 0,
            shown: 0,
            has_failed: false,
        }
    }
}

impl<'a> Source for FailingSource<'a> {
    ghost use Rattle.ndef_message.specs.Machine.Slices.{slice_coming, slice_state, up_to_cut};
    ghost use Rattle.ndef_message.specs.contracts.failing_source.FailingSource.{the_row};

    ghost coming = { λ s. slice_coming s.slice };

    ghost taken = { λ s. s.slice.place };

    ghost shown = { λ s. s.slice.shown };

    ghost has_failed = { λ s. s.failed };

    fn fill(&mut self) -> Result<&[u8], SourceFault>
        ensures shows { IfOk result (λ s. Shows (slice_coming self.old.slice) s.now) }
        ensures* after_borrow { sem 𝓛 (Rests (the_row (record { mir = named 1; lft = [] })) self.entry (λ new.
            Filled (slice_state self.old.slice self.old.failed) (slice_state new.slice new.failed)
            new.slice.shown result × ShowsAlone self.old.slice new.slice)) }
        // It goes up to the next cut after the bytes that were taken.
        ensures cut { IfOk result (λ s. s.now ≡ up_to_cut self.old.slice) }
        // It fails exactly where no bytes are to come.
        ensures fails { IsErr result ↔ slice_coming self.old.slice ≡ Some [] }
    {
        self.shown = 0;
        if self.place == self.bytes.len() {
            self.has_failed = true;
            return Err(SourceFault);
        }
        let end = cut_after(self.cuts, self.place, self.bytes.len());
        let bytes = self.bytes;
        let shown = &bytes[self.place..end];
        self.shown = shown.len();
        Ok(shown)
    }

    fn take(&mut self, count: usize)
        requires { count ≤ self.old.slice.shown }
        ensures bytes { Drops (slice_coming self.old.slice) (slice_coming self.new.slice) count }
        ensures taken { Counts self.old.slice.place self.new.slice.place count }
        ensures shown { self.new.slice.shown ≡ self.old.slice.shown - count }
        ensures mark { self.new.failed ≡ self.old.failed }
        // Nothing else changes.
        ensures cuts { self.new.slice.cuts ≡ self.old.slice.cuts }
    {
        self.shown -= count;
        self.place += count;
    }
}

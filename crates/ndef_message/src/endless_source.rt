//! A source without an end, for tests.
ghost use Rattle.std.specs.Prelude.{◌≡◌, ◌≢◌, ◌≤◌, ◌-◌, false, None, [], length, drop, IfOk, IsOkAnd, if◌then◌else◌, ◌==◌};
ghost use Rattle.std.specs.Borrow.{sem};
ghost use Rattle.std.specs.Io.BufRead.{Rests};
ghost use mir.Syntax.{named};
ghost use Rattle.ndef_message.specs.Machine.Faults.{shown_next};
ghost use Rattle.ndef_message.specs.Sources.{Shows, Filled, Drops, Counts, state_of};

use crate::source::{Source, SourceFault};
use std::marker::Model;

/// A front, and after it a pattern for ever. It never fails, and its bytes to come are given as
/// unknown, since no list holds all of them. So a test sees that a run ends though its input
/// doesn't.
#[derive(Debug, Drop)]
pub struct EndlessSource<'a> {
    /// The rest of the front, or of the pattern.
    rest: &'a [u8],
    pattern: &'a [u8],
    shown: usize,
    count: u64,
}

impl<'a> Model for EndlessSource<'a> {
    ghost use Rattle.std.specs.Prelude.{◌≢◌, ◌≤◌, [], length};
    ghost use Rattle.ndef_message.specs.Machine.Faults.{Endless};

    ghost Value = { Endless };

    ghost view = { λ s. record { rest = s.rest.now; pattern = s.pattern.now; shown = s.shown; taken = s.count } };

    ghost invariant = { λ s. (s.pattern.now ≢ []) × (s.shown ≤ length s.rest.now) };
}

impl<'a> EndlessSource<'a> {
    /// A source of the front, and then of the pattern again and again.
    pub fn new(front: &'a [u8], pattern: &'a [u8]) -> EndlessSource<'a>
        requires { pattern.now ≢ [] }
        ensures value { result ≡ record { rest = front.now; pattern = pattern.now; shown = 0; taken = 0 } }
        ensures coming { ⟦<EndlessSource<'a> as Source>⟧.coming result ≡ None }
        ensures taken { ⟦<EndlessSource<'a> as Source>⟧.taken result ≡ 0 }
        ensures shown { ⟦<EndlessSource<'a> as Source>⟧.shown result ≡ 0 }
        ensures mark { ⟦<EndlessSource<'a> as Source>⟧.has_failed result ≡ false }
    {
        EndlessSource {
            rest: front,
            pattern,
            shown: 0,
            count: 0,
        }
    }
}

impl<'a> Source for EndlessSource<'a> {
    ghost use Rattle.ndef_message.specs.contracts.endless_source.EndlessSource.{the_row};

    ghost coming = { λ _. None };

    ghost taken = { λ s. s.taken };

    ghost shown = { λ s. s.shown };

    ghost has_failed = { λ _. false };

    fn fill(&mut self) -> Result<&[u8], SourceFault>
        ensures shows { IfOk result (λ s. Shows None s.now) }
        ensures* after_borrow { sem 𝓛 (Rests (the_row (record { mir = named 1; lft = [] })) self.entry (λ new.
            Filled (state_of None self.old.taken false) (state_of None new.taken false) new.shown result
            × (new.rest ≡ shown_next self.old) × (new.pattern ≡ self.old.pattern))) }
        // The rest of the front, or of the pattern, which starts again where nothing is left.
        ensures next { IsOkAnd result (λ s. s.now ≡ shown_next self.old) }
        ensures some { IfOk result (λ s. s.now ≢ []) }
    {
        if self.rest.is_empty() {
            self.rest = self.pattern;
        }
        let rest = self.rest;
        self.shown = rest.len();
        Ok(rest)
    }

    fn take(&mut self, count: usize)
        requires { count ≤ self.old.shown }
        ensures taken { Counts self.old.taken self.new.taken count }
        ensures shown { self.new.shown ≡ self.old.shown - count }
        ensures rest { self.new.rest ≡ drop count self.old.rest }
        ensures pattern { self.new.pattern ≡ self.old.pattern }
    {
        self.rest = &self.rest[count..];
        self.shown -= count;
        self.count = self.count.saturating_add(count as u64);
    }
}

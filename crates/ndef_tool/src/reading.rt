//! The next message of a source, or of bytes in memory.
ghost use Rattle.std.specs.Prelude.{◌≡◌, ◌≤◌, ◌^◌, ℕ, Bool, List, Option, Some, false};
ghost use Rattle.ndef_tool.specs.Rules.{rules_of};
ghost use Rattle.ndef_tool.specs.Sessions.{ChecksNext, HasNext, IsNext, LooksAhead, TakesNext, ViewsNext};

use ndef_cli::Outcome;
use ndef_lang::RecordLanguage;
use ndef_message::{
    CheckError, Checked, Read, ReadError, Source, View, check_message, read_message, view,
};
use ndef_value::{Limits, messages_are_bounded};
use std::alloc::Global;

/// The most messages that are handled.
pub(crate) const MOST: u64 = 10000;

/// A way to read the messages of an `S`, one after another.
pub(crate) trait Reading<L: RecordLanguage, S> {
    /// The bytes to come, where they are known.
    ghost coming: { S → Option (List ℕ) };

    /// The number of bytes taken of it, as long as they are fewer than 2 ^ 64.
    ghost taken: { S → ℕ };

    /// Whether a reading has failed.
    ghost has_failed: { S → Bool };

    /// The next message, after `count`, or how the messages end here.
    fn read(alloc: Global, limits: Limits, count: u64, from: &mut S) -> Result<Read, Outcome>
        requires { count ≤ MOST }
        ensures next { IsNext (rules_of L.payloads L.reasons limits) count
            (coming from.old) (coming from.new) (has_failed from.new) result }
        ensures taken { TakesNext (λ read. read.taken) (rules_of L.payloads L.reasons limits)
            (coming from.old) (taken from.old) (taken from.new) result };

    /// Checks the next message, after `count`, or returns how the messages end here. It allocates no memory.
    fn check(limits: Limits, count: u64, from: &mut S) -> Result<Checked, Outcome>
        requires { count ≤ MOST }
        ensures next { ChecksNext (rules_of L.payloads L.reasons limits) count
            (coming from.old) (coming from.new) (has_failed from.new) result }
        ensures taken { TakesNext (λ checked. checked.taken) (rules_of L.payloads L.reasons limits)
            (coming from.old) (taken from.old) (taken from.new) result };
}

/// Messages come from a source, and are read as its bytes come.
pub(crate) struct FromSource;

/// Messages lie in a slice, and are viewed there.
pub(crate) struct FromBytes;

impl<L: RecordLanguage, S: Source> Reading<L, S> for FromSource {
    ghost coming = { S.coming };

    ghost taken = { S.taken };

    ghost has_failed = { S.has_failed };

    fn read(alloc: Global, limits: Limits, count: u64, from: &mut S) -> Result<Read, Outcome> {
        // For the proof alone.
        messages_are_bounded();
        look_ahead(count, from)?;
        match read_message::<L, S>(alloc, from, limits) {
            Ok(read) => Ok(read),
            Err(ReadError::Refused(refusal)) => Err(Outcome::Refused(refusal)),
            Err(ReadError::ReadFault) => Err(Outcome::Reading),
            Err(ReadError::NoMemory) => Err(Outcome::Memory),
        }
    }

    fn check(limits: Limits, count: u64, from: &mut S) -> Result<Checked, Outcome> {
        // For the proof alone.
        messages_are_bounded();
        look_ahead(count, from)?;
        match check_message::<L, S>(from, limits) {
            Ok(checked) => Ok(checked),
            Err(CheckError::Refused(refusal)) => Err(Outcome::Refused(refusal)),
            Err(CheckError::ReadFault) => Err(Outcome::Reading),
        }
    }
}

impl<'a, L: RecordLanguage> Reading<L, &'a [u8]> for FromBytes {
    ghost coming = { λ bytes. Some bytes.now };

    // It isn't counted.
    ghost taken = { λ _. 2 ^ 64 };

    ghost has_failed = { λ _. false };

    fn read(
        alloc: Global,
        limits: Limits,
        count: u64,
        from: &mut &'a [u8],
    ) -> Result<Read, Outcome> {
        let view = view_next::<L>(limits, count, from)?;
        Ok(Read {
            message: view.to_message(alloc)?,
            taken: view.taken(),
        })
    }

    fn check(limits: Limits, count: u64, from: &mut &'a [u8]) -> Result<Checked, Outcome> {
        let view = view_next::<L>(limits, count, from)?;
        Ok(Checked {
            records: view.records(),
            taken: view.taken(),
        })
    }
}

/// Whether one more message is handled after `count`, where these bytes come next.
fn go_on(count: u64, bytes: &[u8]) -> Result<(), Outcome>
    requires { count ≤ MOST }
    ensures { HasNext count bytes.now result }
{
    if bytes.is_empty() {
        return Err(Outcome::Clean);
    }
    if count == MOST {
        return Err(Outcome::TooMany);
    }
    Ok(())
}

/// The same of a source, of which nothing is taken.
fn look_ahead<S: Source>(count: u64, source: &mut S) -> Result<(), Outcome>
    requires { count ≤ MOST }
    ensures ahead { LooksAhead count (S.coming source.old) (S.coming source.new) (S.has_failed source.new) result }
    ensures taken { S.taken source.new ≡ S.taken source.old }
{
    let bytes = source.fill()?;
    go_on(count, bytes)
}

/// Views the next message of the bytes, after `count`, or returns how the messages end here.
fn view_next<'a, L: RecordLanguage>(
    limits: Limits,
    count: u64,
    left: &mut &'a [u8],
) -> Result<View<'a>, Outcome>
    requires { count ≤ MOST }
    ensures next { ViewsNext (rules_of L.payloads L.reasons limits) count left.old.now left.new.now result }
    ensures taken { TakesNext (λ viewed. viewed.taken) (rules_of L.payloads L.reasons limits)
        (Some left.old.now) (2 ^ 64) (2 ^ 64) result }
{
    let bytes = *left;
    go_on(count, bytes)?;
    // For the proof alone.
    messages_are_bounded();
    match view::<L>(bytes, limits) {
        Ok(view) => {
            *left = &bytes[view.taken() as usize..];
            Ok(view)
        }
        Err(refusal) => {
            *left = &bytes[refusal.at as usize..];
            Err(Outcome::Refused(refusal))
        }
    }
}

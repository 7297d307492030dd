//! Checks a message whose bytes come in parts.
ghost use Rattle.std.specs.Prelude.{◌≡◌, ◌<◌, ◌↔◌, ◌++◌, [], ℕ, List};
ghost use Rattle.std.specs.Borrow.{full_share, sem};
ghost use Rattle.std.specs.Ptr.{lies_at, room_at};
ghost use Rattle.ndef_format.specs.Limits.{LimitValues};
ghost use Rattle.ndef_c.specs.Checks.{ChecksPayloads, LeavesPayloads, MayBeSet, limits_of};
ghost use Rattle.ndef_c.specs.Feeding.{AnswersFed, BeginsTo, FeedsTo, IsFed, FedSoFar};
ghost use Rattle.ndef_message.specs.Machine.Taken.{WasFed};
ghost use Rattle.ndef_c.specs.contracts.feeding.NdefChecker as NdefCheckers;

use crate::checking::NdefChecked;
use crate::limits::{NdefLimits, limits_of};
use crate::refusal::{refuse, refused_by};
use crate::status::{BAD_ARGUMENT, MORE, OK};
use ndef_lang::{Opaque, RecordLanguage};
use ndef_message::{Checker, Fed, places_are_exact};
use ndef_nest::Typed;
use ndef_value::{Reason, Refusal};
use std::mem::{align_of, size_of};

/// A checker, and whether it validates payloads.
#[derive(Drop)]
pub(crate) enum Looking {
    /// No checker, since the limits are invalid.
    Nothing,
    /// The payloads that the standards define.
    Typed(Checker<Typed>),
    /// No payload.
    Opaque(Checker<Opaque>),
}

/// A checker in the caller's memory, which keeps no bytes but those of a type that comes in parts.
#[derive(Drop)]
pub struct NdefChecker {
    looking: Looking,
}

// The size that `include/ndef.h` states.
const _: () = prove!(size_of::<NdefChecker>() <= 488);

const _: () = prove!(align_of::<NdefChecker>() == 8);

/// Feeds a checker, and writes what is known of all the bytes that it was fed.
fn feed<L: RecordLanguage>(checker: &mut Checker<L>, bytes: &[u8], out: &mut NdefChecked) -> u32
    ensures { (limits : LimitValues) (front : List ℕ) → WasFed checker.old limits front
        → WasFed checker.new limits (front ++ bytes.now)
        × FeedsTo L.payloads L.reasons limits (front ++ bytes.now) result out.new }
{
    // For the proof alone.
    places_are_exact::<L>();
    match checker.feed(bytes) {
        Fed::More => {
            *out = refused_by(Refusal {
                at: checker.place(),
                reason: Reason::EndOfInput,
            });
            MORE
        }
        Fed::Done { .. } => {
            *out = NdefChecked {
                place: checker.place(),
                records: checker.records(),
                reason: 0,
            };
            OK
        }
        Fed::Refused(refusal) => refuse(refusal, out),
    }
}

/// A checker that is begun by these limits.
fn begun(limits: &NdefLimits) -> NdefChecker
    ensures { IsFed result (record { limits = limits.now; bytes = [] }) }
{
    let looking = match limits_of(limits) {
        None => Looking::Nothing,
        Some((limits, true)) => Looking::Typed(Checker::new(limits)),
        Some((limits, false)) => Looking::Opaque(Checker::new(limits)),
    };
    NdefChecker { looking }
}

/// Whether these are limits.
fn begins_to(limits: &NdefLimits) -> u32
    ensures { BeginsTo limits.now result }
{
    match limits_of(limits) {
        Some(_) => OK,
        None => BAD_ARGUMENT,
    }
}

/// Feeds the checker that there is, if any.
fn feed_checker(checker: &mut NdefChecker, bytes: &[u8], out: &mut NdefChecked) -> u32
    ensures { (limits : NdefLimits) (front : List ℕ)
        → IsFed checker.old (record { limits = limits; bytes = front })
        → IsFed checker.new (record { limits = limits; bytes = front ++ bytes.now })
        × AnswersFed limits (front ++ bytes.now) result out.old out.new }
{
    match &mut checker.looking {
        Looking::Nothing => BAD_ARGUMENT,
        Looking::Typed(checker) => feed(checker, bytes, out),
        Looking::Opaque(checker) => feed(checker, bytes, out),
    }
}

/// Begins a checker in the caller's memory.
#[unsafe(no_mangle)]
pub unsafe extern "C" fn ndef_begin(limits: &NdefLimits, checker: *mut NdefChecker) -> u32
    requires* buffer { sem 𝓛 (room_at NdefCheckers.the_row checker) }
    ensures* begun { ∃ₛ (λ (c : NdefChecker). sem 𝓛 (lies_at NdefCheckers.the_row full_share checker c)
        ∗ ⌜ IsFed c (record { limits = limits.now; bytes = [] }) ⌝) }
    ensures status { BeginsTo limits.now result }
{
    checker.write(begun(limits));
    begins_to(limits)
}

/// Feeds the next bytes to a checker, and writes what is known of all the bytes that it was fed.
#[unsafe(no_mangle)]
pub unsafe extern "C" fn ndef_feed(
    checker: *mut NdefChecker,
    bytes: &[u8],
    out: &mut NdefChecked,
) -> u32
    ghost so_far: { FedSoFar }
    requires* begun { ∃ₛ (λ (c : NdefChecker). sem 𝓛 (lies_at NdefCheckers.the_row full_share checker c)
        ∗ ⌜ IsFed c so_far ⌝) }
    ensures bad { result ≡ BAD_ARGUMENT ↔ ¬ MayBeSet so_far.limits }
    ensures kept { result ≡ BAD_ARGUMENT → out.new ≡ out.old }
    ensures typed { MayBeSet so_far.limits → ChecksPayloads so_far.limits
        → FeedsTo ⟦<Typed as RecordLanguage>⟧.payloads ⟦<Typed as RecordLanguage>⟧.reasons (limits_of so_far.limits)
        (so_far.bytes ++ bytes.now) result out.new }
    ensures opaque { MayBeSet so_far.limits → LeavesPayloads so_far.limits
        → FeedsTo ⟦<Opaque as RecordLanguage>⟧.payloads ⟦<Opaque as RecordLanguage>⟧.reasons (limits_of so_far.limits)
        (so_far.bytes ++ bytes.now) result out.new }
    ensures* fed { ∃ₛ (λ (c : NdefChecker). sem 𝓛 (lies_at NdefCheckers.the_row full_share checker c)
        ∗ ⌜ IsFed c (record so_far { bytes = so_far.bytes ++ bytes.now }) ⌝) }
{
    feed_checker(&mut *checker, bytes, out)
}

//! The output for an input past the place where its messages stop.
ghost use Rattle.std.specs.Prelude.{◌+◌, ◌<◌, ◌≤◌, IfSome, OnOk, length};
ghost use Rattle.ndef_cli_explain.specs.Explained.{IsPastStop, IsStopWithin};
ghost use Rattle.ndef_cli_explain.specs.Explaining.{Appends};
ghost use Rattle.ndef_cli_explain.specs.Forms.{style_form};
ghost use Rattle.ndef_cli_explain.specs.Recovery.{AreCounts, IsPastEnd, IsPastRefusal};

use crate::explaining::{ExplainedMessages, Stop};
use crate::fields::cut;
use crate::output::Output;
use crate::recovery::push_recovery;
use crate::recovery_place::{Recovery, message_at, past};
use crate::refusals::{push_goes_on, push_sound};
use crate::refused_record::{RefusedRecord, records_in, refused_record};
use crate::style::Look;
use ndef_value::{NoMemory, Refusal};

/// Appends the output past a refused record, where its end is known.
fn push_past_end(
    out: &mut Output,
    look: &Look<'_>,
    input: &[u8],
    from: Recovery,
    found: RefusedRecord,
) -> Result<(), NoMemory>
    requires counts { AreCounts from }
    requires within { IfSome found.end (λ end. from.at + end ≤ length input.now) }
    requires past { IfSome found.end (λ end. found.before + 1 < end) }
    ensures { OnOk result (Appends (IsPastEnd (style_form look.now.style) look.now.source.limits input.now from found
        found.end) out.old.text out.new.text) }
{
    match found.end {
        None => Ok(()),
        Some(end) => {
            push_goes_on(out, look.style, from, found.before, end)?;
            let last = push_recovery(out, look, input, past(from, found, end))?;
            push_sound(out, look.style, last)?;
            Ok(())
        }
    }
}

/// Appends the output past the first refusal, after the messages that were explained.
fn push_past_refusal(
    out: &mut Output,
    look: &Look<'_>,
    input: &[u8],
    progress: &ExplainedMessages<'_>,
    refusal: Refusal,
) -> Result<(), NoMemory>
    requires number { progress.now.number ≤ progress.now.at + 1 }
    requires within { progress.now.at + refusal.at ≤ length input.now }
    ensures { OnOk result (Appends (IsPastRefusal (style_form look.now.style) look.now.source.limits input.now
        progress.now.number progress.now.at refusal) out.old.text out.new.text) }
{
    let (reported, rest) = cut(input, progress.at as usize);
    let from = message_at(progress.number, progress.at, records_in(reported) as u64);
    let found = refused_record(rest, refusal);
    push_past_end(out, look, input, from, found)
}

/// Appends the output past the place where the messages stop.
pub(crate) fn push_past_stop(
    out: &mut Output,
    look: &Look<'_>,
    input: &[u8],
    progress: &ExplainedMessages<'_>,
) -> Result<(), NoMemory>
    requires number { progress.now.number ≤ progress.now.at + 1 }
    requires within { IsStopWithin progress.now.at (length input.now) progress.now.stop }
    ensures { OnOk result (Appends (IsPastStop (style_form look.now.style) look.now.source.limits input.now
        progress.now.number progress.now.at progress.now.stop) out.old.text out.new.text) }
{
    match progress.stop {
        Stop::End => Ok(()),
        Stop::Refused(refusal) => push_past_refusal(out, look, input, progress, refusal),
    }
}

//! The output for the messages of an input, and the point at which they stop.
ghost use Rattle.std.specs.Prelude.{◌<◌, ◌≤◌, IfOk, OnOk, length};
ghost use Rattle.ndef_fields.specs.FieldLaws.{AreGapless};
ghost use Rattle.ndef_fields.specs.Reports.{TellsFields};
ghost use Rattle.ndef_cli_explain.specs.Explaining.{Appends, FitsStop, IsStopText};
ghost use Rattle.ndef_cli_explain.specs.Forms.{style_form};
ghost use Rattle.ndef_cli_explain.specs.Shell.{origin_of};
ghost use Rattle.ndef_cli_explain.specs.declared.explaining.Stop.TheVariants.{Refused};

use crate::advice::{advice_of, hint_for};
use crate::fields::{Parsed, cut};
use crate::output::Output;
use crate::recovery_place::message_at;
use crate::refusals::{fields_of_front, push_refused};
use crate::said_refusal::said_of;
use crate::style::Look;
use ndef_fields::{FieldReport, fields, fields_are_exact};
use ndef_value::{Limits, NoMemory, Refusal};

/// The point at which the messages of an input stop.
#[derive(Clone, Copy)]
pub(crate) enum Stop {
    /// At the end of the input.
    End,
    /// At bytes that begin with no message.
    Refused(Refusal),
}

/// The messages that were explained, and the rest of the input.
#[derive(Clone, Copy)]
pub(crate) struct ExplainedMessages<'a> {
    /// The bytes that are left.
    pub(crate) rest: &'a [u8],
    /// The number of the next message.
    pub(crate) number: u64,
    /// The bytes of the messages.
    pub(crate) at: u64,
    pub(crate) stop: Stop,
}

/// The fields of the message with which the bytes begin.
pub(crate) fn next_message(bytes: &[u8], limits: Limits) -> Result<FieldReport<'_>, Refusal>
    ensures reported { TellsFields limits bytes.now result }
    ensures some { IfOk result (λ reported. (0 < reported.taken) × (reported.taken ≤ length bytes.now)) }
    ensures few { IfOk result (λ reported. length reported.items ≤ 65535) }
    ensures follow { IfOk result (λ reported. AreGapless 0 reported.fields reported.taken) }
{
    // For the proof alone.
    fields_are_exact();
    fields(bytes, limits)
}

/// Appends the output for a refusal after the messages that were explained.
fn push_first_refusal(
    out: &mut Output,
    look: &Look<'_>,
    progress: &ExplainedMessages<'_>,
    refusal: Refusal,
) -> Result<(), NoMemory>
    requires { FitsStop progress.now.at progress.now.rest.now (Refused refusal) }
    ensures { OnOk result (Appends (IsStopText (style_form look.now.style) (origin_of look.now.source)
        progress.now.number progress.now.at progress.now.rest.now (Refused refusal)) out.old.text out.new.text) }
{
    let (at, rest, source) = (progress.at, progress.rest, &look.source);
    let hint = hint_for(rest, source.limits, refusal);
    let advice = advice_of(out.alloc, source, at, rest.len() as u64, hint)?;
    let said = said_of(rest, rest, refusal, advice);
    let from = message_at(progress.number, at, 0);
    let bytes = cut(rest, refusal.at as usize).0;
    let fields = fields_of_front(at, bytes);
    push_refused(out, look.style, from, Parsed { bytes, fields }, &said)?;
    Ok(())
}

/// Appends the output for the point at which messages stop.
pub(crate) fn push_stop(
    out: &mut Output,
    look: &Look<'_>,
    progress: &ExplainedMessages<'_>,
) -> Result<(), NoMemory>
    requires { FitsStop progress.now.at progress.now.rest.now progress.now.stop }
    ensures { OnOk result (Appends (IsStopText (style_form look.now.style) (origin_of look.now.source)
        progress.now.number progress.now.at progress.now.rest.now progress.now.stop) out.old.text out.new.text) }
{
    match progress.stop {
        Stop::End => Ok(()),
        Stop::Refused(refusal) => push_first_refusal(out, look, progress, refusal),
    }
}

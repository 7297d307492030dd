//! The output for an input past a record that is refused.
ghost use Rattle.std.specs.Prelude.{◌≡◌, ◌==◌, false, ℕ, ◌+◌, ◌<◌, ◌≤◌, ◌^◌, Err, IfOk, Ok, OnOk, drop, length, slice_index, take};
ghost use Rattle.ndef_fields.specs.FieldLaws.{AreGapless};
ghost use Rattle.ndef_fields.specs.Reports.{IsMessageFront};
ghost use Rattle.ndef_cli_explain.specs.Explaining.{Appends};
ghost use Rattle.ndef_cli_explain.specs.Forms.{style_form};
ghost use Rattle.ndef_cli_explain.specs.Messages.{IsRecoveryText};
ghost use Rattle.ndef_cli_explain.specs.Recovery.{AreCounts, IsLater, IsNext, IsRecovery, IsStep, as_read};

use crate::explaining::next_message;
use crate::fields::{Parsed, cut};
use crate::messages::{push_later_records, push_message};
use crate::output::Output;
use crate::recovery_place::{Recovery, is_over, past, past_message};
use crate::refusals::{fields_of_front, push_goes_on_where, push_refused};
use crate::refused_record::{records_in, refused_record};
use crate::said_refusal::said_of;
use crate::style::{Look, Style};
use ndef_fields::FieldReport;
use ndef_value::{NoMemory, Refusal};

/// The bytes of an input from a place on, and as they are read: with MB set where the rest of a message begins.
#[derive(Clone, Copy)]
struct Rest<'a> {
    bytes: &'a [u8],
    read: &'a [u8],
}

/// Appends the output for a message, or for records after others of one.
fn push_records(
    out: &mut Output,
    style: Style<'_>,
    from: Recovery,
    bytes: &[u8],
    reported: FieldReport<'_>,
) -> Result<(), NoMemory>
    requires few { length reported.items ≤ 65535 }
    requires follow { AreGapless 0 reported.fields reported.taken }
    requires fits { from.at + reported.taken < 2 ^ 64 }
    requires numbers { from.records + 65536 < 2 ^ 64 }
    ensures { OnOk result (Appends (IsRecoveryText (style_form style.entry) from bytes.now reported.entry)
        out.old.text out.new.text) }
{
    if from.records == 0 {
        return push_message(out, style, from, bytes, reported);
    }
    push_later_records(out, style, from, bytes, reported)
}

/// Appends the output for a message or for records of the bytes that are read; returns the place past them.
fn push_reported(
    out: &mut Output,
    style: Style<'_>,
    from: Recovery,
    rest: Rest<'_>,
    reported: FieldReport<'_>,
) -> Result<Recovery, NoMemory>
    requires few { length reported.items ≤ 65535 }
    requires follow { AreGapless 0 reported.fields reported.taken }
    requires some { 0 < reported.taken }
    requires within { reported.taken ≤ length rest.read.now }
    requires fits { from.at + length rest.read.now + 65536 < 2 ^ 64 }
    requires counts { AreCounts from }
    requires same { length rest.bytes.now ≡ length rest.read.now }
    ensures step { IfOk result (λ next. Appends (IsStep (style_form style.entry) rest.entry.read.now
        rest.entry.bytes.now from next (Ok reported.entry)) out.old.text out.new.text) }
    ensures later { IfOk result (λ next. IsLater from next (length rest.entry.bytes.now)) }
{
    let taken = reported.taken;
    let count = records_in(cut(rest.read, taken as usize).0);
    push_records(out, style, from, rest.bytes, reported)?;
    Ok(past_message(from, taken, count))
}

/// Appends the output for a refusal of the bytes that are read; returns the place past the record in which it is.
fn push_refusal(
    out: &mut Output,
    style: Style<'_>,
    from: Recovery,
    rest: Rest<'_>,
    refusal: Refusal,
) -> Result<Recovery, NoMemory>
    requires front { IsMessageFront (take refusal.at rest.read.now) }
    requires within { refusal.at ≤ length rest.read.now }
    requires some { 0 < length rest.read.now }
    requires same { length rest.bytes.now ≡ length rest.read.now }
    requires fits { from.at + length rest.read.now + 65536 < 2 ^ 64 }
    requires counts { AreCounts from }
    ensures step { IfOk result (λ next. Appends (IsStep (style_form style.entry) rest.entry.read.now
        rest.entry.bytes.now from next (Err refusal)) out.old.text out.new.text) }
    ensures later { IfOk result (λ next. IsLater from next (length rest.entry.bytes.now)) }
{
    let place = refusal.at as usize;
    let found = refused_record(rest.read, refusal);
    let fields = fields_of_front(from.at, cut(rest.read, place).0);
    let said = said_of(rest.read, rest.bytes, refusal, None);
    let bytes = cut(rest.bytes, place).0;
    push_refused(out, style, from, Parsed { bytes, fields }, &said)?;
    push_goes_on_where(out, style, from, found.before, found.end)?;
    Ok(past(from, found, found.end.unwrap_or(rest.bytes.len())))
}

/// Appends the output for the bytes that are read, up to the next place.
fn push_step(
    out: &mut Output,
    look: &Look<'_>,
    from: Recovery,
    rest: Rest<'_>,
) -> Result<Recovery, NoMemory>
    requires some { 0 < length rest.read.now }
    requires same { length rest.bytes.now ≡ length rest.read.now }
    requires fits { from.at + length rest.read.now + 65536 < 2 ^ 64 }
    requires counts { AreCounts from }
    ensures step { IfOk result (λ next. Appends (IsNext (style_form look.now.style) look.now.source.limits
        rest.entry.read.now rest.entry.bytes.now from next) out.old.text out.new.text) }
    ensures later { IfOk result (λ next. IsLater from next (length rest.entry.bytes.now)) }
{
    match next_message(rest.read, look.source.limits) {
        Ok(reported) => push_reported(out, look.style, from, rest, reported),
        Err(refusal) => push_refusal(out, look.style, from, rest, refusal),
    }
}

/// Sets MB in the octet at a place, where records of its message come before it.
fn set_begin(octets: &mut [u8], at: usize, records: u64)
    requires within { at < length octets.old }
    requires clear { (records == 0) ≡ false → slice_index octets.old at < 128 }
    ensures read { drop at octets.new ≡ as_read records (drop at octets.old) }
    ensures later { (place : ℕ) → at < place → drop place octets.new ≡ drop place octets.old }
    ensures length { length octets.new ≡ length octets.old }
{
    if records != 0 {
        octets[at] += 128;
    }
}

/// Appends what is printed from a place on, with MB set in a copy of the input where the rest of a message is read as
/// one; the last place.
pub(crate) fn push_recovery(
    out: &mut Output,
    look: &Look<'_>,
    input: &[u8],
    first: Recovery,
) -> Result<Recovery, NoMemory>
    requires within { first.at ≤ length input.now }
    requires counts { AreCounts first }
    ensures recovery { IfOk result (λ last. Appends (IsRecovery (style_form look.now.style) look.now.source.limits
        input.now first last) out.old.text out.new.text) }
    ensures counts { IfOk result AreCounts }
    ensures within { IfOk result (λ last. last.at ≤ length input.now) }
{
    let mut copy = input.to_vec(out.alloc)?;
    let mut from = first;
    while !is_over(from, input) {
        let at = from.at as usize;
        set_begin(copy.as_mut_slice(), at, from.records);
        let read = cut(copy.as_slice(), at).1;
        let bytes = cut(input, at).1;
        from = push_step(out, look, from, Rest { bytes, read })?;
    }
    Ok(from)
}

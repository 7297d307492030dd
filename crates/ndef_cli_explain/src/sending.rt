//! The output for an input, written message by message.
ghost use Rattle.std.specs.Prelude.{◌≡◌, ◌+◌, ◌<◌, ◌≤◌, ◌^◌, Err, IfErr, Ok, drop, length};
ghost use Rattle.ndef_fields.specs.FieldLaws.{AreGapless};
ghost use Rattle.ndef_message.specs.Inputs.{bytes_of};
ghost use Rattle.ndef_message.specs.States.{sink_state};
ghost use Rattle.ndef_cli_explain.specs.Explained.{IsEnd, IsStopWithin};
ghost use Rattle.ndef_cli_explain.specs.Explaining.{FitsStop};
ghost use Rattle.ndef_cli_explain.specs.Forms.{look_values, style_form};
ghost use Rattle.ndef_cli_explain.specs.Inputs.{FitsUnread};
ghost use Rattle.ndef_cli_explain.specs.Messages.{IsMessageText};
ghost use Rattle.ndef_cli_explain.specs.Reporting.{SendsBody, SendsExplanation, SendsInput, SendsMessages, SendsOut};
ghost use Rattle.ndef_cli_explain.specs.declared.sending.Cut.TheVariants.{Memory, Writing};
ghost use Rattle.ndef_cli_explain.specs.Reporting.{SendsRaw, SendsShown, TellsNext, memory_line, memory_text};

use crate::choice::Wanted;
use crate::coloring::send_colored;
use crate::explained::push_past_stop;
use crate::explaining::{ExplainedMessages, Stop, next_message, push_stop};
use crate::inputs::{Unread, octets_of};
use crate::messages::push_message;
use crate::output::Output;
use crate::raw::{RawInput, raw_octets, raw_payload};
use crate::recovery_place::message_at;
use crate::reporting::{
    ReportOptions, heading_of, look_at, push_fault, stop_status, unread_status,
};
use crate::style::Look;
use ndef_cli::Status;
use ndef_fields::FieldReport;
use ndef_message::{InputError, Sink, WriteFault, send};
use ndef_value::NoMemory;
use std::alloc::Global;

/// The line for a lack of memory.
pub(crate) const MEMORY_LINE: &[u8] = b"fault: memory\n";

/// The object for a lack of memory, in a line.
pub(crate) const MEMORY_OBJECT: &[u8] = b"{\"fault\":\"memory\"}\n";

/// The reason why no more of an input is explained.
#[derive(Clone, Copy)]
pub(crate) enum Cut {
    /// Memory ran out.
    Memory,
    /// The sink failed.
    Writing(WriteFault),
}

impl From<NoMemory> for Cut {
    ghost from_gives = { λ _ cut. cut ≡ Memory };

    fn from(_: NoMemory) -> Cut {
        Cut::Memory
    }
}

impl From<WriteFault> for Cut {
    ghost from_gives = { λ fault cut. cut ≡ Writing fault };

    fn from(fault: WriteFault) -> Cut {
        Cut::Writing(fault)
    }
}

/// Returns the line or the object for a lack of memory.
fn memory_line(json: bool) -> &'static [u8]
    ensures { result.now ≡ memory_line json }
{
    if json { MEMORY_OBJECT } else { MEMORY_LINE }
}

/// Returns the output if memory runs out: nothing among bytes that are written as they are.
fn memory_text(options: &ReportOptions) -> &'static [u8]
    ensures { result.now ≡ memory_text options.now.wanted options.now.json }
{
    match options.wanted {
        Wanted::Explanation => memory_line(options.json),
        Wanted::Octets | Wanted::Payload(_) => b"",
    }
}

/// Writes a text; the status, unless writing fails.
pub(crate) fn send_out<K: Sink>(
    text: &[u8],
    status: Status,
    sink: &mut K,
) -> Result<Status, WriteFault>
    ensures { SendsOut text.now status
        (sink_state K.Sink sink.old) (sink_state K.Sink sink.new) result }
{
    match send(0, text, sink) {
        Ok(_) => Ok(status),
        Err(fault) => Err(fault),
    }
}

/// Writes bytes as they are; returns their status.
fn send_raw<K: Sink>(raw: RawInput, sink: &mut K) -> Result<Status, Cut>
    ensures { SendsRaw raw
        (sink_state K.Sink sink.old) (sink_state K.Sink sink.new) result }
{
    Ok(send_out(raw.text.as_slice(), raw.status, sink)?)
}

/// Writes a text, in colour or as it is.
fn send_shown<K: Sink>(in_color: bool, text: &[u8], sink: &mut K) -> Result<Status, Cut>
    ensures { SendsShown in_color (λ t. t ≡ text.now)
        (sink_state K.Sink sink.old) (sink_state K.Sink sink.new) result }
{
    if in_color {
        return Ok(send_colored(text, sink)?);
    }
    Ok(send_out(text, Status::Clean, sink)?)
}

/// A message of an input: its number, its place, and the bytes from its first on.
#[derive(Clone, Copy)]
struct Numbered<'a> {
    number: u64,
    at: u64,
    bytes: &'a [u8],
}

/// Writes the output for a message.
fn send_message<K: Sink>(
    alloc: Global,
    look: &Look<'_>,
    message: Numbered<'_>,
    reported: FieldReport<'_>,
    sink: &mut K,
) -> Result<Status, Cut>
    requires few { length reported.items ≤ 65535 }
    requires follow { AreGapless 0 reported.fields reported.taken }
    requires fits { message.at + reported.taken < 2 ^ 64 }
    ensures { SendsShown look.now.in_color
        (IsMessageText (style_form look.now.style) message.entry.number message.entry.at message.entry.bytes.now
        reported.entry)
        (sink_state K.Sink sink.old) (sink_state K.Sink sink.new) result }
{
    let mut out = Output::new(alloc);
    let from = message_at(message.number, message.at, 0);
    push_message(&mut out, look.style, from, message.bytes, reported)?;
    send_shown(look.in_color, out.text.as_slice(), sink)
}

/// Writes the output for the messages of an input, one after another.
fn send_messages<'a, K: Sink>(
    alloc: Global,
    look: &Look<'_>,
    input: &'a [u8],
    sink: &mut K,
) -> Result<ExplainedMessages<'a>, Cut>
    ensures { SendsMessages (look_values look.now) input.now
        (sink_state K.Sink sink.old) (sink_state K.Sink sink.new) result }
{
    let size = input.len() as u64;
    let limits = look.source.limits;
    let mut rest = input;
    let mut at = 0;
    let mut number = 1;
    while at < size {
        match next_message(rest, limits) {
            Ok(reported) => {
                let taken = reported.taken;
                let message = Numbered {
                    number,
                    at,
                    bytes: rest,
                };
                match send_message(alloc, look, message, reported, sink) {
                    Ok(_) => {}
                    Err(cut) => return Err(cut),
                }
                (_, rest) = rest.split_at(taken as usize);
                at += taken;
                number += 1;
            }
            Err(refusal) => {
                let stop = Stop::Refused(refusal);
                return Ok(ExplainedMessages {
                    rest,
                    number,
                    at,
                    stop,
                });
            }
        }
    }
    let stop = Stop::End;
    Ok(ExplainedMessages {
        rest,
        number,
        at,
        stop,
    })
}

/// Writes the output for the point at which messages stop, and past a refused record whose end is known.
fn send_end<K: Sink>(
    alloc: Global,
    look: &Look<'_>,
    input: &[u8],
    progress: &ExplainedMessages<'_>,
    sink: &mut K,
) -> Result<Status, Cut>
    requires fits { FitsStop progress.now.at progress.now.rest.now progress.now.stop }
    requires number { progress.now.number ≤ progress.now.at + 1 }
    requires within { IsStopWithin progress.now.at (length input.now) progress.now.stop }
    requires rest { progress.now.rest.now ≡ drop progress.now.at input.now }
    ensures { SendsShown look.now.in_color (IsEnd (look_values look.now) input.now progress.now)
        (sink_state K.Sink sink.old) (sink_state K.Sink sink.new) result }
{
    let mut out = Output::new(alloc);
    push_stop(&mut out, look, progress)?;
    push_past_stop(&mut out, look, input, progress)?;
    send_shown(look.in_color, out.text.as_slice(), sink)
}

/// Writes the output for the bytes of an input; returns its status.
fn send_octets<K: Sink>(
    alloc: Global,
    look: &Look<'_>,
    octets: &[u8],
    sink: &mut K,
) -> Result<Status, Cut>
    ensures { SendsBody (look_values look.now) (Ok octets.now)
        (sink_state K.Sink sink.old) (sink_state K.Sink sink.new) result }
{
    match send_messages(alloc, look, octets, sink) {
        Ok(progress) => match send_end(alloc, look, octets, &progress, sink) {
            Ok(_) => Ok(stop_status(progress.stop)),
            Err(cut) => Err(cut),
        },
        Err(cut) => Err(cut),
    }
}

/// Writes the output for a fault; returns its status.
fn send_fault<K: Sink>(
    alloc: Global,
    look: &Look<'_>,
    unread: Unread,
    sink: &mut K,
) -> Result<Status, Cut>
    requires { FitsUnread unread }
    ensures { SendsBody (look_values look.now) (Err unread)
        (sink_state K.Sink sink.old) (sink_state K.Sink sink.new) result }
{
    let mut out = Output::new(alloc);
    push_fault(&mut out, look.style, unread)?;
    match send_shown(look.in_color, out.text.as_slice(), sink) {
        Ok(_) => Ok(unread_status(unread)),
        Err(cut) => Err(cut),
    }
}

/// Writes the output for the bytes of an input, or for the fault, if there are none; returns its status.
fn send_body<K: Sink>(
    alloc: Global,
    look: &Look<'_>,
    octets: Result<Vec<u8>, Unread>,
    sink: &mut K,
) -> Result<Status, Cut>
    requires { IfErr octets FitsUnread }
    ensures { SendsBody (look_values look.now) (bytes_of octets)
        (sink_state K.Sink sink.old) (sink_state K.Sink sink.new) result }
{
    match octets {
        Ok(octets) => send_octets(alloc, look, octets.as_slice(), sink),
        Err(unread) => send_fault(alloc, look, unread, sink),
    }
}

/// Writes the explanation of the bytes of an input of this name, or the output for the fault, if there are none;
/// returns its status.
fn send_explanation<K: Sink>(
    alloc: Global,
    options: &ReportOptions,
    name: &str,
    octets: Result<Vec<u8>, Unread>,
    sink: &mut K,
) -> Result<Status, Cut>
    requires { IfErr octets FitsUnread }
    ensures { SendsExplanation options.now name.now (bytes_of octets)
        (sink_state K.Sink sink.old) (sink_state K.Sink sink.new) result }
{
    let look = look_at(options, name);
    let heading = heading_of(alloc, options, name)?;
    match send_shown(look.in_color, heading.as_slice(), sink) {
        Ok(_) => send_body(alloc, &look, octets, sink),
        Err(cut) => Err(cut),
    }
}

/// Writes what is wanted of an input of this name, from the result of reading it; returns its status.
fn send_input<K: Sink>(
    alloc: Global,
    options: &ReportOptions,
    name: &str,
    read: Result<Vec<u8>, InputError>,
    sink: &mut K,
) -> Result<Status, Cut>
    ensures { SendsInput options.now name.now (bytes_of read)
        (sink_state K.Sink sink.old) (sink_state K.Sink sink.new) result }
{
    let octets = octets_of(alloc, options.hex, read);
    match options.wanted {
        Wanted::Explanation => send_explanation(alloc, options, name, octets, sink),
        Wanted::Octets => send_raw(raw_octets(alloc, octets), sink),
        Wanted::Payload(number) => {
            send_raw(raw_payload(alloc, options.limits, number, octets)?, sink)
        }
    }
}

/// Writes the output for an input of this name, from the result of reading it; returns its status, unless this fails.
/// Where memory runs out the last line says so.
pub(crate) fn tell_next<K: Sink>(
    alloc: Global,
    options: &ReportOptions,
    name: &str,
    read: Result<Vec<u8>, InputError>,
    sink: &mut K,
) -> Result<Status, WriteFault>
    ensures { TellsNext options.now name.now (bytes_of read)
        (sink_state K.Sink sink.old) (sink_state K.Sink sink.new) result }
{
    match send_input(alloc, options, name, read, sink) {
        Ok(status) => Ok(status),
        Err(cut) => match cut {
            Cut::Memory => send_out(memory_text(options), Status::Fault, sink),
            Cut::Writing(fault) => Err(fault),
        },
    }
}

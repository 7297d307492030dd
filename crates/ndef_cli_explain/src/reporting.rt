//! How inputs are explained, and the output for one of which there are no bytes.
ghost use Rattle.std.specs.Prelude.{◌≡◌, ◌++◌, ◌&&◌, not, IfOk, OnOk};
ghost use Rattle.ndef_cli.specs.Outcomes.{FitsPlace, status_of};
ghost use Rattle.ndef_cli_explain.specs.Forms.{form_in, look_values, style_form};
ghost use Rattle.ndef_cli_explain.specs.Inputs.{FitsUnread};
ghost use Rattle.ndef_cli_explain.specs.Reporting.{dump_line, fault_line, heading, look_at, origin_in, outcome_line};
ghost use Rattle.ndef_cli_explain.specs.Reporting.{stop_status, unread_status, unread_text};
ghost use Rattle.ndef_cli_explain.specs.Shell.{origin_of};

use crate::choice::Wanted;
use crate::explaining::Stop;
use crate::faults::push_unread_object;
use crate::inputs::Unread;
use crate::output::Output;
use crate::shell::Source;
use crate::style::{Look, Shown, Style};
use ndef_cli::{Outcome, Status, outcome_text, push_number, push_quoted};
use ndef_value::{Bytes, Limits, NoMemory};
use std::alloc::Global;

/// The options by which inputs are explained.
#[derive(Clone, Copy)]
pub(crate) struct ReportOptions {
    pub(crate) limits: Limits,
    /// They are hexadecimal text.
    pub(crate) hex: bool,
    /// The output is in colour.
    pub(crate) in_color: bool,
    /// It is in JSON.
    pub(crate) json: bool,
    pub(crate) shown: Shown,
    pub(crate) wanted: Wanted,
    /// A line names each of them.
    pub(crate) named: bool,
}

/// The status of an ending.
fn status_of(outcome: Outcome) -> Status
    ensures { result ≡ status_of outcome }
{
    match outcome {
        Outcome::Clean => Status::Clean,
        Outcome::Refused(_) | Outcome::Hex(_) => Status::Refused,
        Outcome::Reading
        | Outcome::Writing
        | Outcome::Memory
        | Outcome::TooMany
        | Outcome::TooLong => Status::Fault,
    }
}

/// The status of an input of which there are no bytes.
pub(crate) fn unread_status(unread: Unread) -> Status
    ensures { result ≡ unread_status unread }
{
    match unread {
        Unread::Ends(outcome) => status_of(outcome),
        Unread::NoPlace(_) | Unread::Repeated(_) | Unread::Words => Status::Refused,
    }
}

/// Appends the line for a line of a dump that is at fault, with its end.
fn push_dump_fault(text: &mut Bytes, fault: &[u8], line: u64, end: &[u8]) -> Result<(), NoMemory>
    ensures { OnOk result (text.new ≡ text.old ++ dump_line fault.now line end.now) }
{
    text.extend(fault)?;
    push_number(text, line)?;
    text.extend(end)
}

/// Appends the line of an ending.
fn push_outcome_line(text: &mut Bytes, outcome: Outcome) -> Result<(), NoMemory>
    requires { FitsPlace 0 outcome }
    ensures { OnOk result (text.new ≡ text.old ++ outcome_line outcome) }
{
    match outcome {
        Outcome::TooLong => text.extend(b"fault: input too long\n"),
        Outcome::Clean
        | Outcome::Refused(_)
        | Outcome::Hex(_)
        | Outcome::Reading
        | Outcome::Writing
        | Outcome::Memory
        | Outcome::TooMany => text.extend(outcome_text(0, outcome).as_slice()),
    }
}

/// Appends the line of a fault.
fn push_fault_line(text: &mut Bytes, unread: Unread) -> Result<(), NoMemory>
    requires { FitsUnread unread }
    ensures { OnOk result (text.new ≡ text.old ++ fault_line unread) }
{
    match unread {
        Unread::Ends(outcome) => push_outcome_line(text, outcome),
        Unread::NoPlace(line) => {
            push_dump_fault(text, b"hex: no place and colon in line ", line, b"\n")
        }
        Unread::Repeated(line) => {
            push_dump_fault(
                text,
                b"hex: no line to repeat in line ",
                line,
                b": use od -v\n",
            )
        }
        Unread::Words => { text.extend(b"hex: words, not bytes: use hexdump -C or od -tx1\n") }
    }
}

/// The status where messages stop.
pub(crate) fn stop_status(stop: Stop) -> Status
    ensures { result ≡ stop_status stop }
{
    match stop {
        Stop::End => Status::Clean,
        Stop::Refused(_) => Status::Refused,
    }
}

/// Appends the line of an input that is named, where they are.
fn push_heading(text: &mut Bytes, named: bool, name: &str) -> Result<(), NoMemory>
    ensures { OnOk result (text.new ≡ text.old ++ heading named name.now) }
{
    if !named {
        return Ok(());
    }
    text.extend(b"file ")?;
    push_quoted(text, name.as_bytes())?;
    text.extend(b"\n")
}

/// The form of the output for an input of this name.
fn style_of<'a>(options: &ReportOptions, name: &'a str) -> Style<'a>
    ensures { style_form result ≡ form_in options.now.json options.now.shown options.now.named name.now }
{
    if !options.json {
        return Style::Lines(options.shown);
    }
    Style::Objects(if options.named { Some(name) } else { None })
}

/// The source of an input of this name.
fn source_of<'a>(options: &ReportOptions, name: &'a str) -> Source<'a>
    ensures { origin_of result ≡ origin_in options.now name.now }
{
    Source {
        name,
        hex: options.hex,
        limits: options.limits,
    }
}

/// Appends the output for a fault.
pub(crate) fn push_fault(out: &mut Output, style: Style<'_>, unread: Unread) -> Result<(), NoMemory>
    requires { FitsUnread unread }
    ensures { OnOk result (out.new.text ≡ out.old.text ++ unread_text (style_form style.entry) unread) }
{
    match style {
        Style::Lines(_) => push_fault_line(&mut out.text, unread),
        Style::Objects(file) => push_unread_object(out, file, unread),
    }
}

/// How an input of this name is explained.
pub(crate) fn look_at<'a>(options: &ReportOptions, name: &'a str) -> Look<'a>
    ensures { look_values result ≡ look_at options.now name.now }
{
    Look {
        style: style_of(options, name),
        in_color: !options.json && options.in_color,
        source: source_of(options, name),
    }
}

/// Returns the line of the name of an input, where lines name theirs.
pub(crate) fn heading_of(
    alloc: Global,
    options: &ReportOptions,
    name: &str,
) -> Result<Bytes, NoMemory>
    ensures { IfOk result (λ line. line ≡ heading (not options.now.json && options.now.named) name.now) }
{
    let mut line = Bytes::new(alloc);
    push_heading(&mut line, !options.json && options.named, name)?;
    Ok(line)
}

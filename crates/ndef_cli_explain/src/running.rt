//! The program, over any inputs and any sink.
ghost use Rattle.std.specs.Prelude.{◌≡◌, map, string_bytes};
ghost use Rattle.ndef_message.specs.States.{sink_state};
ghost use Rattle.ndef_cli.specs.declared.status.Status.TheVariants.{Clean};
ghost use Rattle.ndef_cli_explain.specs.Chosen.{asked_parts};
ghost use Rattle.ndef_cli_explain.specs.Running.{Runs, TellsAll, TellsAsked};
ghost use Rattle.ndef_cli_explain.specs.Running.{course, is_in_color, report_options_of, world};

use crate::choice::{Asked, Color, ExplainChoice, ask};
use crate::pages::page_text;
use crate::reporting::ReportOptions;
use crate::sending::tell_next;
use ndef_cli::{ArgsError, Inputs, Status, page_asked, print, worse};
use ndef_message::Sink;
use std::alloc::Global;

/// The output if the words don't parse.
pub(crate) const USAGE: &[u8] =
    b"usage: ndef-explain [--hex] [--payload N] [--records N] [--pieces N] \
    [--profile strict|standard] [--color auto|always|never] [--json] [--utf8] \
    [--characters] [--raw [--record N]] [FILE]..\n";

/// Whether output is in colour.
fn is_in_color(color: Color, takes_color: bool) -> bool
    ensures { result ≡ is_in_color color takes_color }
{
    match color {
        Color::Auto => takes_color,
        Color::Always => true,
        Color::Never => false,
    }
}

/// Returns the options by which inputs are explained.
fn report_options_of(choice: ExplainChoice, takes_color: bool, named: bool) -> ReportOptions
    ensures { result ≡ report_options_of choice takes_color named }
{
    ReportOptions {
        limits: choice.limits,
        hex: choice.hex,
        in_color: is_in_color(choice.color, takes_color),
        json: choice.json,
        shown: choice.shown,
        wanted: choice.wanted,
        named,
    }
}

/// Reads and explains the inputs of these names, one after another.
fn tell_all<I: Inputs, K: Sink>(
    alloc: Global,
    options: &ReportOptions,
    names: &[&str],
    inputs: &mut I,
    sink: &mut K,
) -> Status
    ensures { TellsAll I.gives options.now (map (λ name. name.now) names.now) Clean
        (course (world inputs.old (sink_state K.Sink sink.old))
        (world inputs.new (sink_state K.Sink sink.new)) result) }
{
    let mut status = Status::Clean;
    for name in names {
        let read = inputs.read(alloc, name);
        match tell_next(alloc, options, name, read, sink) {
            Ok(reported) => status = worse(status, reported),
            Err(_) => return Status::Fault,
        }
    }
    status
}

/// Explains the inputs for which the words ask.
fn run_for<I: Inputs, K: Sink>(
    alloc: Global,
    asked: &Asked<'_>,
    takes_color: bool,
    inputs: &mut I,
    sink: &mut K,
) -> Status
    ensures { TellsAsked I.gives takes_color (asked_parts asked.now)
        (course (world inputs.old (sink_state K.Sink sink.old))
        (world inputs.new (sink_state K.Sink sink.new)) result) }
{
    let files = asked.files.as_slice();
    if files.is_empty() {
        let options = report_options_of(asked.choice, takes_color, false);
        tell_all(alloc, &options, &["-"], inputs, sink)
    } else {
        let options = report_options_of(asked.choice, takes_color, true);
        tell_all(alloc, &options, files, inputs, sink)
    }
}

/// Prints, for each byte of the inputs, or with `--hex` of the bytes that their text denotes, its field and
/// the meaning of the field; with `--raw` these bytes or the payload of a record as they are; or a page about the
/// program. Of the words the first is the program's name.
///
/// Each input is read whole before any output for it is written, and the output for each message is written before the
/// next one is explained. If memory runs out, a line says so after what is written by then. After a writing fault the
/// status is `Fault`, and a front of the text is written; nothing where the sink had failed before, and the status is
/// `Fault` then too, unless there was nothing to write. Output is in colour as the words request, or if it takes
/// colours.
pub fn run<I: Inputs, K: Sink>(
    alloc: Global,
    words: &[String],
    takes_color: bool,
    inputs: &mut I,
    sink: &mut K,
) -> Status
    ensures { Runs I.gives (map string_bytes words.now) takes_color
        (course (world inputs.old (sink_state K.Sink sink.old))
        (world inputs.new (sink_state K.Sink sink.new)) result) }
{
    if let Some(page) = page_asked(words) {
        return print(page_text(page), Status::Clean, sink);
    }
    match ask(alloc, words) {
        Ok(asked) => run_for(alloc, &asked, takes_color, inputs, sink),
        Err(ArgsError::Usage) => print(USAGE, Status::Usage, sink),
        Err(ArgsError::NoMemory) => Status::Fault,
    }
}

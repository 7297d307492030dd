//! The program, over any inputs and sinks.
ghost use Rattle.std.specs.Prelude.{map, string_bytes};
ghost use Rattle.ndef_message.specs.States.{sink_state};
ghost use Rattle.ndef_cli_make.specs.Runs.{Notes, RunsForRecords, RunsNdefMake, three_streams};

use crate::fault::{fault_status, line_of};
use crate::making::{OutputFormat, make};
use crate::pages::{make_page_asked, ndef_make_page};
use ndef_cli::{Inputs, Status, print};
use ndef_message::Sink;
use std::alloc::Global;

/// The note that explains why digits are written to a terminal.
const NOTE: &[u8] = b"standard output is a terminal: writing hexadecimal digits; \
    --raw writes the bytes\n";

/// Writes that digits are written because they go to a terminal, if that is so. Whether it goes out doesn't matter for
/// the status.
fn note<L: Sink>(shown: OutputFormat, lines: &mut L)
    ensures { Notes shown (sink_state L.Sink lines.old) (sink_state L.Sink lines.new) }
{
    match shown {
        OutputFormat::Octets | OutputFormat::Digits | OutputFormat::Number => {}
        OutputFormat::DigitsForTerminal => {
            print(NOTE, Status::Clean, lines);
        }
    }
}

/// Writes the message of records that the words request, or the reason why there is none.
fn run_for<I: Inputs, K: Sink, L: Sink>(
    alloc: Global,
    words: &[String],
    terminal: bool,
    inputs: &mut I,
    sink: &mut K,
    lines: &mut L,
) -> Status
    ensures { RunsForRecords I.gives (map string_bytes words.now) terminal
        (three_streams K.Sink L.Sink inputs.old sink.old lines.old)
        (three_streams K.Sink L.Sink inputs.new sink.new lines.new) result }
{
    match make(alloc, words, terminal, inputs) {
        Ok(made) => {
            note(made.shown, lines);
            print(made.text.as_slice(), Status::Clean, sink)
        }
        Err(fault) => {
            let reported = line_of(&fault);
            print(reported.as_slice(), Status::Clean, lines);
            fault_status(&fault)
        }
    }
}

/// Does what the words request, of which the first is the program's name: writes the message or a page to one sink, or
/// to the other the reason why there is no message.
///
/// After a writing fault of the first the status is `Fault`, and a front of the text is written. To a terminal the
/// message goes in hexadecimal digits, and a note goes to the other sink, unless the words choose the format. Nothing
/// is written to a sink that had failed before; if that is the first and there was something to write to it, the status
/// is `Fault`.
pub fn run<I: Inputs, K: Sink, L: Sink>(
    alloc: Global,
    words: &[String],
    terminal: bool,
    inputs: &mut I,
    sink: &mut K,
    lines: &mut L,
) -> Status
    ensures { RunsNdefMake I.gives (map string_bytes words.now) terminal
        (three_streams K.Sink L.Sink inputs.old sink.old lines.old)
        (three_streams K.Sink L.Sink inputs.new sink.new lines.new) result }
{
    match make_page_asked(words) {
        Some(page) => print(ndef_make_page(page), Status::Clean, sink),
        None => run_for(alloc, words, terminal, inputs, sink, lines),
    }
}

//! Output in colour.
ghost use Rattle.std.specs.Prelude.{◌≡◌};
ghost use Rattle.ndef_cli.specs.declared.status.Status.TheVariants.{Clean};
ghost use Rattle.ndef_message.specs.States.{sink_state};
ghost use Rattle.ndef_cli_explain.specs.Coloring.{colored, colored_line, ink_of, is_fault_line, is_heading};
ghost use Rattle.ndef_cli_explain.specs.Coloring.{is_refused_byte, rendered};
ghost use Rattle.ndef_cli_explain.specs.Reporting.{SendsNext, SendsOut};

use crate::fields::cut;
use crate::sending::send_out;
use ndef_cli::{Status, cut_at};
use ndef_message::{Sink, WriteFault};

/// The colour of a part of a line.
#[derive(Clone, Copy)]
enum Ink {
    Bold,
    Red,
    /// The place is faint, the rest as it is.
    FaintPlace,
    Plain,
}

/// Whether the line is that of a message or of an input.
fn is_heading(line: &[u8]) -> bool
    ensures { result ≡ is_heading line.now }
{
    line.starts_with(b"message ") || line.starts_with(b"file ")
}

/// Whether the line of a place is that of a refused byte: it has a caret after the octets.
fn is_refused_byte(line: &[u8]) -> bool
    ensures { result ≡ is_refused_byte line.now }
{
    line.get(33) == Some(&b'^') || line.get(35) == Some(&b'^')
}

/// Whether the line is that of a refusal or a fault.
fn is_fault_line(line: &[u8]) -> bool
    ensures { result ≡ is_fault_line line.now }
{
    line.starts_with(b"refused ") || line.starts_with(b"fault: ") || line.starts_with(b"hex: ")
}

/// The ink of a line.
fn ink_of(line: &[u8]) -> Ink
    ensures { result ≡ ink_of line.now }
{
    if is_heading(line) {
        Ink::Bold
    } else if is_fault_line(line) {
        Ink::Red
    } else if line.starts_with(b"0") {
        if is_refused_byte(line) {
            Ink::Red
        } else {
            Ink::FaintPlace
        }
    } else {
        Ink::Plain
    }
}

/// Writes a text after what was sent, unless writing that failed.
fn send_next<K: Sink>(
    sent: Result<Status, WriteFault>,
    text: &[u8],
    sink: &mut K,
) -> Result<Status, WriteFault>
    ensures { SendsNext sent text.now (sink_state K.Sink sink.old) (sink_state K.Sink sink.new) result }
{
    match sent {
        Ok(_) => send_out(text, Status::Clean, sink),
        Err(fault) => Err(fault),
    }
}

/// Writes a text after what was sent, in the rendition that these octets select, and then the usual one (ECMA-48,
/// select graphic rendition).
fn send_rendered<K: Sink>(
    sent: Result<Status, WriteFault>,
    opening: &[u8],
    text: &[u8],
    sink: &mut K,
) -> Result<Status, WriteFault>
    ensures { SendsNext sent (rendered opening.now text.now)
        (sink_state K.Sink sink.old) (sink_state K.Sink sink.new) result }
{
    let opened = send_next(sent, opening, sink);
    let written = send_next(opened, text, sink);
    send_next(written, b"\x1b[0m", sink)
}

/// Writes a line after what was sent, in its ink.
fn send_line<K: Sink>(
    sent: Result<Status, WriteFault>,
    line: &[u8],
    sink: &mut K,
) -> Result<Status, WriteFault>
    ensures { SendsNext sent (colored_line line.now)
        (sink_state K.Sink sink.old) (sink_state K.Sink sink.new) result }
{
    match ink_of(line) {
        Ink::Bold => send_rendered(sent, b"\x1b[1m", line, sink),
        Ink::Red => send_rendered(sent, b"\x1b[31m", line, sink),
        Ink::FaintPlace => {
            let (place, rest) = cut(line, 8);
            let placed = send_rendered(sent, b"\x1b[2m", place, sink);
            send_next(placed, rest, sink)
        }
        Ink::Plain => send_next(sent, line, sink),
    }
}

/// Writes the lines of a text in colour, one after another.
pub(crate) fn send_colored<K: Sink>(text: &[u8], sink: &mut K) -> Result<Status, WriteFault>
    ensures { SendsOut (colored text.now) Clean
        (sink_state K.Sink sink.old) (sink_state K.Sink sink.new) result }
{
    let mut sent = Ok(Status::Clean);
    let (mut line, mut rest) = cut_at(text, b'\n');
    while let Some(more) = rest {
        let shown = send_line(sent, line, sink);
        sent = send_next(shown, b"\n", sink);
        (line, rest) = cut_at(more, b'\n');
    }
    send_line(sent, line, sink)
}

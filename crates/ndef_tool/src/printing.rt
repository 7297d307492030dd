//! The lines that the command prints.
ghost use Rattle.std.specs.Prelude.{◌≡◌};
ghost use Rattle.ndef_cli.specs.Outcomes.{FitsPlace};
ghost use Rattle.ndef_tool.specs.Output.{outcome_line, message_line};

use crate::choice::Action;
use ndef_cli::{ArrayLine, Line, Outcome, outcome_text};

/// The line of a message, which has at most 112 bytes.
pub type MessageLine = ArrayLine<112>;

/// The line of a message, with its number from 1 and its place in the input.
pub fn message_line(number: u64, at: u64, records: u64, bytes: u64) -> MessageLine
    ensures { result ≡ message_line number at records bytes }
{
    let mut line = MessageLine::new();
    line.push(b"message ");
    line.push_number(number);
    line.push(b" at ");
    line.push_number(at);
    line.push(b": records ");
    line.push_number(records);
    line.push(b", bytes ");
    line.push_number(bytes);
    line.push(b"\n");
    line
}

/// The line of an ending, after messages of `base` bytes, where there is one; `encode` has none.
pub(crate) fn outcome_line(action: Action, base: u64, outcome: Outcome) -> Line
    requires { FitsPlace base outcome }
    ensures { result ≡ outcome_line action base outcome }
{
    match action {
        Action::Show | Action::Check => outcome_text(base, outcome),
        Action::Encode(_, _) => Line::new(),
    }
}

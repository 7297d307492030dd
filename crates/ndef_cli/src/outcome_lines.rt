//! The lines of endings.
ghost use Rattle.std.specs.Prelude.{◌≡◌, ◌++◌, ◌+◌, ◌<◌, ◌^◌, ◌≤◌, length};
ghost use Rattle.ndef_cli.specs.Outcomes.{FitsPlace, outcome_text, hex_line, refusal_line, refusal_text};

use crate::{HexFault, Line, Outcome, ROOM};
use ndef_value::{Reason, Refusal};

/// Appends where and why bytes are refused.
pub fn push_refusal(line: &mut Line, at: u64, reason: Reason)
    requires { length line.old ≤ 80 }
    ensures text { line.new ≡ line.old ++ refusal_text at reason }
    ensures room { length line.new ≤ length line.old + 60 }
{
    line.push_number(at);
    line.push(b": ");
    line.push_number(u64::from(reason.number()));
    line.push(b" ");
    line.push(reason.name());
}

/// The line of a refusal, after messages of `base` bytes.
fn refusal_line(base: u64, refusal: Refusal) -> Line
    requires { base + refusal.at < 2 ^ 64 }
    ensures { result ≡ refusal_line base refusal }
{
    let mut line = Line::new();
    line.push(b"refused at ");
    push_refusal(&mut line, base + refusal.at, refusal.reason);
    line.push(b"\n");
    line
}

/// The line of a fault of hexadecimal digits.
fn hex_line(fault: HexFault) -> Line
    ensures { result ≡ hex_line fault }
{
    let mut line = Line::new();
    line.push(b"hex: ");
    match fault {
        HexFault::Odd => line.push(b"odd number of digits"),
        HexFault::BadDigit(place) => {
            line.push(b"bad digit at ");
            line.push_number(place);
        }
    }
    line.push(b"\n");
    line
}

/// A line of this text.
pub fn text_line(text: &[u8]) -> Line
    requires { length text.now ≤ ROOM }
    ensures { result ≡ text.now }
{
    let mut line = Line::new();
    line.push(text);
    line
}

/// The line of an ending, after messages of `base` bytes, where it has one.
pub fn outcome_text(base: u64, outcome: Outcome) -> Line
    requires { FitsPlace base outcome }
    ensures { result ≡ outcome_text base outcome }
{
    match outcome {
        Outcome::Clean | Outcome::Writing => Line::new(),
        Outcome::Refused(refusal) => refusal_line(base, refusal),
        Outcome::Hex(fault) => hex_line(fault),
        Outcome::Reading => text_line(b"fault: reading\n"),
        Outcome::Memory => text_line(b"fault: memory\n"),
        Outcome::TooMany => text_line(b"fault: more than 10000 messages\n"),
        Outcome::TooLong => text_line(b"fault: hexadecimal input too long\n"),
    }
}

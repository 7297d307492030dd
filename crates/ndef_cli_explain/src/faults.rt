//! The objects of inputs of which there are no bytes.
ghost use Rattle.std.specs.Prelude.{◌≡◌, ◌++◌, OnOk};
ghost use Rattle.ndef_cli_explain.specs.Faults.{digit_fault, fault_object, hex_object, line_fault, named_fault};
ghost use Rattle.ndef_cli_explain.specs.Faults.{unread_object};
ghost use Rattle.ndef_cli_explain.specs.Forms.{name_of};
ghost use Rattle.ndef_cli_explain.specs.Outputs.{json_line};

use crate::inputs::Unread;
use crate::messages::push_file;
use crate::output::Output;
use ndef_cli::{HexFault, Outcome};
use ndef_value::NoMemory;

/// Appends the object of a fault in a line.
#[tactic(auto, using(crate::proofs::OutputParts::line_parts))]
fn push_named_fault(out: &mut Output, file: Option<&str>, fault: &[u8]) -> Result<(), NoMemory>
    ensures { OnOk result (out.new.text ≡ out.old.text ++ json_line (named_fault (name_of file.entry) fault.now)) }
{
    out.begin_line()?;
    out.string_member(b"fault", fault)?;
    push_file(out, file)?;
    out.end(b"}")?;
    out.end(b"\n")
}

/// Appends the object of a digit that isn't one in a line.
#[tactic(auto, using(crate::proofs::OutputParts::line_parts))]
fn push_digit_fault(out: &mut Output, file: Option<&str>, digit: u64) -> Result<(), NoMemory>
    ensures { OnOk result (out.new.text ≡ out.old.text ++ json_line (digit_fault (name_of file.entry) digit)) }
{
    out.begin_line()?;
    out.number_member(b"digit", digit)?;
    out.string_member(b"fault", b"bad digit")?;
    push_file(out, file)?;
    out.end(b"}")?;
    out.end(b"\n")
}

/// Appends the object of what is wrong with hexadecimal digits in a line.
fn push_hex_fault(out: &mut Output, file: Option<&str>, fault: HexFault) -> Result<(), NoMemory>
    ensures { OnOk result (out.new.text ≡ out.old.text ++ json_line (hex_object (name_of file.entry) fault)) }
{
    match fault {
        HexFault::Odd => push_named_fault(out, file, b"odd number of digits"),
        HexFault::BadDigit(digit) => push_digit_fault(out, file, digit),
    }
}

/// Appends the object for an ending in a line.
fn push_fault_object(out: &mut Output, file: Option<&str>, outcome: Outcome) -> Result<(), NoMemory>
    ensures { OnOk result (out.new.text ≡ out.old.text ++ json_line (fault_object (name_of file.entry) outcome)) }
{
    match outcome {
        Outcome::Hex(fault) => push_hex_fault(out, file, fault),
        Outcome::Reading => push_named_fault(out, file, b"reading"),
        Outcome::TooLong => push_named_fault(out, file, b"input too long"),
        Outcome::Memory => push_named_fault(out, file, b"memory"),
        Outcome::Clean => push_named_fault(out, file, b"none"),
        Outcome::Refused(_) => push_named_fault(out, file, b"refused"),
        Outcome::Writing => push_named_fault(out, file, b"writing"),
        Outcome::TooMany => push_named_fault(out, file, b"more than 10000 messages"),
    }
}

/// Appends the object of a fault of a line of a dump in a line.
#[tactic(auto, using(crate::proofs::OutputParts::line_parts))]
fn push_line_fault(
    out: &mut Output,
    file: Option<&str>,
    fault: &[u8],
    number: u64,
) -> Result<(), NoMemory>
    ensures { OnOk result (out.new.text
        ≡ out.old.text ++ json_line (line_fault (name_of file.entry) fault.now number)) }
{
    out.begin_line()?;
    out.string_member(b"fault", fault)?;
    push_file(out, file)?;
    out.number_member(b"line", number)?;
    out.end(b"}")?;
    out.end(b"\n")
}

/// Appends the object for an input of which there are no bytes in a line.
pub(crate) fn push_unread_object(
    out: &mut Output,
    file: Option<&str>,
    unread: Unread,
) -> Result<(), NoMemory>
    ensures { OnOk result (out.new.text ≡ out.old.text ++ json_line (unread_object (name_of file.entry) unread)) }
{
    match unread {
        Unread::Ends(outcome) => push_fault_object(out, file, outcome),
        Unread::NoPlace(line) => push_line_fault(out, file, b"no place and colon", line),
        Unread::Repeated(line) => push_line_fault(out, file, b"no line to repeat", line),
        Unread::Words => push_named_fault(out, file, b"words, not bytes"),
    }
}

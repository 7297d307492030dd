//! The message that the words ask for.
ghost use Rattle.std.specs.Prelude.{◌≡◌, ◌≢◌, ◌++◌, [], codes, decimal, length, map, string_bytes, IfOk};
ghost use Rattle.ndef_format.specs.Canonical.{canonical};
ghost use Rattle.ndef_cli_make.specs.Asked.{asked_part};
ghost use Rattle.ndef_cli_make.specs.Editing.{origin_in};
ghost use Rattle.ndef_cli_make.specs.SizeChecks.{size_mismatch};
ghost use Rattle.ndef_cli_make.specs.Outcomes.{IsMadeFrom, IsMadeOfWords};
ghost use Rattle.ndef_cli_make.specs.Making.{MakesFrom, MakesMessage, WritesMessage, shown_by, output_format_of, written_as};

use crate::edited::make_edited;
use crate::editing::{Flags, origin_in};
use crate::inputs::read_for;
use crate::parts::{ParsedPart, words_after};
use crate::records::make_record;
use crate::size_check::{CheckedSize, SizeCheck, size_check_words, size_mismatch};
use crate::{Fault, Refused, UsageError};
use ndef_cli::{Inputs, hexadecimal_line, push_number};
use ndef_message::{Form, encode, encoded_length, short_is_canonical};
use ndef_value::{Bytes, Message, MessageError, NoMemory, Record};
use std::alloc::Global;

/// The format in which the bytes of a message are written.
#[derive(Clone, Copy, Debug, PartialEq, Eq)]
pub enum OutputFormat {
    /// The bytes themselves.
    Octets,
    /// Hexadecimal digits and a newline.
    Digits,
    /// Hexadecimal digits and a newline, because the output goes to a terminal.
    DigitsForTerminal,
    /// The number of the bytes and a newline, in place of the bytes.
    Number,
}

/// The way in which a message is written: whether to a terminal, and what of it.
#[derive(Clone, Copy)]
pub(crate) struct Writing {
    pub(crate) terminal: bool,
    pub(crate) size_check: SizeCheck,
}

/// The output for a message.
#[derive(Debug, Drop)]
pub struct Written {
    /// The bytes, or their digits.
    pub text: Bytes,
    /// The format of the output.
    pub shown: OutputFormat,
}

/// Returns the format that the flags choose, for a terminal or not.
pub(crate) fn shown_by(terminal: bool, flags: Flags) -> OutputFormat
    ensures { result ≡ shown_by terminal flags }
{
    if flags.hex {
        return OutputFormat::Digits;
    }
    if terminal && !flags.raw {
        return OutputFormat::DigitsForTerminal;
    }
    OutputFormat::Octets
}

/// Returns the format of the output for a size check, if the bytes themselves would be written in the format `shown`.
pub(crate) fn output_format_of(size_check: SizeCheck, shown: OutputFormat) -> OutputFormat
    ensures { result ≡ output_format_of size_check shown }
{
    match size_check {
        SizeCheck::Count => OutputFormat::Number,
        SizeCheck::Whole | SizeCheck::Room(_) => shown,
    }
}

/// Returns the record that a part requests, with its payload.
pub(crate) fn read_and_make<I: Inputs>(
    alloc: Global,
    said: &ParsedPart<'_>,
    inputs: &mut I,
) -> Result<Record, Fault>
    ensures { MakesFrom I.gives (asked_part said.now) inputs.old inputs.new result }
{
    let payload = read_for(alloc, said, inputs)?;
    make_record(alloc, said, payload.as_slice())
}

/// This number as a line.
fn number_line(alloc: Global, number: u64) -> Result<Bytes, NoMemory>
    ensures { IfOk result (λ text. text ≡ decimal number ++ codes "\n") }
{
    let mut line = Bytes::new(alloc);
    push_number(&mut line, number)?;
    line.extend(b"\n")?;
    Ok(line)
}

/// The bytes of a message as they are written, or their number.
fn text_of(alloc: Global, shown: OutputFormat, message: &Message) -> Result<Bytes, NoMemory>
    ensures { IfOk result (λ text. text ≡ written_as shown (canonical message.now)) }
{
    // For the proof alone.
    short_is_canonical();
    match shown {
        OutputFormat::Octets => encode(alloc, message, Form::Short),
        OutputFormat::Digits | OutputFormat::DigitsForTerminal => {
            let bytes = encode(alloc, message, Form::Short)?;
            hexadecimal_line(alloc, bytes.as_slice())
        }
        OutputFormat::Number => number_line(alloc, encoded_length(message, Form::Short)),
    }
}

/// The length of a message and the bytes of the tag, where these are too few.
fn size_mismatch_of(size_check: SizeCheck, message: &Message) -> Option<(u64, u32)>
    ensures { result ≡ size_mismatch size_check (length (canonical message.now)) }
{
    // For the proof alone.
    short_is_canonical();
    match size_check {
        SizeCheck::Whole | SizeCheck::Count => None,
        SizeCheck::Room(room) => size_mismatch(room, encoded_length(message, Form::Short)),
    }
}

/// Returns the output for a message.
fn write_message(
    alloc: Global,
    size_check: SizeCheck,
    shown: OutputFormat,
    message: &Message,
) -> Result<Written, Fault>
    ensures { WritesMessage size_check shown message.now result }
{
    if let Some((size, room)) = size_mismatch_of(size_check, message) {
        return Err(Fault::Refused(Refused::NoRoom(size, room)));
    }
    let text = text_of(alloc, shown, message)?;
    Ok(Written { text, shown })
}

/// Returns the output for the records.
pub(crate) fn write_records(
    alloc: Global,
    size_check: SizeCheck,
    shown: OutputFormat,
    records: Vec<Record>,
) -> Result<Written, Fault>
    requires { records.items ≢ [] }
    ensures { MakesMessage size_check shown records.items result }
{
    match Message::new(records) {
        Ok(message) => write_message(alloc, size_check, shown, &message),
        Err(MessageError::NoRecords(_)) => unreachable!(),
        Err(MessageError::TooMany(_)) => Err(Fault::Refused(Refused::TooManyRecords)),
    }
}

/// Returns the output for the edited message of a file, or for a new one, if the words after `--from` name one.
fn make_from<I: Inputs>(
    alloc: Global,
    checked_size: CheckedSize<'_>,
    terminal: bool,
    inputs: &mut I,
) -> Result<Written, Fault>
    ensures { IsMadeFrom I.gives (origin_in (map string_bytes checked_size.entry.records.now))
        (record { terminal = terminal; size_check = checked_size.entry.size_check }) inputs.old inputs.new result }
{
    let Some(origin) = origin_in(checked_size.records) else {
        return Err(Fault::Usage(UsageError::From));
    };
    let writing = Writing {
        terminal,
        size_check: checked_size.size_check,
    };
    match make_edited(alloc, origin, writing, inputs) {
        Ok(made) => Ok(made),
        Err(fault) => Err(fault.after(origin.file)),
    }
}

/// Returns the output for the message that the words request, of which the first is the program's name.
///
/// Of the inputs the file of the message that is edited is read, if `--from` names one, and then those that parts
/// name, one after another. At most one of them is standard input. To a terminal digits are written, unless a part has
/// the flag `raw`.
pub fn make<I: Inputs>(
    alloc: Global,
    words: &[String],
    terminal: bool,
    inputs: &mut I,
) -> Result<Written, Fault>
    ensures { IsMadeOfWords I.gives (map string_bytes words.now) terminal inputs.old inputs.new result }
{
    let Some(checked_size) = size_check_words(words_after(words)) else {
        return Err(Fault::Usage(UsageError::Tag));
    };
    make_from(alloc, checked_size, terminal, inputs)
}

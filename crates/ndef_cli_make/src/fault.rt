//! The reason why no message is made, and the status of a run.
ghost use Rattle.std.specs.Prelude.{◌≡◌, ◌≤◌, ◌+◌, ◌++◌, length, option_map};
ghost use Rattle.ndef_cli_make.specs.Faults.{detail_fault, encode_fault, fault_after, fault_at, fault_status, input_fault};
ghost use Rattle.ndef_cli_make.specs.Faults.{lengths_text, line_of, name_fault, record_fault, refused_line, refused_rest};
ghost use Rattle.ndef_cli_make.specs.Faults.{refused_words, text_fault};
ghost use Rattle.ndef_cli_make.specs.declared.fault.Fault.TheVariants.{Memory};

use crate::size_check::most_in;
use crate::usage_error::{UsageError, usage_at, usage_line};
use ndef_cli::{ArrayLine, Line, Status, push_refusal, text_line};
use ndef_message::InputError;
use ndef_types::{DetailError, EncodeError, TextError};
use ndef_value::{Name, NameError, NoMemory, RecordError, Refusal};
use std::alloc::{AllocError, AllocFailed};

/// A request that can't be written as a message.
#[derive(Debug, Drop, PartialEq, Eq)]
pub enum Refused {
    /// A language code of more than 63 bytes (RTD Text 1.0).
    LanguageTooLong,
    /// A language code that isn't ASCII (RTD Text 1.0).
    LanguageNotAscii,
    /// A payload of more than 4294967295 bytes (NDEF 1.0, PAYLOAD_LENGTH).
    PayloadTooLong,
    /// A type, an id and a payload that don't go with the type name format (NDEF 1.0, TNF).
    BadShape,
    /// A type or an id of more than 255 bytes (NDEF 1.0, TYPE_LENGTH and ID_LENGTH).
    PartTooLong,
    /// A payload that isn't one of its type: where and why a strict reader refuses it.
    BadPayload(Refusal),
    /// Records that are no smart poster (RTD Smart Poster 1.0).
    NoPoster,
    /// Records that are no handover (Connection Handover 1.2).
    NoHandover,
    /// Data that don't go with the reason of an error (Connection Handover 1.2, Error record).
    BadError,
    /// More than 255 auxiliary references (Connection Handover 1.2, Alternative Carrier record).
    TooManyReferences,
    /// No record of the message has the id to which a carrier refers (Connection Handover 1.2, Carrier Data
    /// Reference).
    NoRecord(Name),
    /// A message of this length is too long for a tag with the other number of bytes (Type 2 Tag, NDEF Message TLV).
    NoRoom(u64, u32),
    /// More than 65535 records.
    TooManyRecords,
    /// The message that is edited: where and why a strict reader refuses it.
    BadMessage(Refusal),
    /// Bytes after the message that is edited begin at this place.
    BytesAfter(u64),
    /// No record is left.
    NoRecords,
}

/// The reason why no message is made.
#[derive(Debug, Drop, PartialEq, Eq)]
pub enum Fault {
    /// The words are wrong.
    Usage(UsageError),
    /// The words of the record of this number, counted from 1, are wrong.
    UsageAt(u64, UsageError),
    /// The words of the edit of this number, counted from 1, are wrong.
    EditAt(u64, UsageError),
    /// The request of the words can't be written.
    Refused(Refused),
    /// The source failed.
    Reading,
    /// The input is longer than what a run reads.
    TooLong,
    /// An allocation failed.
    Memory,
}

impl Fault {
    /// The same fault, of the record of this number.
    pub(crate) fn at(self, number: u64) -> Fault
        ensures { result ≡ fault_at number self }
    {
        match self {
            Fault::Usage(usage_error) => Fault::UsageAt(number, usage_error),
            other => other,
        }
    }

    /// The same fault: of an edit, where a file is named whose message is edited.
    pub(crate) fn after(self, file: Option<&str>) -> Fault
        ensures { result ≡ fault_after (option_map (λ name. name.now) file.entry) self }
    {
        match (file, self) {
            (Some(_), Fault::UsageAt(number, usage_error)) => Fault::EditAt(number, usage_error),
            (_, other) => other,
        }
    }
}

impl From<NoMemory> for Fault {
    ghost from_gives = { λ _ fault. fault ≡ Memory };

    fn from(_: NoMemory) -> Fault {
        Fault::Memory
    }
}

impl From<AllocError> for Fault {
    ghost from_gives = { λ _ fault. fault ≡ Memory };

    fn from(_: AllocError) -> Fault {
        Fault::Memory
    }
}

/// Drops the value that wasn't stored.
impl<T: Drop> From<AllocFailed<T>> for Fault {
    ghost from_gives = { λ _ fault. fault ≡ Memory };

    fn from(_: AllocFailed<T>) -> Fault {
        Fault::Memory
    }
}

impl From<InputError> for Fault {
    ghost from_gives = { λ error fault. fault ≡ input_fault error };

    fn from(error: InputError) -> Fault {
        match error {
            InputError::ReadFault => Fault::Reading,
            InputError::TooLong => Fault::TooLong,
            InputError::NoMemory => Fault::Memory,
        }
    }
}

impl From<TextError> for Fault {
    ghost from_gives = { λ error fault. fault ≡ text_fault error };

    fn from(error: TextError) -> Fault {
        match error {
            TextError::TooLong => Fault::Refused(Refused::LanguageTooLong),
            TextError::NotAscii => Fault::Refused(Refused::LanguageNotAscii),
            TextError::NoMemory => Fault::Memory,
        }
    }
}

impl From<EncodeError> for Fault {
    ghost from_gives = { λ error fault. fault ≡ encode_fault error };

    fn from(error: EncodeError) -> Fault {
        match error {
            EncodeError::TooLong => Fault::Refused(Refused::PayloadTooLong),
            EncodeError::NoMemory => Fault::Memory,
        }
    }
}

impl From<NameError> for Fault {
    ghost from_gives = { λ error fault. fault ≡ name_fault error };

    fn from(error: NameError) -> Fault {
        match error {
            NameError::TooLong => Fault::Refused(Refused::PartTooLong),
            NameError::NoMemory => Fault::Memory,
        }
    }
}

impl From<RecordError> for Fault {
    ghost from_gives = { λ error fault. fault ≡ record_fault error };

    fn from(error: RecordError) -> Fault {
        match error {
            RecordError::BadShape => Fault::Refused(Refused::BadShape),
            RecordError::TooLong => Fault::Refused(Refused::PartTooLong),
            RecordError::NoMemory => Fault::Memory,
        }
    }
}

impl From<DetailError> for Fault {
    ghost from_gives = { λ error fault. fault ≡ detail_fault error };

    fn from(error: DetailError) -> Fault {
        match error {
            DetailError::BadShape => Fault::Refused(Refused::BadError),
            DetailError::NoMemory => Fault::Memory,
        }
    }
}

impl Refused {
    /// Returns the request in words; a place, an id or lengths follow some of them.
    fn words(&self) -> &'static [u8]
        ensures value { result.now ≡ refused_words self.now }
        ensures bound { length result.now ≤ 50 }
    {
        match self {
            Refused::LanguageTooLong => b"a language code of more than 63 bytes",
            Refused::LanguageNotAscii => b"a language code that is not ASCII",
            Refused::PayloadTooLong => b"a payload of more than 4294967295 bytes",
            Refused::BadShape => b"parts that do not go with the type name format",
            Refused::PartTooLong => b"a type or an id of more than 255 bytes",
            Refused::BadPayload(_) => b"payload at ",
            Refused::NoPoster => b"records that are no smart poster",
            Refused::NoHandover => b"records that are no handover",
            Refused::BadError => b"data that do not go with the reason of an error",
            Refused::TooManyReferences => b"more than 255 auxiliary references",
            Refused::NoRecord(_) => b"no record has the id ",
            Refused::NoRoom(_, _) => b"",
            Refused::TooManyRecords => b"more than 65535 records",
            Refused::BadMessage(_) => b"message of --from at ",
            Refused::BytesAfter(_) => b"bytes after the message of --from at ",
            Refused::NoRecords => b"no record of the message is left",
        }
    }
}

/// The length of a message that is too long for a tag, and how much it is too long.
fn lengths_text(size: u64, room: u32) -> ArrayLine<120>
    ensures { result ≡ lengths_text size room }
{
    let most = most_in(room);
    let mut line = ArrayLine::new();
    line.push(b"a message of ");
    line.push_number(size);
    line.push(b" bytes, and the tag has room for ");
    line.push_number(most);
    line.push(b": ");
    line.push_number(size.saturating_sub(most));
    line.push(b" too many");
    line
}

/// Appends what follows the words of a request that can't be written.
fn push_rest(line: &mut Line, refused: &Refused)
    requires { length line.old ≤ 65 }
    ensures text { line.new ≡ line.old ++ refused_rest refused.now }
    ensures bound { length line.new ≤ length line.old + 1022 }
{
    match refused {
        Refused::BadPayload(refusal) | Refused::BadMessage(refusal) => {
            push_refusal(line, refusal.at, refusal.reason)
        }
        Refused::BytesAfter(at) => line.push_number(*at),
        Refused::NoRecord(reference) => line.push_quoted(reference.as_slice()),
        Refused::NoRoom(size, room) => line.push(lengths_text(*size, *room).as_slice()),
        _ => {}
    }
}

/// Returns the output for a request that can't be written.
fn refused_line(refused: &Refused) -> Line
    ensures { result ≡ refused_line refused.now }
{
    let mut line = text_line(b"refused: ");
    line.push(refused.words());
    push_rest(&mut line, refused);
    line.push(b"\n");
    line
}

/// Returns the output for a fault.
pub(crate) fn line_of(fault: &Fault) -> Line
    ensures { result ≡ line_of fault.now }
{
    match fault {
        Fault::Usage(usage_error) => usage_line(*usage_error),
        Fault::UsageAt(number, usage_error) => usage_at(b"record ", *number, *usage_error),
        Fault::EditAt(number, usage_error) => usage_at(b"edit ", *number, *usage_error),
        Fault::Refused(refused) => refused_line(refused),
        Fault::Reading => text_line(b"fault: reading\n"),
        Fault::TooLong => text_line(b"fault: more than 1048576 bytes of input\n"),
        Fault::Memory => text_line(b"fault: memory\n"),
    }
}

/// The status of a fault.
pub(crate) fn fault_status(fault: &Fault) -> Status
    ensures { result ≡ fault_status fault.now }
{
    match fault {
        Fault::Usage(_) | Fault::UsageAt(_, _) | Fault::EditAt(_, _) => Status::Usage,
        Fault::Refused(_) => Status::Refused,
        Fault::Reading | Fault::TooLong | Fault::Memory => Status::Fault,
    }
}

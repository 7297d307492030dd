//! The payloads of parts: hexadecimal digits, or what inputs of a name hold.
ghost use Rattle.std.specs.Prelude.{◌≡◌, option_map};
ghost use Rattle.clap.specs.Words.{found_of, rows_of};
ghost use Rattle.ndef_message.specs.Inputs.{bytes_of};
ghost use Rattle.ndef_message.specs.States.{source_state};
ghost use Rattle.ndef_cli_make.specs.Asked.{asked_part};
ghost use Rattle.ndef_cli_make.specs.Inputs.{IsInput, ReadsFor, ReadsNamed, input_of, is_reader, is_standard_input};
ghost use Rattle.ndef_cli_make.specs.Inputs.{payload_input, payload_of};

use crate::octets::octets_in;
use crate::options::{Subject, subject_named};
use crate::parts::ParsedPart;
use crate::{Fault, UsageError};
use clap::ArgMatches;
use ndef_cli::{Inputs, option_text};
use ndef_message::{InputError, Source, read_all};
use ndef_value::Bytes;
use std::alloc::Global;

/// The most bytes of a payload that are read.
pub const MOST: usize = 1048576;

/// Reads an input to its end, at most 1048576 bytes of it. `TooLong` where there are more: that many are taken.
pub fn read_input<S: Source>(alloc: Global, source: &mut S) -> Result<Vec<u8>, InputError>
    ensures { IsInput (source_state S.Source source.old) (source_state S.Source source.new) (bytes_of result) }
{
    read_all(alloc, source, MOST)
}

/// The name of the input whose bytes are the payload, by the options that say it: standard input, unless there are
/// digits.
fn payload_input<'a>(matches: &ArgMatches<'a>) -> Option<&'a str>
    ensures { option_map (λ name. name.now) result ≡ payload_input (rows_of (found_of matches.now)) }
{
    match (
        option_text(matches, "file"),
        option_text(matches, "payload"),
    ) {
        (Some(name), _) => Some(name),
        (None, Some(_)) => None,
        (None, None) => Some("-"),
    }
}

/// The name of the input that holds the payload of a part, if one does.
fn input_of<'a>(said: &ParsedPart<'a>) -> Option<&'a str>
    ensures { option_map (λ name. name.now) result ≡ input_of (asked_part said.now) }
{
    match subject_named(said.name) {
        Some(Subject::Record) => payload_input(&said.matches),
        Some(Subject::Media) => payload_input(&said.matches),
        Some(Subject::External) => payload_input(&said.matches),
        Some(Subject::Carrier) => payload_input(&said.matches),
        Some(Subject::Poster) => option_text(&said.matches, "icon"),
        _ => None,
    }
}

/// Whether the input of this name is standard input.
pub(crate) fn is_standard_input(name: Option<&str>) -> bool
    ensures { result ≡ is_standard_input (option_map (λ name. name.now) name.entry) }
{
    match name {
        Some(name) => name == "-",
        None => false,
    }
}

/// Whether the payload of a part is standard input.
pub(crate) fn is_reader(said: &ParsedPart<'_>) -> bool
    ensures { result ≡ is_reader (asked_part said.now) }
{
    is_standard_input(input_of(said))
}

/// The payload that was read, where it isn't too long.
fn payload_of(read: Result<Vec<u8>, InputError>) -> Result<Bytes, Fault>
    ensures { result ≡ payload_of (bytes_of read) }
{
    let bytes = read?;
    if bytes.len() > MOST {
        return Err(Fault::TooLong);
    }
    Ok(Bytes::from(bytes))
}

/// Reads the input of this name.
pub(crate) fn read_named<I: Inputs>(
    alloc: Global,
    name: &str,
    inputs: &mut I,
) -> Result<Bytes, Fault>
    ensures { ReadsNamed I.gives name.now inputs.old inputs.new result }
{
    payload_of(inputs.read(alloc, name))
}

/// Returns the payload of a part: the bytes that its digits denote, or those of its input; None if it has neither.
pub(crate) fn read_for<I: Inputs>(
    alloc: Global,
    said: &ParsedPart<'_>,
    inputs: &mut I,
) -> Result<Bytes, Fault>
    ensures { ReadsFor I.gives (asked_part said.now) inputs.old inputs.new result }
{
    match (option_text(&said.matches, "payload"), input_of(said)) {
        (Some(_), Some(_)) => Err(Fault::Usage(UsageError::TwoPayloads)),
        (Some(digits), None) => octets_in(alloc, UsageError::Digits, digits),
        (None, Some(name)) => read_named(alloc, name, inputs),
        (None, None) => Ok(Bytes::new(alloc)),
    }
}

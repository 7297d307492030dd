//! The parts of the words, each of which requests a record.
ghost use Rattle.std.specs.Prelude.{◌≡◌, drop, map, string_bytes, IfOk, IfSome};
ghost use Rattle.clap.specs.Words.{HasKind, fault_of};
ghost use Rattle.ndef_cli_make.specs.Asked.{SaysPart, asked_part, has_word, parts_of};
ghost use Rattle.ndef_cli_make.specs.CommandLine.{IsMaker, make_app};
ghost use Rattle.ndef_cli_make.specs.Editing.{IsArgsFault, origin_in, part_flags};
ghost use Rattle.ndef_cli_make.specs.SizeChecks.{record_words};

use crate::editing::{Flags, edit_fault, edit_parts, origin_in};
use crate::size_check::size_check_words;
use crate::{Fault, UsageError};
use clap::error::ErrorKind;
use clap::{ArgMatches, Command, Error};
use ndef_cli::flag_given;
use std::alloc::{AllocError, Global};

/// The name of a subcommand and the options that are given with it.
#[derive(Drop)]
pub(crate) struct ParsedPart<'a> {
    pub(crate) name: &'a str,
    pub(crate) matches: ArgMatches<'a>,
}

/// The parts of the words, which `--and` separates.
pub(crate) fn parts<'a>(alloc: Global, words: &'a [String]) -> Result<Vec<&'a [String]>, AllocError>
    ensures { IfOk result (λ parts.
        map (λ part. map string_bytes part.now) parts.items ≡ parts_of (map string_bytes words.now)) }
{
    words.split(|word| word.as_str() == "--and").collect(alloc)
}

/// Whether a word is among these.
pub(crate) fn has_word(words: &[String], id: &str) -> bool
    ensures { result ≡ has_word id.now (map string_bytes words.now) }
{
    for word in words {
        if word.as_str() == id {
            return true;
        }
    }
    false
}

/// The words after the program's name.
pub(crate) fn words_after(words: &[String]) -> &[String]
    ensures { map string_bytes result.now ≡ drop 1 (map string_bytes words.now) }
{
    match words {
        [_, rest @ ..] => rest,
        [] => &[],
    }
}

/// The words of the records, after the program's name and the words before them, none if a tag isn't known.
pub(crate) fn record_words(words: &[String]) -> &[String]
    ensures { map string_bytes result.now ≡ record_words (map string_bytes words.now) }
{
    match size_check_words(words_after(words)) {
        Some(checked_size) => checked_size.records,
        None => &[],
    }
}

/// Returns the meaning of a part.
pub(crate) fn parse_part<'a>(
    command: &mut Command<'a>,
    part: &'a [String],
) -> Result<ParsedPart<'a>, Fault>
    requires { IsMaker command.old }
    ensures said { SaysPart (map string_bytes part.now) result }
    ensures maker { IsMaker command.new }
{
    match command.try_get_matches_from_mut(part) {
        Ok(mut matches) => match matches.remove_subcommand() {
            Some((name, matches)) => Ok(ParsedPart { name, matches }),
            None => Err(Fault::Usage(UsageError::Words)),
        },
        Err(error) => match error.kind() {
            ErrorKind::OutOfMemory => Err(Fault::Memory),
            _ => Err(Fault::Usage(UsageError::Words)),
        },
    }
}

/// The flags of a part.
pub(crate) fn part_flags(said: &ParsedPart<'_>) -> Flags
    ensures { result ≡ part_flags (asked_part said.now) }
{
    Flags {
        hex: flag_given(&said.matches, "hex"),
        raw: flag_given(&said.matches, "raw"),
    }
}

/// Returns clap's error for a part, if there is one.
pub(crate) fn part_fault<'a>(command: &mut Command<'a>, part: &'a [String]) -> Option<Error>
    requires { IsMaker command.old }
    ensures error { IfSome result (λ error. HasKind (fault_of make_app (map string_bytes part.now)) error) }
    ensures maker { IsMaker command.new }
{
    match command.try_get_matches_from_mut(part) {
        Ok(_) => None,
        Err(error) => Some(error),
    }
}

/// Returns clap's error for the words of a record, for standard error: it names the word, and the option that was
/// likely meant. None if clap accepts them, or if a word before them is wrong. Of the words the first is the
/// program's name.
pub fn args_fault(alloc: Global, words: &[String]) -> Option<Error>
    ensures { IfSome result (IsArgsFault (origin_in (record_words (map string_bytes words.now)))) }
{
    if size_check_words(words_after(words)).is_none() {
        return None;
    }
    let origin = origin_in(record_words(words))?;
    let parts = edit_parts(alloc, origin).ok()?;
    edit_fault(alloc, origin.file, parts.as_slice())
}

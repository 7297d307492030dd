//! The edits of a message for which parts ask: a record of it is left out or replaced, or one is added.
ghost use Rattle.std.specs.Prelude.{◌≡◌, ◌∷◌, [], drop, map, option_map, string_bytes, IfOk, IfSome, MatchOption};
ghost use Rattle.ndef_cli_make.specs.CommandLine.{IsMaker};
ghost use Rattle.ndef_cli_make.specs.Editing.{AreParsed, IsEditFault, IsRecordFault, ParsesEdit, drop_words, edit_in, edit_map};
ghost use Rattle.ndef_cli_make.specs.Editing.{edit_of, flags_among, other_words};
ghost use Rattle.ndef_cli_make.specs.Editing.{edit_named, edit_parts, names, number_of, origin_in, origin_words};
ghost use Rattle.ndef_cli_make.specs.Editing.{record_of, replace_words};

use crate::command::make_command;
use crate::options::number_in;
use crate::parts::{ParsedPart, has_word, parse_part, part_fault, parts};
use crate::{Fault, UsageError};
use clap::{Command, Error};
use std::alloc::{AllocError, Global};

/// The change that a part makes in a message, with its description of a record.
#[derive(Drop)]
pub(crate) enum Edit<X> {
    /// All records stay.
    Keeps(Flags),
    /// The record of this number, counted from 1, is left out.
    Drops(u32, Flags),
    /// A record replaces the one of this number.
    Replaces(u32, X),
    /// A record is added.
    Adds(X),
}

/// The flags for how the bytes are written.
#[derive(Clone, Copy)]
pub(crate) struct Flags {
    /// The bytes are written as hexadecimal digits.
    pub(crate) hex: bool,
    /// The bytes are written as they are.
    pub(crate) raw: bool,
}

/// The word with which a part begins that isn't a record alone.
#[derive(Clone, Copy)]
pub(crate) enum EditWord {
    /// A record is left out.
    Drop,
    /// A record is replaced.
    Replace,
}

/// The file of the message that is edited, where one is named, and the words of the parts.
#[derive(Clone, Copy)]
pub(crate) struct Origin<'a> {
    pub(crate) file: Option<&'a str>,
    pub(crate) parts: &'a [String],
}

/// The file of the message that is edited, if one is named; None if `--from` has no name.
pub(crate) fn origin_in(words: &[String]) -> Option<Origin<'_>>
    ensures { option_map origin_words result ≡ origin_in (map string_bytes words.now) }
{
    match words {
        [word, rest @ ..] if word.as_str() == "--from" => match rest {
            [name, parts @ ..] => Some(Origin {
                file: Some(name.as_str()),
                parts,
            }),
            [] => None,
        },
        _ => Some(Origin {
            file: None,
            parts: words,
        }),
    }
}

/// The word of this name before a record.
fn edit_named(name: &str) -> Option<EditWord>
    ensures { result ≡ edit_named name.now }
{
    match name {
        "--drop" => Some(EditWord::Drop),
        "--replace" => Some(EditWord::Replace),
        _ => None,
    }
}

/// The first word that is no flag, and the words after it.
fn next_other(words: &[String]) -> Option<(&str, &[String])>
    ensures { MatchOption result (other_words (map string_bytes words.now) ≡ [])
        (λ other. other_words (map string_bytes words.now) ≡ other.0.now ∷ other_words (map string_bytes other.1.now)) }
{
    let mut rest = words;
    while let [word, others @ ..] = rest {
        if word.as_str() != "--hex" && word.as_str() != "--raw" {
            return Some((word.as_str(), others));
        }
        rest = others;
    }
    None
}

/// The flags among words.
fn flags_among(words: &[String]) -> Flags
    ensures { result ≡ flags_among (map string_bytes words.now) }
{
    Flags {
        hex: has_word(words, "--hex"),
        raw: has_word(words, "--raw"),
    }
}

/// The words after `--drop`: the number of the record that is left out, and flags.
fn drop_words(flags: Flags, words: &[String]) -> Option<Edit<&[String]>>
    ensures { option_map (edit_map (λ words. map string_bytes words.now)) result
        ≡ drop_words flags (other_words (map string_bytes words.now)) }
{
    let (number, rest) = next_other(words)?;
    match next_other(rest) {
        Some(_) => None,
        None => Some(Edit::Drops(number_in(number)?, flags)),
    }
}

/// The words after `--replace`: the number of the record that is replaced, and the record.
fn replace_words(words: &[String]) -> Option<Edit<&[String]>>
    ensures { option_map (edit_map (λ words. map string_bytes words.now)) result
        ≡ replace_words (map string_bytes words.now) }
{
    match words {
        [number, record @ ..] => Some(Edit::Replaces(number_in(number.as_str())?, record)),
        [] => None,
    }
}

/// Returns the edit that a part of some words requests, with the words of its record.
fn edit_of<'a>(part: &'a [String], rest: &'a [String]) -> Option<Edit<&'a [String]>>
    requires { rest.now ≡ drop 1 part.now }
    ensures { option_map (edit_map (λ words. map string_bytes words.now)) result
        ≡ edit_of (map string_bytes part.now) (other_words (map string_bytes part.now)) }
{
    let Some((word, others)) = next_other(part) else {
        return Some(Edit::Keeps(flags_among(part)));
    };
    match edit_named(word) {
        Some(EditWord::Drop) => drop_words(flags_among(part), others),
        Some(EditWord::Replace) => replace_words(rest),
        None => Some(Edit::Adds(part)),
    }
}

/// Returns the edit that a part requests, with the words of its record. If no file is named, each part adds one.
pub(crate) fn edit_in<'a>(file: Option<&str>, part: &'a [String]) -> Option<Edit<&'a [String]>>
    ensures { option_map (edit_map (λ words. map string_bytes words.now)) result
        ≡ edit_in (option_map (λ name. name.now) file.entry) (map string_bytes part.now) }
{
    match (file, part) {
        (Some(_), [_, rest @ ..]) => edit_of(part, rest),
        (_, _) => Some(Edit::Adds(part)),
    }
}

/// Returns the edit that a part requests.
fn parse_edit<'a>(
    command: &mut Command<'a>,
    file: Option<&str>,
    part: &'a [String],
) -> Result<Edit<ParsedPart<'a>>, Fault>
    requires { IsMaker command.old }
    ensures edit { ParsesEdit (option_map (λ name. name.now) file.entry) (map string_bytes part.now) result }
    ensures maker { IsMaker command.new }
{
    match edit_in(file, part) {
        None => Err(Fault::Usage(UsageError::Edit)),
        Some(Edit::Keeps(flags)) => Ok(Edit::Keeps(flags)),
        Some(Edit::Drops(number, flags)) => Ok(Edit::Drops(number, flags)),
        Some(Edit::Replaces(number, record)) => Ok(Edit::Replaces(
            number,
            parse_part(command, record)?,
        )),
        Some(Edit::Adds(record)) => Ok(Edit::Adds(parse_part(command, record)?)),
    }
}

/// The edits for which the parts ask.
pub(crate) fn parse_edits<'a>(
    alloc: Global,
    file: Option<&str>,
    parts: &[&'a [String]],
) -> Result<Vec<Edit<ParsedPart<'a>>>, Fault>
    ensures { AreParsed (option_map (λ name. name.now) file.entry)
        (map (λ part. map string_bytes part.now) parts.now) result }
{
    let mut command = make_command(alloc)?;
    let mut edits = Vec::new(alloc);
    for part in parts {
        match parse_edit(&mut command, file, *part) {
            Ok(edit) => edits.push(edit)?,
            Err(fault) => return Err(fault.at(edits.len() as u64 + 1)),
        }
    }
    Ok(edits)
}

/// The parts, which `--and` separates, none if a file is named and no word comes after it.
pub(crate) fn edit_parts<'a>(
    alloc: Global,
    origin: Origin<'a>,
) -> Result<Vec<&'a [String]>, AllocError>
    ensures { IfOk result (λ parts.
        map (λ part. map string_bytes part.now) parts.items ≡ edit_parts (origin_words origin.entry)) }
{
    match (origin.file, origin.parts) {
        (Some(_), []) => Ok(Vec::new(alloc)),
        (_, words) => parts(alloc, words),
    }
}

impl<X> Edit<X> {
    /// The number of the record that is left out or replaced.
    pub(crate) fn number(&self) -> Option<u32>
        ensures { result ≡ number_of self.now }
    {
        match self {
            Edit::Drops(number, _) => Some(*number),
            Edit::Replaces(number, _) => Some(*number),
            Edit::Keeps(_) | Edit::Adds(_) => None,
        }
    }

    /// Whether it leaves out or replaces the record of this number.
    pub(crate) fn names(&self, number: u32) -> bool
        ensures { result ≡ names number self.now }
    {
        match self.number() {
            Some(other) => other == number,
            None => false,
        }
    }

    /// Its record, moved out.
    pub(crate) fn into_record(self) -> Option<X>
        ensures { result ≡ record_of self }
    {
        match self {
            Edit::Keeps(_) | Edit::Drops(_, _) => None,
            Edit::Replaces(_, record) => Some(record),
            Edit::Adds(record) => Some(record),
        }
    }

    /// Its record.
    pub(crate) fn record(&self) -> Option<&X>
        ensures { option_map (λ content. content.now) result ≡ record_of self.now }
    {
        match self {
            Edit::Keeps(_) | Edit::Drops(_, _) => None,
            Edit::Replaces(_, record) => Some(record),
            Edit::Adds(record) => Some(record),
        }
    }
}

/// Returns clap's error for the record of an edit, if there is one.
fn record_fault<'a>(command: &mut Command<'a>, edit: Edit<&'a [String]>) -> Option<Error>
    requires { IsMaker command.old }
    ensures error { IfSome result (IsRecordFault (edit_map (λ words. map string_bytes words.now) edit.entry)) }
    ensures maker { IsMaker command.new }
{
    match edit {
        Edit::Keeps(_) | Edit::Drops(_, _) => None,
        Edit::Replaces(_, words) => part_fault(command, words),
        Edit::Adds(words) => part_fault(command, words),
    }
}

/// Returns clap's error for the record of one of these parts, if there is one, and the words of no part before it
/// are wrong.
pub(crate) fn edit_fault<'a>(
    alloc: Global,
    file: Option<&str>,
    parts: &[&'a [String]],
) -> Option<Error>
    ensures { IfSome result (IsEditFault (option_map (λ name. name.now) file.entry)
        (map (λ part. map string_bytes part.now) parts.now)) }
{
    let mut command = make_command(alloc).ok()?;
    for part in parts {
        let edit = edit_in(file, *part)?;
        if let Some(error) = record_fault(&mut command, edit) {
            return Some(error);
        }
    }
    None
}

//! The request that the words make.
ghost use Rattle.std.specs.Prelude.{◌≡◌, map, string_bytes, IfOk, IfSome};
ghost use Rattle.clap.specs.Words.{HasKind, fault_of, found_of, rows_of};
ghost use Rattle.ndef_cli_explain.specs.Chosen.{IsAskedOutcome, Asks, asked_in, choice_in, chosen_color, chosen_wanted};
ghost use Rattle.ndef_cli_explain.specs.Chosen.{color_named, files_in};
ghost use Rattle.ndef_cli_explain.specs.CommandLine.{explain_app};

use crate::command::explain_command;
use crate::style::Shown;
use clap::error::ErrorKind;
use clap::{ArgMatches, Error};
use ndef_cli::{ArgsError, flag_given, hex_given, limits_given, number_given, option_text};
use ndef_value::{Limits, NoMemory};
use std::alloc::{AllocError, Global};

/// When output is in colour.
#[derive(Clone, Copy)]
pub(crate) enum Color {
    /// In colour if the output goes to a terminal that takes colours.
    Auto,
    Always,
    Never,
}

/// What is written of an input.
#[derive(Clone, Copy)]
pub(crate) enum Wanted {
    /// Its bytes with their fields.
    Explanation,
    /// Its bytes as they are.
    Octets,
    /// The payload of the record of this number as it is, from 1 over all its messages.
    Payload(u32),
}

/// The choices that the options make.
#[derive(Clone, Copy)]
pub(crate) struct ExplainChoice {
    /// Input is hexadecimal text.
    pub(crate) hex: bool,
    pub(crate) color: Color,
    /// Output is in JSON.
    pub(crate) json: bool,
    pub(crate) shown: Shown,
    pub(crate) wanted: Wanted,
    pub(crate) limits: Limits,
}

/// The request of the words.
#[derive(Drop)]
pub(crate) struct Asked<'a> {
    pub(crate) choice: ExplainChoice,
    /// The names of the inputs that are given.
    pub(crate) files: Vec<&'a str>,
}

/// When output is in colour, by this name.
fn color_named(name: &str) -> Option<Color>
    ensures { result ≡ color_named name.now }
{
    match name {
        "auto" => Some(Color::Auto),
        "always" => Some(Color::Always),
        "never" => Some(Color::Never),
        _ => None,
    }
}

/// Returns the value of `--color`; `auto` if it isn't given.
fn color_given(matches: &ArgMatches<'_>) -> Option<Color>
    ensures { result ≡ chosen_color (rows_of (found_of matches.now)) }
{
    match option_text(matches, "color") {
        Some(name) => color_named(name),
        None => Some(Color::Auto),
    }
}

/// Returns what is written of an input; None if a record is named without `--raw`, or by no number.
fn wanted_given(matches: &ArgMatches<'_>) -> Option<Wanted>
    ensures { result ≡ chosen_wanted (rows_of (found_of matches.now)) }
{
    let raw = flag_given(matches, "raw");
    match option_text(matches, "record") {
        None if raw => Some(Wanted::Octets),
        None => Some(Wanted::Explanation),
        Some(_) if raw => Some(Wanted::Payload(number_given(matches, "record", u32::MAX)?)),
        Some(_) => None,
    }
}

/// Returns the choices that the options make.
fn choice_given(matches: &ArgMatches<'_>) -> Option<ExplainChoice>
    ensures { result ≡ choice_in (rows_of (found_of matches.now)) }
{
    let limits = limits_given(matches)?;
    let color = color_given(matches)?;
    let wanted = wanted_given(matches)?;
    Some(ExplainChoice {
        hex: hex_given(matches),
        color,
        json: flag_given(matches, "json"),
        shown: Shown {
            utf8: flag_given(matches, "utf8"),
            characters: flag_given(matches, "characters"),
        },
        wanted,
        limits,
    })
}

/// A list of words.
fn list_of<'a>(alloc: Global, words: &[&'a str]) -> Result<Vec<&'a str>, AllocError>
    ensures { IfOk result (λ list. list.items ≡ words.now) }
{
    words.iter().copied().collect(alloc)
}

/// The names of the inputs that are given.
fn files_given<'a>(alloc: Global, matches: &ArgMatches<'a>) -> Result<Vec<&'a str>, AllocError>
    ensures { IfOk result (λ files.
        map (λ file. file.now) files.items ≡ files_in (rows_of (found_of matches.now))) }
{
    match matches.get_raw("file") {
        Some(names) => list_of(alloc, names),
        None => Ok(Vec::new(alloc)),
    }
}

/// Returns the request of the matches of clap.
fn said<'a>(alloc: Global, matches: &ArgMatches<'a>) -> Result<Asked<'a>, ArgsError>
    ensures { IsAskedOutcome (asked_in (rows_of (found_of matches.now))) result }
{
    let Some(choice) = choice_given(matches) else {
        return Err(ArgsError::Usage);
    };
    match files_given(alloc, matches) {
        Ok(files) => Ok(Asked { choice, files }),
        Err(_) => Err(ArgsError::NoMemory),
    }
}

/// Returns the request of the words, of which the first is the program's name.
pub(crate) fn ask<'a>(alloc: Global, words: &'a [String]) -> Result<Asked<'a>, ArgsError>
    ensures { Asks (map string_bytes words.now) result }
{
    let Ok(command) = explain_command(alloc) else {
        return Err(ArgsError::NoMemory);
    };
    match command.try_get_matches_from(words) {
        Ok(matches) => said(alloc, &matches),
        Err(error) => match error.kind() {
            ErrorKind::OutOfMemory => Err(ArgsError::NoMemory),
            _ => Err(ArgsError::Usage),
        },
    }
}

/// Returns clap's error for the words, for standard error: it names the word, and the option that was likely meant.
/// None if clap accepts them. Of the words the first is the program's name.
pub fn args_fault(alloc: Global, words: &[String]) -> Option<Error>
    ensures { IfSome result (λ error. HasKind (fault_of explain_app (map string_bytes words.now)) error) }
{
    let Ok(command) = explain_command(alloc) else {
        return None;
    };
    match command.try_get_matches_from(words) {
        Ok(_) => None,
        Err(error) => Some(error),
    }
}

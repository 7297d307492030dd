//! The choices that the words make.
ghost use Rattle.std.specs.Prelude.{◌≡◌, map, string_bytes, IfOk, IfSome};
ghost use Rattle.clap.specs.Words.{HasKind, fault_of, found_of, rows_of, subcommand_rows_of};
ghost use Rattle.ndef_tool.specs.Chosen.{Chooses, HasSize, HasSizeIfAny, chosen_action, subcommand_choice, chosen_of, chunk_of};
ghost use Rattle.ndef_tool.specs.Chosen.{form_named, chosen_form};
ghost use Rattle.ndef_tool.specs.CommandLine.{ndef_app};

use crate::command::ndef_command;
use clap::error::ErrorKind;
use clap::{ArgMatches, Error};
use ndef_cli::{ArgsError, hex_given, limits_given, number_given, option_text};
use ndef_message::Form;
use ndef_value::Limits;
use std::alloc::Global;

/// The action on each message.
#[derive(Clone, Copy, Debug, PartialEq, Eq)]
pub enum Action {
    /// A line is printed, and a line of each record and each link.
    Show,
    /// A line is printed.
    Check,
    /// It is written again, in a form, and in chunks where their size is given.
    Encode(Form, Option<u32>),
}

/// The choices of the words.
#[derive(Clone, Copy, Debug)]
pub struct Choice {
    pub action: Action,
    /// Input is hexadecimal text, and so is what is written again.
    pub hex: bool,
    pub limits: Limits,
}

/// The size of `--chunk`, or none where it is not given.
fn chunk(matches: &ArgMatches<'_>) -> Option<Option<u32>>
    ensures value { result ≡ chunk_of (rows_of (found_of matches.now)) }
    ensures some { IfSome result HasSizeIfAny }
{
    match option_text(matches, "chunk") {
        Some(_) => Some(Some(number_given(matches, "chunk", 4294967295)?)),
        None => Some(None),
    }
}

/// The form of this name.
fn form_named(name: &str) -> Option<Form>
    ensures { result ≡ form_named name.now }
{
    match name {
        "short" => Some(Form::Short),
        "long" => Some(Form::Long),
        _ => None,
    }
}

/// The form of `--form`, or the short one where it is not given.
fn form_given(matches: &ArgMatches<'_>) -> Option<Form>
    ensures { result ≡ chosen_form (rows_of (found_of matches.now)) }
{
    match option_text(matches, "form") {
        Some(name) => form_named(name),
        None => Some(Form::Short),
    }
}

/// Returns the action of the subcommand of this name.
fn action_given(name: &str, matches: &ArgMatches<'_>) -> Option<Action>
    ensures value { result ≡ chosen_action name.now (rows_of (found_of matches.now)) }
    ensures some { IfSome result HasSize }
{
    match name {
        "show" => Some(Action::Show),
        "check" => Some(Action::Check),
        "encode" => {
            let form = form_given(matches)?;
            Some(Action::Encode(form, chunk(matches)?))
        }
        _ => None,
    }
}

/// Returns the choices of the subcommand of this name and its options.
fn choice_given(name: &str, matches: &ArgMatches<'_>) -> Option<Choice>
    ensures value { result ≡ subcommand_choice name.now (rows_of (found_of matches.now)) }
    ensures some { IfSome result (λ choice. HasSize choice.action) }
{
    let action = action_given(name, matches)?;
    let limits = limits_given(matches)?;
    Some(Choice {
        action,
        hex: hex_given(matches),
        limits,
    })
}

/// Returns the choices of clap's matches.
fn chosen(matches: &ArgMatches<'_>) -> Option<Choice>
    ensures value { result ≡ chosen_of (subcommand_rows_of matches.now) }
    ensures some { IfSome result (λ choice. HasSize choice.action) }
{
    let (name, matches) = matches.subcommand()?;
    choice_given(name, matches)
}

/// Returns the choices of the words, of which the first is the program's name.
pub fn choose(alloc: Global, words: &[String]) -> Result<Choice, ArgsError>
    ensures chosen { Chooses (map string_bytes words.now) result }
    ensures some { IfOk result (λ choice. HasSize choice.action) }
{
    let Ok(command) = ndef_command(alloc) else {
        return Err(ArgsError::NoMemory);
    };
    match command.try_get_matches_from(words) {
        Ok(matches) => match chosen(&matches) {
            Some(choice) => Ok(choice),
            None => Err(ArgsError::Usage),
        },
        Err(error) => match error.kind() {
            ErrorKind::OutOfMemory => Err(ArgsError::NoMemory),
            _ => Err(ArgsError::Usage),
        },
    }
}

/// Returns clap's error for the words, for standard error: it names the word, and the option that was likely meant.
/// None if clap accepts them. Of the words the first is the program's name.
pub fn args_fault(alloc: Global, words: &[String]) -> Option<Error>
    ensures { IfSome result (λ error. HasKind (fault_of ndef_app (map string_bytes words.now)) error) }
{
    let Ok(command) = ndef_command(alloc) else {
        return None;
    };
    match command.try_get_matches_from(words) {
        Ok(_) => None,
        Err(error) => Some(error),
    }
}

//! The command line, as `clap` reads it.
ghost use Rattle.std.specs.Prelude.{◌≡◌, false};
ghost use Rattle.clap.specs.Words.{rule_of};
ghost use Rattle.ndef_cli_explain.specs.CommandLine.{explain_app, options_app, shown_app, words_rule};
ghost use Rattle.ndef_cli.specs.CommandLine.{IsCommand};

use clap::{Arg, ArgAction, Command};
use ndef_cli::{add_arg, flag, reading_command, wide_option, word_option};
use std::alloc::{AllocError, Global};

/// Words without an option, of which there may be any number.
fn words<'a>(alloc: Global, name: &'a str) -> Arg<'a>
    ensures rule { rule_of result ≡ words_rule name.entry.now }
    ensures local { result.global ≡ false }
{
    Arg::new(alloc, name).action(ArgAction::Append)
}

/// The command with the options for reading, and for how output is shown.
fn shown_command<'a>(alloc: Global) -> Result<Command<'a>, AllocError>
    ensures { IsCommand shown_app result }
{
    let command = reading_command(alloc, "ndef-explain");
    let command = add_arg(command, word_option(alloc, "color"));
    let command = add_arg(command, flag(alloc, "json"));
    let command = add_arg(command, flag(alloc, "utf8"));
    add_arg(command, flag(alloc, "characters"))
}

/// The command with its options, and clap's own.
fn options_command<'a>(alloc: Global) -> Result<Command<'a>, AllocError>
    ensures { IsCommand options_app result }
{
    let command = add_arg(shown_command(alloc), flag(alloc, "raw"));
    let command = add_arg(command, wide_option(alloc, "record"));
    add_arg(command, words(alloc, "file"))
}

/// The options of the program, and the names of its inputs.
pub(crate) fn explain_command<'a>(alloc: Global) -> Result<Command<'a>, AllocError>
    ensures { IsCommand explain_app result }
{
    Ok(options_command(alloc)?.disable_help_flag(true))
}

//! The command line, as `clap` reads it.
ghost use Rattle.std.specs.Prelude.{◌≡◌, false};
ghost use Rattle.clap.specs.Words.{app_of};
ghost use Rattle.clap.specs.declared.builder.command.Command.TheViews.{out-Command as fields_of};
ghost use Rattle.ndef_cli.specs.CommandLine.{IsCommand};
ghost use Rattle.ndef_tool.specs.CommandLine.{encode_app, empty_ndef_app, ndef_app};

use clap::Command;
use ndef_cli::{add_arg, add_subcommand, reading_command, wide_option, word_option};
use std::alloc::{AllocError, Global};

/// The subcommand `encode`.
fn encode_command<'a>(alloc: Global) -> Result<Command<'a>, AllocError>
    ensures { IsCommand encode_app result }
{
    let command = reading_command(alloc, "encode");
    let command = add_arg(command, word_option(alloc, "form"));
    add_arg(command, wide_option(alloc, "chunk"))
}

/// No flag and no subcommand for help: words that ask for it print the usage line.
fn empty_command<'a>(alloc: Global) -> Command<'a>
    ensures app { app_of result ≡ empty_ndef_app }
    ensures local { (fields_of result).has_globals ≡ false }
{
    Command::new(alloc, "ndef")
        .subcommand_required(true)
        .disable_help_flag(true)
        .disable_help_subcommand(true)
}

/// The subcommands and their options.
pub fn ndef_command<'a>(alloc: Global) -> Result<Command<'a>, AllocError>
    ensures { IsCommand ndef_app result }
{
    let command = add_subcommand(Ok(empty_command(alloc)), reading_command(alloc, "show"));
    let command = add_subcommand(command, reading_command(alloc, "check"));
    add_subcommand(command, encode_command(alloc))
}

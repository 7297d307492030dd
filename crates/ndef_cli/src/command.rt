//! Steps of a command line, as `clap` reads it.
ghost use Rattle.std.specs.Prelude.{◌≡◌, false};
ghost use Rattle.clap.specs.Words.{App, rule_of, with_rule, with_subcommand};
ghost use Rattle.ndef_cli.specs.CommandLine.{IsCommand, flag_rule, hex_app, word_rule};

use clap::{Arg, ArgAction, Command};
use std::alloc::{AllocError, Global};

/// A flag.
pub fn flag<'a>(alloc: Global, name: &'a str) -> Arg<'a>
    ensures rule { rule_of result ≡ flag_rule name.entry.now }
    ensures local { result.global ≡ false }
{
    Arg::new(alloc, name).long(name).action(ArgAction::SetTrue)
}

/// An option for a word.
pub fn word_option<'a>(alloc: Global, name: &'a str) -> Arg<'a>
    ensures rule { rule_of result ≡ word_rule name.entry.now }
    ensures local { result.global ≡ false }
{
    Arg::new(alloc, name).long(name)
}

/// The command with one option more.
pub fn add_arg<'a>(
    command: Result<Command<'a>, AllocError>,
    option: Arg<'a>,
) -> Result<Command<'a>, AllocError>
    requires { option.global ≡ false }
    ensures { (app : App) → IsCommand app command.entry → IsCommand (with_rule app (rule_of option.entry)) result }
{
    command?.arg(option)
}

/// The command with one subcommand more.
pub fn add_subcommand<'a>(
    command: Result<Command<'a>, AllocError>,
    subcommand: Result<Command<'a>, AllocError>,
) -> Result<Command<'a>, AllocError>
    ensures { (app inner : App) → IsCommand app command.entry → IsCommand inner subcommand.entry
        → IsCommand (with_subcommand app inner.top) result }
{
    command?.subcommand(subcommand?)
}

/// A subcommand with the flag for hexadecimal text.
pub fn hex_command<'a>(alloc: Global, name: &'a str) -> Result<Command<'a>, AllocError>
    ensures { IsCommand (hex_app name.entry.now) result }
{
    Command::new(alloc, name).arg(flag(alloc, "hex"))
}

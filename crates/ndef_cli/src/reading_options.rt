//! A command that reads messages, as `clap` reads its words.
ghost use Rattle.std.specs.Prelude.{◌≡◌, IfOk, false};
ghost use Rattle.clap.specs.Words.{rule_of};
ghost use Rattle.ndef_cli.specs.CommandLine.{IsCommand, limits_app, number_rule, pieces_rule, reading_app};

use crate::{add_arg, hex_command, word_option};
use clap::{Arg, Command, value_parser};
use std::alloc::{AllocError, Global};

/// An option for a number from 1 to 4294967295.
pub fn wide_option<'a>(alloc: Global, name: &'a str) -> Arg<'a>
    ensures rule { rule_of result ≡ number_rule 4294967295 name.entry.now }
    ensures local { result.global ≡ false }
{
    Arg::new(alloc, name)
        .long(name)
        .value_parser(value_parser!(u32).range(1..))
}

/// An option for a number from 1 to 65535.
fn small_option<'a>(alloc: Global, name: &'a str) -> Arg<'a>
    ensures rule { rule_of result ≡ number_rule 65535 name.entry.now }
    ensures local { result.global ≡ false }
{
    Arg::new(alloc, name)
        .long(name)
        .value_parser(value_parser!(u32).range(1..=65535))
}

/// The option for the most chunks of a record, by either of its names.
fn pieces_option<'a>(alloc: Global) -> Result<Arg<'a>, AllocError>
    ensures { IfOk result (λ option. (rule_of option ≡ pieces_rule) × (option.global ≡ false)) }
{
    small_option(alloc, "pieces").alias("chunks")
}

/// A subcommand with the flag for hexadecimal text and the limits.
fn limits_command<'a>(alloc: Global, name: &'a str) -> Result<Command<'a>, AllocError>
    ensures { IsCommand (limits_app name.entry.now) result }
{
    let command = hex_command(alloc, name);
    let command = add_arg(command, wide_option(alloc, "payload"));
    let command = add_arg(command, small_option(alloc, "records"));
    add_arg(command, pieces_option(alloc)?)
}

/// A subcommand, or a command, with all that reading takes.
pub fn reading_command<'a>(alloc: Global, name: &'a str) -> Result<Command<'a>, AllocError>
    ensures { IsCommand (reading_app name.entry.now) result }
{
    add_arg(limits_command(alloc, name), word_option(alloc, "profile"))
}

//! The command line of a part, as `clap` reads it.
ghost use Rattle.std.specs.Prelude.{◌≡◌, false};
ghost use Rattle.clap.specs.Words.{app_of, rule_of};
ghost use Rattle.clap.specs.declared.builder.command.Command.TheViews.{out-Command as fields_of};
ghost use Rattle.ndef_cli_make.specs.CommandLine.{app_app, asked_rule, carrier_app, described_app, empty_make_app};
ghost use Rattle.ndef_cli_make.specs.CommandLine.{external_app, given_rule, handover_app, linked_app, make_app, media_app, part_app};
ghost use Rattle.ndef_cli_make.specs.CommandLine.{payload_app, plain_make_app, poster_app, record_app, repeated_rule};
ghost use Rattle.ndef_cli_make.specs.CommandLine.{text_app, titled_app, uri_app};
ghost use Rattle.ndef_cli.specs.CommandLine.{IsCommand};

use clap::{Arg, ArgAction, Command};
use ndef_cli::{add_arg, add_subcommand, flag, hex_command, word_option};
use std::alloc::{AllocError, Global};

/// An option for a word, which has to be given.
fn asked_option<'a>(alloc: Global, name: &'a str) -> Arg<'a>
    ensures rule { rule_of result ≡ asked_rule name.entry.now }
    ensures local { result.global ≡ false }
{
    Arg::new(alloc, name).long(name).required(true)
}

/// A word that has to be given, without an option.
fn given_word<'a>(alloc: Global, name: &'a str) -> Arg<'a>
    ensures rule { rule_of result ≡ given_rule name.entry.now }
    ensures local { result.global ≡ false }
{
    Arg::new(alloc, name).required(true)
}

/// An option for a word, which may be given again and again.
fn repeated_option<'a>(alloc: Global, name: &'a str) -> Arg<'a>
    ensures rule { rule_of result ≡ repeated_rule name.entry.now }
    ensures local { result.global ≡ false }
{
    Arg::new(alloc, name).long(name).action(ArgAction::Append)
}

/// A subcommand with the options of each: how the bytes are written, the id, and whether the record is checked.
fn part_command<'a>(alloc: Global, name: &'a str) -> Result<Command<'a>, AllocError>
    ensures { IsCommand (part_app name.entry.now) result }
{
    let command = add_arg(hex_command(alloc, name), flag(alloc, "raw"));
    let command = add_arg(command, word_option(alloc, "id"));
    add_arg(command, flag(alloc, "unchecked"))
}

/// A subcommand with the options that say where its payload comes from.
fn payload_command<'a>(alloc: Global, name: &'a str) -> Result<Command<'a>, AllocError>
    ensures { IsCommand (payload_app name.entry.now) result }
{
    let command = add_arg(part_command(alloc, name), word_option(alloc, "file"));
    add_arg(command, word_option(alloc, "payload"))
}

/// The subcommand `text`.
fn text_command<'a>(alloc: Global) -> Result<Command<'a>, AllocError>
    ensures { IsCommand text_app result }
{
    let command = part_command(alloc, "text");
    let command = add_arg(command, word_option(alloc, "language"));
    let command = add_arg(command, flag(alloc, "utf16"));
    add_arg(command, given_word(alloc, "text"))
}

/// The subcommand `uri`.
fn uri_command<'a>(alloc: Global) -> Result<Command<'a>, AllocError>
    ensures { IsCommand uri_app result }
{
    add_arg(part_command(alloc, "uri"), given_word(alloc, "uri"))
}

/// The subcommand `poster`, with its URI and titles.
fn titled_command<'a>(alloc: Global) -> Result<Command<'a>, AllocError>
    ensures { IsCommand titled_app result }
{
    let command = part_command(alloc, "poster");
    let command = add_arg(command, given_word(alloc, "uri"));
    add_arg(command, repeated_option(alloc, "title"))
}

/// The subcommand `poster`, but for its icon.
fn described_command<'a>(alloc: Global) -> Result<Command<'a>, AllocError>
    ensures { IsCommand described_app result }
{
    let command = titled_command(alloc);
    let command = add_arg(command, word_option(alloc, "action"));
    let command = add_arg(command, word_option(alloc, "size"));
    add_arg(command, word_option(alloc, "media"))
}

/// The subcommand `poster`.
fn poster_command<'a>(alloc: Global) -> Result<Command<'a>, AllocError>
    ensures { IsCommand poster_app result }
{
    let command = add_arg(described_command(alloc), word_option(alloc, "icon"));
    add_arg(command, word_option(alloc, "icon-type"))
}

/// The subcommand `handover`, but for its error.
fn linked_command<'a>(alloc: Global) -> Result<Command<'a>, AllocError>
    ensures { IsCommand linked_app result }
{
    let command = part_command(alloc, "handover");
    let command = add_arg(command, given_word(alloc, "kind"));
    let command = add_arg(command, word_option(alloc, "version"));
    let command = add_arg(command, word_option(alloc, "collision"));
    add_arg(command, repeated_option(alloc, "carrier"))
}

/// The subcommand `handover`.
fn handover_command<'a>(alloc: Global) -> Result<Command<'a>, AllocError>
    ensures { IsCommand handover_app result }
{
    add_arg(linked_command(alloc), word_option(alloc, "error"))
}

/// The subcommand `record`.
fn record_command<'a>(alloc: Global) -> Result<Command<'a>, AllocError>
    ensures { IsCommand record_app result }
{
    let command = payload_command(alloc, "record");
    let command = add_arg(command, asked_option(alloc, "tnf"));
    add_arg(command, word_option(alloc, "type"))
}

/// The subcommand `media`.
fn media_command<'a>(alloc: Global) -> Result<Command<'a>, AllocError>
    ensures { IsCommand media_app result }
{
    add_arg(payload_command(alloc, "media"), given_word(alloc, "type"))
}

/// The subcommand `external`.
fn external_command<'a>(alloc: Global) -> Result<Command<'a>, AllocError>
    ensures { IsCommand external_app result }
{
    add_arg(
        payload_command(alloc, "external"),
        given_word(alloc, "type"),
    )
}

/// The subcommand `app`.
fn app_command<'a>(alloc: Global) -> Result<Command<'a>, AllocError>
    ensures { IsCommand app_app result }
{
    add_arg(part_command(alloc, "app"), given_word(alloc, "package"))
}

/// The subcommand `carrier`.
fn carrier_command<'a>(alloc: Global) -> Result<Command<'a>, AllocError>
    ensures { IsCommand carrier_app result }
{
    let command = payload_command(alloc, "carrier");
    let command = add_arg(command, asked_option(alloc, "format"));
    add_arg(command, asked_option(alloc, "type"))
}

/// No flag and no subcommand for help: words that ask for it print the usage line.
fn empty_command<'a>(alloc: Global) -> Command<'a>
    ensures app { app_of result ≡ empty_make_app }
    ensures local { (fields_of result).has_globals ≡ false }
{
    Command::new(alloc, "ndef-make")
        .no_binary_name(true)
        .subcommand_required(true)
        .disable_help_flag(true)
        .disable_help_subcommand(true)
}

/// The subcommands whose record isn't made of a payload, and their options.
fn plain_make_command<'a>(alloc: Global) -> Result<Command<'a>, AllocError>
    ensures { IsCommand plain_make_app result }
{
    let command = add_subcommand(Ok(empty_command(alloc)), text_command(alloc));
    let command = add_subcommand(command, uri_command(alloc));
    let command = add_subcommand(command, poster_command(alloc));
    let command = add_subcommand(command, handover_command(alloc));
    add_subcommand(command, app_command(alloc))
}

/// The subcommands and their options.
pub(crate) fn make_command<'a>(alloc: Global) -> Result<Command<'a>, AllocError>
    ensures { IsCommand make_app result }
{
    let command = add_subcommand(plain_make_command(alloc), record_command(alloc));
    let command = add_subcommand(command, media_command(alloc));
    let command = add_subcommand(command, external_command(alloc));
    add_subcommand(command, carrier_command(alloc))
}

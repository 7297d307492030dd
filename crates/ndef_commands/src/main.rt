//! The commands `ndef`, `ndef-make` and `ndef-explain` in one program, which runs the command of its own name.
#![tactic(auto)]

use ndef_cli::{Status, exit_code, read_args};
use ndef_value::Bytes;
use std::process::ExitCode;

/// A command.
enum Command {
    Ndef,
    Make,
    Explain,
}

/// The command with whose name a word ends.
fn command_of(word: &Bytes) -> Option<Command> {
    let word = word.as_slice();
    if word.ends_with(b"ndef-make") {
        Some(Command::Make)
    } else if word.ends_with(b"ndef-explain") {
        Some(Command::Explain)
    } else if word.ends_with(b"ndef") {
        Some(Command::Ndef)
    } else {
        None
    }
}

/// The words of a command. A program of another name, as `rt run` starts it, is given the name of the command in its
/// next word; where that names none, the command is `ndef`.
fn words_of_command(words: &[Bytes]) -> (Command, &[Bytes]) {
    match words {
        [name, others @ ..] => match (command_of(name), others) {
            (Some(command), _) => (command, words),
            (None, [next, ..]) => match command_of(next) {
                Some(command) => (command, others),
                None => (Command::Ndef, words),
            },
            (None, []) => (Command::Ndef, words),
        },
        [] => (Command::Ndef, words),
    }
}

/// Runs the command. Where there is no memory for the words, it ends with status 3 and prints nothing.
fn main(rt: HostRuntime) -> ExitCode {
    let Ok(words) = read_args(rt.alloc(), &rt) else {
        return exit_code(Status::Fault);
    };
    let (command, words) = words_of_command(words.as_slice());
    match command {
        Command::Ndef => ndef_tool::run_on(&rt, words),
        Command::Make => ndef_cli_make::run_on(&rt, words),
        Command::Explain => ndef_cli_explain::run_on(&rt, words),
    }
}

//! The program over the system: its files, its standard streams and its environment.
use crate::{MOST, args_fault, run};
use ndef_cli::{Files, Reader, Status, exit_code, exit_code_after, tell_words, texts};
use ndef_message::{Sink, StdSink};
use ndef_value::Bytes;
use std::env::VarError;
use std::io::{BufWriter, IsTerminal, Write};
use std::process::ExitCode;

/// The reader with the name of the program, for messages about files that can't be read.
const READER: Reader<'static> = Reader {
    program: "ndef-explain",
    most: MOST as u64,
};

/// The note on standard error if the program waits for a terminal.
const WAITS: &[u8] = b"ndef-explain: reading messages from standard input\n";

/// Whether output takes colours: it goes to a terminal, and `NO_COLOR` isn't set, or is empty.
fn takes_color(rt: &HostRuntime) -> bool {
    let wants_none = match std::env::var(rt, "NO_COLOR") {
        Ok(value) => !value.is_empty(),
        Err(VarError::NotPresent) => false,
        Err(_) => true,
    };
    rt.stdout().is_terminal() && !wants_none
}

/// Runs the program for the words. If they don't parse, clap prints the error on standard error.
fn run_args<K: Sink>(rt: &HostRuntime, words: &[String], sink: &mut K) -> Status {
    let mut inputs = Files::new(rt, READER, WAITS);
    let status = run(rt.alloc(), words, takes_color(rt), &mut inputs, sink);
    if status == Status::Usage
        && let Some(error) = args_fault(rt.alloc(), words)
    {
        let _ = error.print(rt);
    }
    status
}

/// Runs the program for the words, of which the first is its name, with files, standard input and output, flushes
/// standard output and gives the status. Where there is no memory for a buffer, or the flush fails, that is 3 and
/// nothing more is printed.
pub fn run_on(rt: &HostRuntime, words: &[Bytes]) -> ExitCode {
    let alloc = rt.alloc();
    let Ok(mut writer) = BufWriter::new(alloc, rt.stdout()) else {
        return exit_code(Status::Fault);
    };
    let mut sink = StdSink::new(&mut writer);
    let status = match texts(alloc, words) {
        Ok(words) => run_args(rt, words.as_slice(), &mut sink),
        Err(fault) => tell_words(alloc, fault, &mut sink),
    };
    drop(sink);
    exit_code_after(status, writer.flush())
}

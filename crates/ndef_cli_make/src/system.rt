//! The program over the system: its files and its standard streams.
use crate::{MOST, args_fault, run};
use ndef_cli::{Files, Reader, Status, exit_code, exit_code_after, tell_words, texts};
use ndef_message::{Sink, StdSink};
use ndef_value::Bytes;
use std::io::{BufWriter, IsTerminal, Write};
use std::process::ExitCode;

/// The reader with the name of the program, for messages about files that can't be read.
const READER: Reader<'static> = Reader {
    program: "ndef-make",
    most: MOST as u64,
};

/// The note on standard error if the program waits for a terminal.
const WAITS: &[u8] = b"ndef-make: reading from standard input\n";

/// Runs the program for the words. If a word is unknown or missing, clap prints the error on standard error.
fn run_args<K: Sink, L: Sink>(
    rt: &HostRuntime,
    words: &[String],
    sink: &mut K,
    lines: &mut L,
) -> Status {
    let terminal = rt.stdout().is_terminal();
    let mut inputs = Files::new(rt, READER, WAITS);
    let status = run(rt.alloc(), words, terminal, &mut inputs, sink, lines);
    if status == Status::Usage
        && let Some(error) = args_fault(rt.alloc(), words)
    {
        let _ = error.print(rt);
    }
    status
}

/// Runs the program for the words, of which the first is its name, with files, standard input, output and error,
/// flushes standard output and gives the status. Where there is no memory for a buffer, or the flush fails, that is 3
/// and nothing more is printed.
pub fn run_on(rt: &HostRuntime, words: &[Bytes]) -> ExitCode {
    let alloc = rt.alloc();
    let Ok(mut writer) = BufWriter::new(alloc, rt.stdout()) else {
        return exit_code(Status::Fault);
    };
    let mut sink = StdSink::new(&mut writer);
    let mut lines = StdSink::new(rt.stderr());
    let status = match texts(alloc, words) {
        Ok(words) => run_args(rt, words.as_slice(), &mut sink, &mut lines),
        Err(fault) => tell_words(alloc, fault, &mut lines),
    };
    drop(sink);
    exit_code_after(status, writer.flush())
}

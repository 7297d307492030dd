//! The command over the system: its files and its standard streams.
use crate::operands::{Operands, split_words};
use crate::pages::page_text;
use crate::{args_fault, choose, run};
use ndef_cli::{
    ArgsError, Page, Reader, Status, exit_code, exit_code_after, open_file, page_asked,
    push_quoted, tell_cause, tell_words, texts, worse,
};
use ndef_message::{Sink, SliceSource, StdSink, StdSource, send};
use ndef_value::{Bytes, NoMemory};
use std::alloc::Global;
use std::io::{BufReader, BufWriter, IsTerminal, Read, Write};
use std::process::ExitCode;

/// The reader with the name of the program, for messages about files that can't be read. It reads files of any length.
const READER: Reader<'static> = Reader {
    program: "ndef",
    most: u64::MAX,
};

/// The note on standard error if the program waits for words from a terminal.
const WAITS: &[u8] = b"ndef: reading standard input, which is a terminal; ndef --help says more\n";

/// Runs the command for its options over all that a reader gives.
fn run_over<R: Read + Drop, K: Sink>(
    alloc: Global,
    options: &[String],
    reader: R,
    sink: &mut K,
) -> Status {
    match BufReader::new(alloc, reader) {
        Ok(reader) => run(alloc, options, &mut StdSource::new(reader), sink),
        Err(_) => Status::Fault,
    }
}

/// Runs the command for its options over standard input.
fn run_input<K: Sink>(rt: &HostRuntime, options: &[String], sink: &mut K) -> Status {
    if rt.stdin().is_terminal() {
        let _ = rt.stderr().write_all(WAITS);
    }
    run_over(rt.alloc(), options, rt.reader(), sink)
}

/// Whether the output is lines, and not the bytes of messages.
fn has_lines(options: &[String]) -> bool {
    match options {
        [_, name, ..] => name.as_str() != "encode",
        _ => true,
    }
}

/// Runs the command for its options over the file of this name, or over standard input, which has the name `-`. The
/// reason why a file can't be read is printed on standard error.
fn run_file<K: Sink>(rt: &HostRuntime, options: &[String], name: &str, sink: &mut K) -> Status {
    if name == "-" {
        return run_input(rt, options, sink);
    }
    match open_file(rt, name) {
        Ok(file) => run_over(rt.alloc(), options, file, sink),
        Err(error) => {
            tell_cause(rt, READER, name, error.kind());
            if has_lines(options) {
                let _ = send(0, b"fault: reading\n", sink);
            }
            Status::Fault
        }
    }
}

/// The line before the output for a file.
fn heading(alloc: Global, name: &str) -> Result<Bytes, NoMemory> {
    let mut line = Bytes::from_slice(alloc, b"file ")?;
    push_quoted(&mut line, name.as_bytes())?;
    line.extend(b"\n")?;
    Ok(line)
}

/// Writes the line before the output for a file; whether it could be written.
fn is_headed<K: Sink>(alloc: Global, name: &str, sink: &mut K) -> bool {
    match heading(alloc, name) {
        Ok(line) => send(0, line.as_slice(), sink).is_ok(),
        Err(_) => false,
    }
}

/// What standard error says of words that clap accepts and that choose nothing: one of these values is wrong.
const BAD_VALUE: &[u8] =
    b"error: --profile takes strict or standard, and --form takes short or long\n";

/// Prints the usage line, since the options choose nothing. Standard error says which word is wrong.
fn print_usage<K: Sink>(rt: &HostRuntime, options: &[String], sink: &mut K) -> Status {
    let _ = match args_fault(rt.alloc(), options) {
        Some(error) => error.print(rt),
        None => rt.stderr().write_all(BAD_VALUE),
    };
    run(rt.alloc(), options, &mut SliceSource::whole(b""), sink)
}

/// Prints a page. That of the version goes to standard output; the description goes to standard error, and the
/// usage line to standard output.
fn print_page<K: Sink>(rt: &HostRuntime, page: Page, sink: &mut K) -> Status {
    match page {
        Page::Help => {
            let _ = rt.stderr().write_all(page_text(page));
            run(rt.alloc(), &[], &mut SliceSource::whole(b""), sink)
        }
        Page::Version => match send(0, page_text(page), sink) {
            Ok(_) => Status::Clean,
            Err(_) => Status::Fault,
        },
    }
}

/// Runs the command over one file after another. Where there are several, the lines of each come after one with its
/// name.
fn run_files<K: Sink>(rt: &HostRuntime, asked: &Operands, sink: &mut K) -> Status {
    let options = asked.options.as_slice();
    let headed = asked.files.len() > 1 && has_lines(options);
    let mut status = Status::Clean;
    for name in asked.files.as_slice() {
        if headed && !is_headed(rt.alloc(), name, sink) {
            return Status::Fault;
        }
        status = worse(status, run_file(rt, options, name, sink));
    }
    status
}

/// Whether the options are none of the command's.
fn chooses_nothing(alloc: Global, options: &[String]) -> bool {
    matches!(choose(alloc, options), Err(ArgsError::Usage))
}

/// Runs the command for the words: prints a page, or handles the files that are named, or else standard input.
fn run_args<K: Sink>(rt: &HostRuntime, words: Vec<String>, sink: &mut K) -> Status {
    if let Some(page) = page_asked(words.as_slice()) {
        return print_page(rt, page, sink);
    }
    let Ok(asked) = split_words(rt.alloc(), words) else {
        return Status::Fault;
    };
    let options = asked.options.as_slice();
    if chooses_nothing(rt.alloc(), options) {
        print_usage(rt, options, sink)
    } else if asked.files.is_empty() {
        run_input(rt, options, sink)
    } else {
        run_files(rt, &asked, sink)
    }
}

/// Runs the command for the words, of which the first is its name, with files, standard input and output, flushes
/// standard output and gives the status. Where there is no memory for a buffer, or the flush fails, that is 3 and
/// nothing more is printed.
pub fn run_on(rt: &HostRuntime, words: &[Bytes]) -> ExitCode {
    let alloc = rt.alloc();
    let Ok(mut writer) = BufWriter::new(alloc, rt.stdout()) else {
        return exit_code(Status::Fault);
    };
    let mut sink = StdSink::new(&mut writer);
    let status = match texts(alloc, words) {
        Ok(words) => run_args(rt, words, &mut sink),
        Err(fault) => tell_words(alloc, fault, &mut sink),
    };
    drop(sink);
    exit_code_after(status, writer.flush())
}

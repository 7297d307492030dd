//! The lines on standard error: why a file can't be read.
ghost use Rattle.std.specs.Prelude.{◌≡◌, ◌++◌, IfOk, OnOk};
ghost use Rattle.ndef_cli.specs.Causes.{cause_line, cause_text};

use crate::decimals::push_counted;
use crate::quoting::push_quoted;
use ndef_value::{Bytes, NoMemory};
use std::alloc::Global;
use std::fs::File;
use std::io::{self, ErrorKind, Write};

/// A program that reads files, and the most bytes of one that it reads.
#[derive(Clone, Copy, Debug)]
pub struct Reader<'a> {
    /// The name of the program.
    pub program: &'a str,
    /// The most bytes of a file.
    pub most: u64,
}

/// Appends why a file can't be read of which at most this many bytes are, in words.
fn push_cause(line: &mut Bytes, most: u64, kind: ErrorKind) -> Result<(), NoMemory>
    ensures { OnOk result (line.new ≡ line.old ++ cause_text most kind) }
{
    match kind {
        ErrorKind::NotFound => line.extend(b"no such file"),
        ErrorKind::PermissionDenied => line.extend(b"permission denied"),
        ErrorKind::IsADirectory => line.extend(b"is a directory"),
        ErrorKind::FileTooLarge => {
            push_counted(line, b"more than ", most)?;
            line.extend(b" bytes")
        }
        _ => line.extend(b"reading failed"),
    }
}

/// The line of a program on standard error for a file of this name that can't be read: what it is, and why.
pub fn cause_line(
    alloc: Global,
    reader: Reader<'_>,
    name: &str,
    kind: ErrorKind,
) -> Result<Bytes, NoMemory>
    ensures { IfOk result (λ line. line ≡ cause_line reader.entry.program.now reader.entry.most name.now kind) }
{
    let mut line = Bytes::from_slice(alloc, reader.program.as_bytes())?;
    line.extend(b": ")?;
    push_quoted(&mut line, name.as_bytes())?;
    line.extend(b": ")?;
    push_cause(&mut line, reader.most, kind)?;
    line.extend(b"\n")?;
    Ok(line)
}

/// Writes to standard error the reason why a file of this name can't be read.
pub fn tell_cause(rt: &HostRuntime, reader: Reader<'_>, name: &str, kind: ErrorKind) {
    if let Ok(line) = cause_line(rt.alloc(), reader, name, kind) {
        let _ = rt.stderr().write_all(line.as_slice());
    }
}

/// Opens a file that isn't a directory.
pub fn open_file(rt: &HostRuntime, name: &str) -> io::Result<File> {
    let file = File::open(rt, name)?;
    if file.metadata()?.is_dir() {
        return Err(io::Error::from(ErrorKind::IsADirectory));
    }
    Ok(file)
}

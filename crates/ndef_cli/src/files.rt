//! The files of the system, and standard input.
ghost use Rattle.std.specs.Prelude.{⊤};

use crate::{Inputs, Reader, open_file, tell_cause};
use ndef_message::{InputError, StdSource, read_all};
use std::alloc::Global;
use std::io::{BufReader, ErrorKind, IsTerminal, Read, Write};

/// The files of the system, and standard input, as a program reads them.
#[derive(Drop)]
pub struct Files<'a> {
    rt: &'a HostRuntime,
    reader: Reader<'static>,
    waits: &'static [u8],
}

/// All that a reader gives, at most this many bytes.
fn read_from<R: Read + Drop>(alloc: Global, reader: R, most: u64) -> Result<Vec<u8>, InputError> {
    let Ok(reader) = BufReader::new(alloc, reader) else {
        return Err(InputError::NoMemory);
    };
    read_all(alloc, &mut StdSource::new(reader), most as usize)
}

impl<'a> Files<'a> {
    /// The files as a program reads them, and the note on standard error if it waits for a terminal.
    pub fn new(rt: &'a HostRuntime, reader: Reader<'static>, waits: &'static [u8]) -> Files<'a> {
        Files { rt, reader, waits }
    }

    /// Returns the bytes of standard input.
    fn read_input(&self, alloc: Global) -> Result<Vec<u8>, InputError> {
        if self.rt.stdin().is_terminal() {
            let _ = self.rt.stderr().write_all(self.waits);
        }
        read_from(alloc, self.rt.reader(), self.reader.most)
    }

    /// Returns the bytes of a file, or the reason why it can't be read, which is printed on standard error too.
    fn read_file(&self, alloc: Global, name: &str) -> Result<Vec<u8>, InputError> {
        let read = match open_file(self.rt, name) {
            Ok(file) => read_from(alloc, file, self.reader.most),
            Err(error) => {
                tell_cause(self.rt, self.reader, name, error.kind());
                return Err(InputError::ReadFault);
            }
        };
        match &read {
            Ok(_) | Err(InputError::NoMemory) => {}
            Err(InputError::ReadFault) => tell_cause(self.rt, self.reader, name, ErrorKind::Other),
            Err(InputError::TooLong) => {
                tell_cause(self.rt, self.reader, name, ErrorKind::FileTooLarge)
            }
        }
        read
    }
}

impl<'a> Inputs for Files<'a> {
    ghost gives = { λ _ _ _ _. ⊤ };

    fn read(&mut self, alloc: Global, name: &str) -> Result<Vec<u8>, InputError> {
        if name == "-" {
            self.read_input(alloc)
        } else {
            self.read_file(alloc, name)
        }
    }
}

//! Readers and writers that are slow, or fail.
use std::io::{self, BufRead, Read, Write};

/// A reader of at most `most` bytes at a time. If it is to fail, it fails once, after its bytes.
#[derive(Drop)]
pub struct SlowReader<'a> {
    pub bytes: &'a [u8],
    pub most: usize,
    pub fails: bool,
}

impl Read for SlowReader<'_> {
    fn read(&mut self, buf: &mut [u8]) -> io::Result<usize> {
        let shown = self.fill_buf()?;
        let count = shown.len().min(buf.len());
        buf[..count].copy_from_slice(&shown[..count]);
        self.consume(count);
        Ok(count)
    }
}

impl BufRead for SlowReader<'_> {
    fn fill_buf(&mut self) -> io::Result<&[u8]> {
        if self.bytes.is_empty() && self.fails {
            self.fails = false;
            return Err(io::Error::from(io::ErrorKind::Interrupted));
        }
        let count = self.bytes.len().min(self.most);
        Ok(&self.bytes[..count])
    }

    fn consume(&mut self, amount: usize) {
        let count = amount.min(self.bytes.len());
        self.bytes = &self.bytes[count..];
    }
}

/// A reader that shows its bytes up to the first call of `consume`, and fails from then on.
#[derive(Drop)]
pub struct OnceReader<'a> {
    pub bytes: &'a [u8],
    pub consumed: bool,
}

impl Read for OnceReader<'_> {
    fn read(&mut self, buf: &mut [u8]) -> io::Result<usize> {
        let shown = self.fill_buf()?;
        let count = shown.len().min(buf.len());
        buf[..count].copy_from_slice(&shown[..count]);
        self.consume(count);
        Ok(count)
    }
}

impl BufRead for OnceReader<'_> {
    fn fill_buf(&mut self) -> io::Result<&[u8]> {
        if self.consumed {
            return Err(io::Error::from(io::ErrorKind::Interrupted));
        }
        Ok(self.bytes)
    }

    fn consume(&mut self, amount: usize) {
        self.consumed = true;
        let count = amount.min(self.bytes.len());
        self.bytes = &self.bytes[count..];
    }
}

/// A writer that takes `room` bytes in all, two at a time, and then fails.
#[derive(Drop)]
pub struct FullWriter<'a> {
    pub out: &'a mut Vec<u8>,
    pub room: usize,
}

impl Write for FullWriter<'_> {
    fn write(&mut self, buf: &[u8]) -> io::Result<usize> {
        if self.room == 0 {
            return Err(io::Error::from(io::ErrorKind::Interrupted));
        }
        let count = buf.len().min(self.room).min(2);
        self.room -= count;
        self.out.extend_from_slice(&buf[..count])?;
        Ok(count)
    }

    fn flush(&mut self) -> io::Result<()> {
        Ok(())
    }
}

/// A writer that takes nothing, and doesn't fail either.
#[derive(Drop)]
pub struct IdleWriter;

impl Write for IdleWriter {
    fn write(&mut self, _buf: &[u8]) -> io::Result<usize> {
        Ok(0)
    }

    fn flush(&mut self) -> io::Result<()> {
        Ok(())
    }
}

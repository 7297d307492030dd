//! The output of octets one after another: to a buffer, or to a counter that drops them.
ghost use Rattle.std.specs.Prelude.{◌≡◌};

/// A buffer, and the place after what was written. What is written past the end of the buffer is counted alone, so an
/// empty buffer counts. The functions that write are inlined, so that those that count do nothing else.
#[derive(Drop)]
pub(crate) struct Out<'a> {
    buffer: &'a mut [u8],
    at: usize,
}

impl<'a> Out<'a> {
    ghost use Rattle.ndef_c.specs.Buffers.{Puts};

    /// Writes from a place of the buffer on.
    pub(crate) fn new(buffer: &'a mut [u8], at: usize) -> Out<'a>
        ensures same_reference { result.buffer.ghost_name ≡ buffer.entry.ghost_name }
        ensures buffer { result.buffer.now ≡ buffer.old }
        ensures at { result.at ≡ at }
    {
        Out { buffer, at }
    }

    /// Writes the octets.
    #[inline(always)]
    pub(crate) fn put(&mut self, octets: &[u8])
        ensures { Puts self.old octets.now self.new }
    {
        let end = self.at.saturating_add(octets.len());
        if end <= self.buffer.len() {
            self.buffer[self.at..end].copy_from_slice(octets);
        }
        self.at = end;
    }

    /// The place after the bytes that were written.
    pub(crate) fn at(&self) -> usize
        ensures { result ≡ self.now.at }
    {
        self.at
    }
}

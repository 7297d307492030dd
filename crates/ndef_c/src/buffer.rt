//! The buffer of a caller.
ghost use Rattle.std.specs.Prelude.{◌<◌, ◌^◌, ◌++◌, length};
ghost use Rattle.ndef_c.specs.Buffers.{Gives, Puts};

use crate::out::Out;
use crate::status::{BUFFER_TOO_SMALL, OK};

/// Writes bytes to the buffer where it is large enough, sets `count` to their number, and returns the status.
pub(crate) fn give(bytes: &[u8], buffer: &mut [u8], count: &mut usize) -> u32
    ensures { Gives bytes.now buffer.old buffer.new count.new result }
{
    *count = bytes.len();
    if buffer.len() < bytes.len() {
        return BUFFER_TOO_SMALL;
    }
    buffer[..bytes.len()].copy_from_slice(bytes);
    OK
}

/// Writes three parts, one after another.
#[inline(always)]
#[tactic(auto, using(crate::proofs::Puts::puts_on))]
pub(crate) fn put_parts(out: &mut Out<'_>, first: &[u8], second: &[u8], third: &[u8])
    ensures { Puts out.old (first.now ++ (second.now ++ third.now)) out.new }
{
    out.put(first);
    out.put(second);
    out.put(third);
}

/// Writes three parts, one after another, to the buffer where it is large enough, sets `count` to
/// their number of bytes, and returns the status.
pub(crate) fn give_parts(
    first: &[u8],
    second: &[u8],
    third: &[u8],
    buffer: &mut [u8],
    count: &mut usize,
) -> u32
    requires first { length first.now < 2 ^ 32 }
    requires second { length second.now < 2 ^ 32 }
    requires third { length third.now < 2 ^ 32 }
    ensures { Gives (first.now ++ (second.now ++ third.now)) buffer.old buffer.new count.new result }
{
    let mut counter = Out::new(&mut [], 0);
    put_parts(&mut counter, first, second, third);
    *count = counter.at();
    if buffer.len() < *count {
        return BUFFER_TOO_SMALL;
    }
    put_parts(&mut Out::new(buffer, 0), first, second, third);
    OK
}

//! Numbers in lines.
ghost use Rattle.std.specs.Prelude.{◌≡◌, ◌++◌, OnOk, decimal};

use itoa::Buffer;
use ndef_value::{Bytes, NoMemory};

/// Appends a number in decimal digits.
pub fn push_number(line: &mut Bytes, number: u64) -> Result<(), NoMemory>
    ensures { OnOk result (line.new ≡ line.old ++ decimal number) }
{
    let mut buffer = Buffer::new();
    line.extend(buffer.format(number).as_bytes())
}

/// Appends a word and a number after it.
pub fn push_counted(line: &mut Bytes, word: &[u8], number: u64) -> Result<(), NoMemory>
    ensures { OnOk result (line.new ≡ line.old ++ (word.now ++ decimal number)) }
{
    line.extend(word)?;
    push_number(line, number)
}

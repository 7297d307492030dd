//! Hexadecimal digits.
ghost use Rattle.std.specs.Prelude.{◌≡◌, IfOk};
ghost use Rattle.ndef_cli.specs.Outputs.{hexadecimal_line};

use ndef_value::{Bytes, NoMemory};
use std::alloc::Global;

/// The bytes as a line of hexadecimal digits.
pub fn hexadecimal_line(alloc: Global, bytes: &[u8]) -> Result<Bytes, NoMemory>
    ensures { IfOk result (λ line. line ≡ hexadecimal_line bytes.now) }
{
    let Ok(digits) = hex::encode(alloc, bytes) else {
        return Err(NoMemory);
    };
    let mut line = Bytes::from_slice(alloc, digits.as_bytes())?;
    line.extend(b"\n")?;
    Ok(line)
}

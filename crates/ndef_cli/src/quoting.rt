//! Bytes between quotation marks.
ghost use Rattle.std.specs.Prelude.{◌≡◌, ◌++◌, ◌∷◌, [], OnOk};
ghost use Rattle.std.specs.List.{prefix_len};
ghost use Rattle.hex.specs.Hex.{encode_lower};
ghost use Rattle.ndef_cli.specs.Quoting.{is_plain_octet, quoted, quoted_byte, quoted_bytes};

use ndef_value::{Bytes, NoMemory};

/// Whether a byte is unchanged between quotation marks: printable ASCII, but for the quotation
/// mark and the backslash.
pub(crate) fn is_plain(byte: u8) -> bool
    ensures { result ≡ is_plain_octet byte }
{
    0x20 <= byte && byte <= 0x7e && byte != 0x22 && byte != 0x5c
}

/// A byte in two lower-case hexadecimal digits.
pub fn digits_of(byte: u8) -> [u8; 2]
    ensures { result ≡ encode_lower (byte ∷ []) }
{
    let mut digits = [0; 2];
    let Ok(()) = hex::encode_to_slice([byte].as_slice(), &mut digits) else {
        unreachable!()
    };
    digits
}

/// Appends a byte in the form that it has between quotation marks.
fn push_byte(line: &mut Bytes, byte: u8) -> Result<(), NoMemory>
    ensures { OnOk result (line.new ≡ line.old ++ quoted_byte byte) }
{
    if is_plain(byte) {
        return line.extend(&[byte]);
    }
    line.extend(b"\\x")?;
    line.extend(&digits_of(byte))
}

/// The number of bytes at the front that are unchanged between quotation marks.
fn plain_front(bytes: &[u8]) -> usize
    ensures { result ≡ prefix_len is_plain_octet bytes.now }
{
    bytes.iter().take_while(|byte| is_plain(**byte)).count()
}

/// Appends the bytes in the form that they have between quotation marks.
pub fn push_quoted_bytes(line: &mut Bytes, bytes: &[u8]) -> Result<(), NoMemory>
    ensures { OnOk result (line.new ≡ line.old ++ quoted_bytes bytes.now) }
{
    let mut rest = bytes;
    loop {
        let (plain, other) = rest.split_at(plain_front(rest));
        line.extend(plain)?;
        match other {
            [byte, after @ ..] => {
                push_byte(line, *byte)?;
                rest = after;
            }
            [] => return Ok(()),
        }
    }
}

/// Appends the bytes between quotation marks.
pub fn push_quoted(line: &mut Bytes, bytes: &[u8]) -> Result<(), NoMemory>
    ensures { OnOk result (line.new ≡ line.old ++ quoted bytes.now) }
{
    line.extend(b"\"")?;
    push_quoted_bytes(line, bytes)?;
    line.extend(b"\"")
}

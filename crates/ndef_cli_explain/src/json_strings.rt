//! Strings in JSON (RFC 8259).
ghost use Rattle.std.specs.Prelude.{◌≡◌, ◌++◌, ◌<◌, OnOk};
ghost use Rattle.std.specs.Char.{digit_char};
ghost use Rattle.std.specs.List.{prefix_len};
ghost use Rattle.json.specs.Print.{escape, escape_byte, escape_letter, quoted};
ghost use Rattle.json.specs.Run.{is_plain};

use ndef_value::{Bytes, NoMemory};

/// A hexadecimal digit.
fn digit_of(number: u8) -> u8
    requires { number < 16 }
    ensures { result ≡ digit_char number }
{
    if number < 10 {
        b'0' + number
    } else {
        b'a' + (number - 10)
    }
}

/// The letter that denotes a byte after a backslash; 0 if there is none.
fn letter_of(byte: u8) -> u8
    ensures { result ≡ escape_letter byte }
{
    match byte {
        0x22 | 0x5c => byte,
        0x08 => b'b',
        0x0c => b'f',
        0x0a => b'n',
        0x0d => b'r',
        0x09 => b't',
        _ => 0,
    }
}

/// Appends a byte in the form that it has in a string (RFC 8259, strings).
#[tactic(auto, using(crate::proofs::Escapes::escaped_by_letter, crate::proofs::Escapes::escaped_by_digits, crate::proofs::Escapes::not_escaped))]
fn push_escaped(line: &mut Bytes, byte: u8) -> Result<(), NoMemory>
    ensures { OnOk result (line.new ≡ line.old ++ escape_byte byte) }
{
    let letter = letter_of(byte);
    if letter > 0 {
        return line.extend(&[b'\\', letter]);
    }
    if byte >= 0x20 {
        return line.extend(&[byte]);
    }
    let (high, low) = (digit_of(byte / 16), digit_of(byte % 16));
    line.extend(&[b'\\', b'u', b'0', b'0', high, low])
}

/// Whether a byte is unchanged in a string.
fn is_plain(byte: u8) -> bool
    ensures { result ≡ is_plain byte }
{
    byte >= 0x20 && byte != b'"' && byte != b'\\'
}

/// The number of bytes at the front that are unchanged in a string.
fn plain_front(bytes: &[u8]) -> usize
    ensures { result ≡ prefix_len is_plain bytes.now }
{
    bytes.iter().take_while(|byte| is_plain(**byte)).count()
}

/// Appends a text in the form that it has in a string.
fn push_text(line: &mut Bytes, text: &[u8]) -> Result<(), NoMemory>
    ensures { OnOk result (line.new ≡ line.old ++ escape text.now) }
{
    let mut rest = text;
    loop {
        let (plain, other) = rest.split_at(plain_front(rest));
        line.extend(plain)?;
        match other {
            [byte, after @ ..] => {
                push_escaped(line, *byte)?;
                rest = after;
            }
            [] => return Ok(()),
        }
    }
}

/// Appends a text as a string.
pub(crate) fn push_string(line: &mut Bytes, text: &[u8]) -> Result<(), NoMemory>
    ensures { OnOk result (line.new ≡ line.old ++ quoted text.now) }
{
    line.extend(b"\"")?;
    push_text(line, text)?;
    line.extend(b"\"")
}

//! Hexadecimal text, read whole.
ghost use Rattle.std.specs.Prelude.{◌≡◌, ◌<◌, ◌%◌, false, length, Err, IfErr};
ghost use Rattle.ndef_message.specs.Inputs.{bytes_of};
ghost use Rattle.ndef_message.specs.States.{source_state};
ghost use Rattle.ndef_cli.specs.Outcomes.{FitsPlace, fault_of};
ghost use Rattle.ndef_tool.specs.Hexadecimal.{AreDecoded, IsDecoded, IsHexInput, without_spaces, is_space};
ghost use Rattle.ndef_tool.specs.Sessions.{is_writing};

use hex::FromHexError;
use ndef_cli::{HexFault, Outcome};
use ndef_message::{Source, read_all};
use std::alloc::Global;

/// The most bytes of text that are read.
const MOST: usize = 16777216;

/// Whether a byte is white space in hexadecimal text.
fn is_space(byte: u8) -> bool
    ensures { result ≡ is_space byte }
{
    byte == b' ' || byte == b'\t' || byte == b'\r' || byte == b'\n'
}

/// Drops white space.
fn drop_spaces(text: &mut Vec<u8>)
    ensures { text.new.items ≡ without_spaces text.old.items }
{
    text.retain(|byte| !is_space(*byte));
}

/// Returns the fault of the digits.
fn fault_of(error: FromHexError) -> HexFault
    ensures { result ≡ fault_of error }
{
    match error {
        FromHexError::InvalidHexCharacter { index, .. } => HexFault::BadDigit(index as u64),
        _ => HexFault::Odd,
    }
}

/// Why an even number of digits, for whose bytes there was no memory, gives no bytes: one of them is no digit, or else
/// memory.
fn without_memory(digits: &[u8]) -> Outcome
    requires some { 0 < length digits.now }
    requires even { length digits.now % 2 ≡ 0 }
    ensures { AreDecoded digits.now (Err result) }
{
    for (place, digit) in digits.iter().enumerate() {
        if !digit.is_ascii_hexdigit() {
            return Outcome::Hex(HexFault::BadDigit(place as u64));
        }
    }
    Outcome::Memory
}

/// Returns the bytes that the digits of a text denote. A fault of the digits comes before a lack of memory.
fn decode_text(alloc: Global, text: Vec<u8>) -> Result<Vec<u8>, Outcome>
    ensures { IsDecoded text.items (bytes_of result) }
{
    let mut text = text;
    drop_spaces(&mut text);
    if text.is_empty() {
        return Ok(text);
    }
    match hex::decode(alloc, text.as_slice()) {
        Ok(bytes) => Ok(bytes),
        Err(FromHexError::OutOfMemory) => Err(without_memory(text.as_slice())),
        Err(error) => Err(Outcome::Hex(fault_of(error))),
    }
}

/// Returns the bytes that the text of the source denotes.
pub fn read_hexadecimal<S: Source>(alloc: Global, source: &mut S) -> Result<Vec<u8>, Outcome>
    ensures input { IsHexInput (source_state S.Source source.old) (source_state S.Source source.new)
        (S.has_failed source.new) (bytes_of result) }
    ensures room { IfErr result (λ outcome. FitsPlace 0 outcome) }
    ensures mark { IfErr result (λ outcome. is_writing outcome ≡ false) }
{
    let text = read_all(alloc, source, MOST)?;
    decode_text(alloc, text)
}

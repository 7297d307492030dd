//! The words for the codes of fields.
ghost use Rattle.std.specs.Prelude.{◌≡◌, ◌++◌, OnOk, map};
ghost use Rattle.ndef_cli_explain.specs.Codes.{code_text, format_text, power_text, prefix_word, reserved_text, word_of};

use ndef_cli::{digits_of, push_number, push_quoted};
use ndef_types::prefix;
use ndef_value::{Bytes, NoMemory};

/// The words for the actions from 0 to 2 (RTD Smart Poster 1.0, recommended action record).
pub(crate) const ACTION_WORDS: [&[u8]; 3] = [b"do", b"save", b"open"];

/// The words for the carrier power states (Connection Handover 1.2, alternative carrier record).
pub(crate) const POWER_WORDS: [&[u8]; 4] = [b"inactive", b"active", b"activating", b"unknown"];

/// The words for the reasons from 0 to 3 (Connection Handover 1.2, error record).
pub(crate) const ERROR_WORDS: [&[u8]; 4] = [
    b"reserved",
    b"temporary memory",
    b"permanent memory",
    b"carrier-specific",
];

/// The words for the carrier type formats from 0 to 4 (Connection Handover 1.2, handover carrier record).
pub(crate) const FORMAT_WORDS: [&[u8]; 5] = [
    b"reserved",
    b"well-known",
    b"media",
    b"absolute URI",
    b"external",
];

/// The words for the type name formats (NDEF 1.0, TNF).
pub(crate) const TNF_WORDS: [&[u8]; 8] = [
    b"empty",
    b"well-known",
    b"media",
    b"absolute URI",
    b"external",
    b"unknown",
    b"unchanged",
    b"reserved",
];

/// Appends the prefix of a URI identifier code between quotation marks, or that there is none.
pub(crate) fn push_prefix_word(line: &mut Bytes, code: u8) -> Result<(), NoMemory>
    ensures { OnOk result (line.new ≡ line.old ++ prefix_word code) }
{
    match code {
        0 => line.extend(b"no prefix"),
        0x24.. => line.extend(b"reserved"),
        _ => push_quoted(line, prefix(code).as_bytes()),
    }
}

/// The word for a code that a table has; another is reserved.
pub(crate) fn word_of(words: &[&'static [u8]], code: u8) -> &'static [u8]
    ensures { result.now ≡ word_of (map (λ word. word.now) words.now) code }
{
    match words.get(code as usize) {
        Some(word) => word,
        None => b"reserved",
    }
}

/// Appends a code by its number and its word.
pub(crate) fn push_code(line: &mut Bytes, code: u8, word: &[u8]) -> Result<(), NoMemory>
    ensures { OnOk result (line.new ≡ line.old ++ code_text code word.now) }
{
    line.extend(b" ")?;
    push_number(line, u64::from(code))?;
    line.extend(b" ")?;
    line.extend(word)
}

/// Appends the reserved bits that are set, if some are.
fn push_reserved(line: &mut Bytes, bits: u8) -> Result<(), NoMemory>
    ensures { OnOk result (line.new ≡ line.old ++ reserved_text bits) }
{
    if bits == 0 {
        return Ok(());
    }
    line.extend(b", reserved bits set: ")?;
    line.extend(&digits_of(bits))
}

/// Appends the carrier power state in two bits of an octet, and the others that are set.
pub(crate) fn push_power(line: &mut Bytes, octet: u8) -> Result<(), NoMemory>
    ensures { OnOk result (line.new ≡ line.old ++ power_text octet) }
{
    let state = octet % 4;
    push_code(line, state, word_of(&POWER_WORDS, state))?;
    push_reserved(line, octet - state)
}

/// Appends the carrier type format in three bits of an octet, and the others that are set.
pub(crate) fn push_format(line: &mut Bytes, octet: u8) -> Result<(), NoMemory>
    ensures { OnOk result (line.new ≡ line.old ++ format_text octet) }
{
    let format = octet % 8;
    push_code(line, format, word_of(&FORMAT_WORDS, format))?;
    push_reserved(line, octet - format)
}

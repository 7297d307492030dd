//! Hints for bytes that are refused, in sentences and by numbers.
ghost use Rattle.std.specs.Prelude.{◌≡◌, ◌≢◌, ◌≤◌, ◌⊎◌, ◌↔◌, IfNone, IfSome};
ghost use Rattle.ndef_diagnostics.specs.Hints.{BeginsWithMessage};
ghost use Rattle.ndef_c.specs.Checks.{limits_of};
ghost use Rattle.ndef_c.specs.Fields.{MayTellFields};
ghost use Rattle.ndef_c.specs.Hints.{FindsHint, GivesHint, HasNoHint, IsHinted, dump_number, hint_number, tag_number};

use crate::buffer::give;
use crate::fields::typed_limits;
use crate::limits::NdefLimits;
use crate::refusal_message::refusal_of;
use crate::status::{BAD_ARGUMENT, BUFFER_TOO_SMALL, END, OK};
use ndef_diagnostics::{DumpText, Hint, Wrapping, hint_at};
use ndef_value::Limits;

/// An NDEF message TLV of a tag has bytes for a message, or none.
pub const HINT_TLV: u32 = 1;
/// A message comes after the attribute block of a Type 3 Tag.
pub const HINT_ATTRIBUTES: u32 = 2;
/// A message comes after its length, as in a file of a Type 4 Tag.
pub const HINT_FILE: u32 = 3;
/// A message begins after other bytes.
pub const HINT_MESSAGE: u32 = 4;
/// The terminator of a tag's TLV blocks is in place of a message.
pub const HINT_TERMINATOR: u32 = 5;
/// The bytes are digits.
pub const HINT_DIGITS: u32 = 6;
/// The bytes are a dump by xxd.
pub const HINT_XXD: u32 = 7;
/// The bytes are a dump by hexdump -C.
pub const HINT_HEXDUMP: u32 = 8;
/// The bytes are a dump by od or hexdump of numbers of more than one byte.
pub const HINT_WORDS: u32 = 9;
/// The bytes are an NFC file of a Flipper.
pub const HINT_FLIPPER: u32 = 10;
/// The bytes are what the client of a Proxmark prints.
pub const HINT_PROXMARK: u32 = 11;
/// The bytes may be base64.
pub const HINT_BASE64: u32 = 12;
/// The identifier code of a URI may be missing.
pub const HINT_CODE: u32 = 13;
/// A reader of the standard profile accepts the bytes.
pub const HINT_STANDARD: u32 = 14;
/// Reserved areas of a tag may lie before the end of an NDEF message TLV.
pub const HINT_INTERRUPTED: u32 = 15;
/// A Type 3 Tag is being written: its message is not whole yet.
pub const HINT_UNFINISHED: u32 = 16;
/// The bytes are a dump by od -tx1.
pub const HINT_OD: u32 = 17;

/// What may help where bytes are refused, by numbers.
#[repr(C)]
#[derive(Clone, Copy, Drop)]
pub struct NdefFound {
    /// The hint, one of ndef_hint_number.
    pub hint: u32,
    /// The offset at which a message may begin; 0 where the hint names none.
    pub at: usize,
    /// The number of bytes there that a tag has for it; 0 where the hint names none.
    pub length: usize,
}

/// The number of a hint on what a tag has for a message.
fn tag_number(wrapping: Wrapping) -> u32
    ensures { result ≡ tag_number wrapping }
{
    match wrapping {
        Wrapping::Block => HINT_TLV,
        Wrapping::Attributes => HINT_ATTRIBUTES,
        Wrapping::File => HINT_FILE,
        Wrapping::Interrupted => HINT_INTERRUPTED,
        Wrapping::Unfinished => HINT_UNFINISHED,
    }
}

/// The number of a hint on a text that spells bytes.
fn dump_number(text: DumpText) -> u32
    ensures { result ≡ dump_number text }
{
    match text {
        DumpText::Digits => HINT_DIGITS,
        DumpText::Xxd => HINT_XXD,
        DumpText::Hexdump => HINT_HEXDUMP,
        DumpText::Od | DumpText::Suppressed => HINT_OD,
        DumpText::Words => HINT_WORDS,
        DumpText::Flipper => HINT_FLIPPER,
        DumpText::Proxmark => HINT_PROXMARK,
        DumpText::Base64 => HINT_BASE64,
    }
}

/// The number of a hint.
fn hint_number(hint: Hint) -> u32
    ensures { result ≡ hint_number hint }
{
    match hint {
        Hint::InTag(found) => tag_number(found.wrapping),
        Hint::MessageAt(_) => HINT_MESSAGE,
        Hint::AfterBlocks => HINT_TERMINATOR,
        Hint::Text(text) => dump_number(text),
        Hint::CodeLeftOut => HINT_CODE,
        Hint::StandardProfile => HINT_STANDARD,
    }
}

/// The hint that applies where the bytes are refused.
fn hint_of(bytes: &[u8], limits: Limits) -> Option<Hint>
    ensures some { IfSome result (IsHinted limits bytes.now) }
    ensures none { IfNone result (BeginsWithMessage limits bytes.now ⊎ HasNoHint limits bytes.now) }
{
    let refusal = refusal_of(bytes, limits)?;
    match hint_at(bytes, limits, refusal) {
        Some(hint) => Some(hint),
        None => None,
    }
}

/// Writes what may help where the bytes are refused to the buffer.
fn give_hint(bytes: &[u8], limits: Limits, buffer: &mut [u8], count: &mut usize) -> u32
    ensures known { (result ≡ OK) ⊎ (result ≡ BUFFER_TOO_SMALL) ⊎ (result ≡ END) }
    ensures hint { GivesHint limits bytes.now buffer.old buffer.new count.old count.new result }
    ensures short { result ≢ END → count.new ≤ 192 }
{
    match hint_of(bytes, limits) {
        Some(hint) => {
            let sentence = hint.sentence();
            give(sentence.as_slice(), buffer, count)
        }
        None => END,
    }
}

/// Writes what may help where the bytes are refused to the buffer: a sentence of English, in ASCII and with no NUL
/// after it.
#[unsafe(no_mangle)]
pub extern "C" fn ndef_hint(
    bytes: &[u8],
    limits: &NdefLimits,
    buffer: &mut [u8],
    count: &mut usize,
) -> u32
    ensures bad { result ≡ BAD_ARGUMENT ↔ ¬ MayTellFields limits.now }
    ensures kept { result ≡ BAD_ARGUMENT → (buffer.new ≡ buffer.old) × (count.new ≡ count.old) }
    ensures hint { result ≢ BAD_ARGUMENT
        → GivesHint (limits_of limits.now) bytes.now buffer.old buffer.new count.old count.new result }
    ensures short { (result ≡ OK) ⊎ (result ≡ BUFFER_TOO_SMALL) → count.new ≤ 192 }
{
    let Some(limits) = typed_limits(limits) else {
        return BAD_ARGUMENT;
    };
    give_hint(bytes, limits, buffer, count)
}

/// Says by numbers what may help where the bytes are refused: which hint it is, and of one on the memory of a tag where
/// a message may begin and how many bytes the tag has for it.
///
/// - `OK`: `out` has the hint whose sentence ndef_hint writes.
/// - `END`: the bytes begin with a message, or nothing is known to help; `out` is unchanged.
/// - `BAD_ARGUMENT`: as with ndef_fields; `out` is unchanged.
#[unsafe(no_mangle)]
pub extern "C" fn ndef_find_hint(bytes: &[u8], limits: &NdefLimits, out: &mut NdefFound) -> u32
    ensures known { (result ≡ OK) ⊎ (result ≡ END) ⊎ (result ≡ BAD_ARGUMENT) }
    ensures bad { result ≡ BAD_ARGUMENT ↔ ¬ MayTellFields limits.now }
    ensures found { result ≡ OK → FindsHint (limits_of limits.now) bytes.now out.new }
    ensures none { result ≡ END
        → BeginsWithMessage (limits_of limits.now) bytes.now ⊎ HasNoHint (limits_of limits.now) bytes.now }
    ensures kept { result ≢ OK → out.new ≡ out.old }
{
    let Some(limits) = typed_limits(limits) else {
        return BAD_ARGUMENT;
    };
    let Some(hint) = hint_of(bytes, limits) else {
        return END;
    };
    *out = NdefFound {
        hint: hint_number(hint),
        at: hint.place() as usize,
        length: hint.length() as usize,
    };
    OK
}

//! The wording of the octets of texts.
ghost use Rattle.std.specs.Prelude.{◌≡◌, ◌++◌, chars, IfOk, OnOk};
ghost use Rattle.std.specs.List.{flat_map};
ghost use Rattle.ndef_cli_explain.specs.Wordings.{encoding_after, encoding_by_mark, encoding_by_status, first_wording};
ghost use Rattle.ndef_cli_explain.specs.Wordings.{from_wide, is_printable, text_in_utf8, unit_of, units_in};
ghost use Rattle.ndef_cli_explain.specs.Wordings.{worded, worded_char, worded_utf8, wording_after};

use crate::meaning::first;
use crate::style::Shown;
use ndef_cli::{push_quoted, push_quoted_bytes};
use ndef_fields::FieldName;
use ndef_value::{Bytes, NoMemory};
use std::alloc::Global;
use ucd_category::{GeneralCategory, GeneralCategoryGroup};

/// The encoding of the characters of a text.
#[derive(Clone, Copy)]
pub(crate) enum TextEncoding {
    Utf8,
    /// UTF-16, of each unit the higher octet first.
    BigEndian,
    /// UTF-16, of each unit the lower octet first.
    LittleEndian,
}

/// The way in which octets are put into words.
#[derive(Clone, Copy)]
pub(crate) struct Wording {
    pub(crate) shown: Shown,
    /// Warnings about fields are printed.
    pub(crate) remarks: bool,
    /// The encoding of the next text.
    pub(crate) encoding: TextEncoding,
}

/// Returns the encoding of a text from its status octet.
fn encoding_by_status(status: u8) -> TextEncoding
    ensures { result ≡ encoding_by_status status }
{
    if status >= 128 {
        TextEncoding::BigEndian
    } else {
        TextEncoding::Utf8
    }
}

/// Returns the encoding of a text in UTF-16 from the first octet of its byte order mark.
fn encoding_by_mark(octet: u8) -> TextEncoding
    ensures { result ≡ encoding_by_mark octet }
{
    if octet == 0xff {
        TextEncoding::LittleEndian
    } else {
        TextEncoding::BigEndian
    }
}

/// Returns the encoding of the next text after a field of this name with these octets.
fn encoding_after(encoding: TextEncoding, name: FieldName, octets: &[u8]) -> TextEncoding
    ensures { result ≡ encoding_after encoding name octets.now }
{
    match name {
        FieldName::Status => encoding_by_status(first(octets)),
        FieldName::Mark => encoding_by_mark(first(octets)),
        _ => encoding,
    }
}

impl Wording {
    /// Returns the wording before the first field of a message, which is accepted or refused.
    pub(crate) fn new(shown: Shown, remarks: bool) -> Wording
        ensures { result ≡ first_wording shown remarks }
    {
        Wording {
            shown,
            remarks,
            encoding: TextEncoding::Utf8,
        }
    }

    /// Returns the wording after a field of this name with these octets.
    pub(crate) fn after(self, name: FieldName, octets: &[u8]) -> Wording
        ensures { result ≡ wording_after self name octets.now }
    {
        Wording {
            shown: self.shown,
            remarks: self.remarks,
            encoding: encoding_after(self.encoding, name, octets),
        }
    }
}

/// A unit of two octets.
fn unit_of(little: bool, a: u8, b: u8) -> u16
    ensures { result ≡ unit_of little a b }
{
    if little {
        u16::from_be_bytes([b, a])
    } else {
        u16::from_be_bytes([a, b])
    }
}

/// The units of a text in UTF-16.
fn units_of(alloc: Global, little: bool, octets: &[u8]) -> Result<Vec<u16>, NoMemory>
    ensures { IfOk result (λ units. units.items ≡ units_in little octets.now) }
{
    let mut units = Vec::new(alloc);
    let mut rest = octets;
    while let [a, b, later @ ..] = rest {
        units.push(unit_of(little, *a, *b))?;
        rest = later;
    }
    Ok(units)
}

/// Whether a character is printable.
fn is_printable(c: char) -> bool
    ensures { result ≡ is_printable c }
{
    let code = c as u32;
    if code < 128 {
        return 0x20 <= code && code <= 0x7e && code != 0x22 && code != 0x5c;
    }
    let category = GeneralCategory::for_char(c);
    !GeneralCategoryGroup::Other.contains(category)
        && !GeneralCategoryGroup::Separator.contains(category)
}

/// Appends a character in the form that it has between quotation marks, printable characters as themselves.
fn push_char(line: &mut Bytes, c: char) -> Result<(), NoMemory>
    ensures { OnOk result (line.new ≡ line.old ++ worded_char c) }
{
    let mut room = [0; 4];
    let octets = c.encode_utf8(&mut room).as_bytes();
    if is_printable(c) {
        line.extend(octets)
    } else {
        push_quoted_bytes(line, octets)
    }
}

/// Appends the characters of a text in this form.
fn push_chars(line: &mut Bytes, text: &str) -> Result<(), NoMemory>
    ensures { OnOk result (line.new ≡ line.old ++ flat_map worded_char (chars text.now)) }
{
    for c in text.chars() {
        push_char(line, c)?;
    }
    Ok(())
}

/// Appends a text between quotation marks, printable characters as themselves.
fn push_utf8(line: &mut Bytes, text: &str) -> Result<(), NoMemory>
    ensures { OnOk result (line.new ≡ line.old ++ worded_utf8 text.now) }
{
    line.extend(b"\"")?;
    push_chars(line, text)?;
    line.extend(b"\"")
}

/// Appends octets between quotation marks.
pub(crate) fn push_worded(line: &mut Bytes, utf8: bool, octets: &[u8]) -> Result<(), NoMemory>
    ensures { OnOk result (line.new ≡ line.old ++ worded utf8 octets.now) }
{
    if !utf8 {
        return push_quoted(line, octets);
    }
    match str::from_utf8(octets) {
        Ok(text) => push_utf8(line, text),
        Err(_) => push_quoted(line, octets),
    }
}

/// Appends a text of UTF-16 between quotation marks.
fn push_wide(
    alloc: Global,
    line: &mut Bytes,
    utf8: bool,
    little: bool,
    octets: &[u8],
) -> Result<(), NoMemory>
    ensures { OnOk result (line.new ≡ line.old ++ worded utf8 (from_wide little octets.now)) }
{
    let units = units_of(alloc, little, octets)?;
    let text = String::from_utf16_lossy(alloc, &units)?;
    push_worded(line, utf8, text.as_bytes())
}

/// Appends the octets of a text between quotation marks.
pub(crate) fn push_text(
    alloc: Global,
    line: &mut Bytes,
    wording: Wording,
    octets: &[u8],
) -> Result<(), NoMemory>
    ensures { OnOk result (line.new
        ≡ line.old ++ worded wording.shown.utf8 (text_in_utf8 wording.encoding octets.now)) }
{
    match wording.encoding {
        TextEncoding::Utf8 => push_worded(line, wording.shown.utf8, octets),
        TextEncoding::BigEndian => push_wide(alloc, line, wording.shown.utf8, false, octets),
        TextEncoding::LittleEndian => push_wide(alloc, line, wording.shown.utf8, true, octets),
    }
}

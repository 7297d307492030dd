//! Texts that spell bytes.
ghost use Rattle.std.specs.Prelude.{◌≡◌, ◌==◌, not};
ghost use Rattle.std.specs.List.{count_by, list_all, list_any};
ghost use Rattle.ndef_diagnostics.specs.Dumps.{is_star, lines_of};
ghost use Rattle.ndef_diagnostics.specs.DumpTexts.{are_digits, are_padding, base64_value, is_base64, is_base64_digit};
ghost use Rattle.ndef_diagnostics.specs.DumpTexts.{is_dump, is_first_digit, is_last_digit, is_od_line, is_of_proxmark};
ghost use Rattle.ndef_diagnostics.specs.DumpTexts.{is_suppressed, last_digit, may_be_base64, padding_of, text_by, text_of};

use crate::begun::after;
use crate::dump::read_in;
use crate::dump_form::{DumpForm, are_pairs, form_of};
use crate::dump_gaps::is_star;
use crate::dump_words::{before_octet, cut_line, is_blank};

/// A text that spells bytes, given in place of them.
#[derive(Clone, Copy, Debug, PartialEq, Eq, Hash)]
pub enum DumpText {
    /// Digits, with or without what separates them.
    Digits,
    /// A dump by `xxd`.
    Xxd,
    /// A dump by `hexdump -C`.
    Hexdump,
    /// A dump by `od -t x1`.
    Od,
    /// A dump by `od -An -t x1` with `*` in place of lines, and no places that say how many.
    Suppressed,
    /// A dump by `hexdump` or `od` that shows words in place of bytes.
    Words,
    /// An NFC file of a Flipper.
    Flipper,
    /// The output of the client of a Proxmark.
    Proxmark,
    /// Base64 (RFC 4648, section 4).
    Base64,
}

/// The text of a dump of a form.
fn text_by(form: DumpForm) -> DumpText
    ensures { result ≡ text_by form }
{
    match form {
        DumpForm::Digits | DumpForm::Decimals => DumpText::Digits,
        DumpForm::Xxd => DumpText::Xxd,
        DumpForm::Hexdump => DumpText::Hexdump,
        DumpForm::Od(_) => DumpText::Od,
        DumpForm::Words => DumpText::Words,
        DumpForm::Flipper => DumpText::Flipper,
    }
}

/// Whether the bytes are a dump of a form: it spells a byte or more, or is in words.
fn is_dump(form: DumpForm, bytes: &[u8]) -> bool
    ensures { result ≡ is_dump form bytes.now }
{
    match form {
        DumpForm::Words => true,
        _ => match read_in(form, bytes, &mut []) {
            Ok(count) => count > 0,
            Err(_) => false,
        },
    }
}

/// Whether a line is as `od -An -t x1` writes it: pairs of digits, or `*` in place of lines.
fn is_od_line(line: &[u8]) -> bool
    ensures { result ≡ is_od_line line.now }
{
    is_star(line) || are_pairs(line)
}

/// Whether each line of a text is as `od -An -t x1` writes it.
fn are_od_lines(text: &[u8]) -> bool
    ensures { result ≡ list_all is_od_line (lines_of text.now) }
{
    let (mut line, mut rest) = cut_line(text);
    while is_od_line(line) {
        let Some(more) = rest else {
            return true;
        };
        (line, rest) = cut_line(more);
    }
    false
}

/// Whether a text has a line `*`.
fn has_star(text: &[u8]) -> bool
    ensures { result ≡ list_any is_star (lines_of text.now) }
{
    let (mut line, mut rest) = cut_line(text);
    while !is_star(line) {
        let Some(more) = rest else {
            return false;
        };
        (line, rest) = cut_line(more);
    }
    true
}

/// Whether the bytes are a dump by `od -An -t x1` in which `*` is in place of lines.
fn is_suppressed(bytes: &[u8]) -> bool
    ensures { result ≡ is_suppressed bytes.now }
{
    let first = before_octet(bytes, b'\n');
    !is_blank(first) && are_pairs(first) && has_star(bytes) && are_od_lines(bytes)
}

/// Whether the bytes are what the client of a Proxmark prints.
fn is_of_proxmark(bytes: &[u8]) -> bool
    ensures { result ≡ is_of_proxmark bytes.now }
{
    bytes.starts_with(b"[=]") || bytes.starts_with(b"[+]") || bytes.starts_with(b"[usb]")
}

/// Whether an octet is a digit of base64.
fn is_base64_digit(octet: u8) -> bool
    ensures { result ≡ is_base64_digit octet }
{
    matches!(octet, b'/'..=b'9' | b'A'..=b'Z' | b'a'..=b'z' | b'+')
}

/// The value of a digit of base64; 63 of any other.
fn base64_value(octet: u8) -> u8
    ensures { result ≡ base64_value octet }
{
    match octet {
        b'A'..=b'Z' => octet - 65,
        b'a'..=b'z' => octet - 71,
        b'0'..=b'9' => octet + 4,
        b'+' => 62,
        _ => 63,
    }
}

/// Whether all of the bytes are digits of base64 or line feeds.
fn are_digits(bytes: &[u8]) -> bool
    ensures { result ≡ are_digits bytes.now }
{
    bytes
        .iter()
        .all(|octet| is_base64_digit(*octet) || *octet == 10)
}

/// Whether all of the bytes are padding of base64 or line feeds.
fn are_padding(bytes: &[u8]) -> bool
    ensures { result ≡ are_padding bytes.now }
{
    bytes.iter().all(|octet| *octet == b'=' || *octet == 10)
}

/// The number of bytes that are no line feeds.
fn count_digits(bytes: &[u8]) -> usize
    ensures { result ≡ count_by (λ octet. not (octet == 10)) bytes.now }
{
    bytes.iter().filter(|octet| **octet != 10).count()
}

/// The number of bytes that are padding.
fn count_padding(bytes: &[u8]) -> usize
    ensures { result ≡ count_by (λ octet. octet == 0x3D) bytes.now }
{
    bytes.iter().filter(|octet| **octet == b'=').count()
}

/// The last of the bytes that is no line feed; 0 if there is none.
fn last_digit(bytes: &[u8]) -> u8
    ensures { result ≡ last_digit bytes.now }
{
    let mut last = 0;
    for octet in bytes {
        if *octet != 10 {
            last = *octet;
        }
    }
    last
}

/// Whether a digit may be the last before this number of characters of padding.
fn is_last_digit(digit: u8, padding: usize) -> bool
    ensures { result ≡ is_last_digit digit padding }
{
    match padding {
        0 => true,
        1 => base64_value(digit) % 4 == 0,
        2 => base64_value(digit) % 16 == 0,
        _ => false,
    }
}

/// The bytes from the first padding on.
fn padding_of(bytes: &[u8]) -> &[u8]
    ensures { result.now ≡ padding_of bytes.now }
{
    after(bytes, before_octet(bytes, b'=').len())
}

/// Whether the bytes are base64, which only line feeds separate.
fn is_base64(bytes: &[u8]) -> bool
    ensures { result ≡ is_base64 bytes.now }
{
    let digits = before_octet(bytes, b'=');
    are_digits(digits)
        && are_padding(padding_of(bytes))
        && count_digits(bytes) % 4 == 0
        && is_last_digit(last_digit(digits), count_padding(bytes))
}

/// Whether a digit of base64 is one with which a message begins.
fn is_first_digit(octet: u8) -> bool
    ensures { result ≡ is_first_digit octet }
{
    matches!(octet, b'g'..=b'z' | b'/'..=b'9' | b'+')
}

/// Whether the bytes are base64, and the first is a digit with which a message begins.
fn may_be_base64(bytes: &[u8]) -> bool
    ensures { result ≡ may_be_base64 bytes.now }
{
    match bytes {
        [] => false,
        [octet, ..] => is_first_digit(*octet) && is_base64(bytes),
    }
}

/// The text that the bytes are in place of those that it spells; None if they are none.
pub fn text_of(bytes: &[u8]) -> Option<DumpText>
    ensures { result ≡ text_of bytes.now }
{
    let form = form_of(bytes);
    if is_dump(form, bytes) {
        Some(text_by(form))
    } else if is_suppressed(bytes) {
        Some(DumpText::Suppressed)
    } else if is_of_proxmark(bytes) {
        Some(DumpText::Proxmark)
    } else if may_be_base64(bytes) {
        Some(DumpText::Base64)
    } else {
        None
    }
}

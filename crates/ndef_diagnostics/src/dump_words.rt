//! The characters, words, lines and numbers of dumps.
ghost use Rattle.std.specs.Prelude.{◌≡◌, ◌==◌, ◌∷◌, ◌<◌, [], IfSome, Some, length};
ghost use Rattle.std.specs.List.{after_first, before_first, position_or_len};
ghost use Rattle.std.specs.Option.{option_map_or};
ghost use Rattle.ndef_diagnostics.specs.Dumps.{is_blank, is_character, is_digit, is_separator, lines_of, next_line};
ghost use Rattle.ndef_diagnostics.specs.Dumps.{number_in, one_digit_more, value_of, without_prefix, words_of};

use crate::begun::{after, front_of};

/// Whether an octet separates words: a tab, a line feed, a carriage return, a space, a comma, a dash or a colon.
pub(crate) fn is_separator(octet: u8) -> bool
    ensures { result ≡ is_separator octet }
{
    matches!(octet, 9 | 10 | 13 | 32 | b',' | b'-' | b':')
}

/// Whether an octet is a hexadecimal digit.
pub(crate) fn is_digit(octet: u8) -> bool
    ensures { result ≡ is_digit octet }
{
    matches!(octet, b'0'..=b'9' | b'A'..=b'F' | b'a'..=b'f')
}

/// Whether an octet is a printable character of ASCII, a tab, a line feed or a carriage return.
pub(crate) fn is_character(octet: u8) -> bool
    ensures { result ≡ is_character octet }
{
    matches!(octet, 9 | 10 | 13 | 32..=126)
}

/// The value of a hexadecimal digit; 0 if it is none.
pub(crate) fn value_of(octet: u8) -> u8
    ensures value { result ≡ value_of octet }
    ensures small { result < 16 }
{
    match octet {
        b'0'..=b'9' => octet - 0x30,
        b'A'..=b'F' => octet - 0x37,
        b'a'..=b'f' => octet - 0x57,
        _ => 0,
    }
}

/// A word without the prefix `0x` or `0X`.
pub(crate) fn without_prefix(word: &[u8]) -> &[u8]
    ensures { result.now ≡ without_prefix word.now }
{
    if word.starts_with(b"0x") || word.starts_with(b"0X") {
        after(word, 2)
    } else {
        word
    }
}

/// Whether a line has only separators.
pub(crate) fn is_blank(line: &[u8]) -> bool
    ensures { result ≡ is_blank line.now }
{
    line.iter().all(|octet| is_separator(*octet))
}

/// The number of characters before the first separator.
fn word_length(text: &[u8]) -> usize
    ensures { result ≡ position_or_len is_separator text.now }
{
    text.iter()
        .take_while(|octet| !is_separator(**octet))
        .count()
}

/// Returns the first word, and the text after the separator that ends it, if there is one.
#[tactic(auto, using(crate::proofs::Cuts::cut_here, crate::proofs::Cuts::cut_nowhere))]
pub(crate) fn cut_word(text: &[u8]) -> (&[u8], Option<&[u8]>)
    ensures split { words_of text.now
        ≡ result.0.now ∷ option_map_or (λ rest. words_of rest.now) result.1 [] }
    ensures shorter { IfSome result.1 (λ rest. length rest.now < length text.now) }
{
    let count = word_length(text);
    if count < text.len() {
        (front_of(text, count), Some(after(text, count + 1)))
    } else {
        (text, None)
    }
}

/// The number of characters before the first such octet.
fn length_before(text: &[u8], octet: u8) -> usize
    ensures { result ≡ position_or_len (λ other. other == octet) text.now }
{
    text.iter().take_while(|other| **other != octet).count()
}

/// The text before the first such octet; all of it if there is none.
pub(crate) fn before_octet(text: &[u8], octet: u8) -> &[u8]
    ensures { result.now ≡ before_first (λ other. other == octet) text.now }
{
    front_of(text, length_before(text, octet))
}

/// The text after the first such octet; nothing if there is none.
pub(crate) fn after_octet(text: &[u8], octet: u8) -> &[u8]
    ensures { result.now ≡ after_first (λ other. other == octet) text.now }
{
    after(after(text, length_before(text, octet)), 1)
}

/// Returns the first line, and the text after the line feed that ends it, if there is one.
#[tactic(auto, using(crate::proofs::Cuts::cut_here, crate::proofs::Cuts::cut_nowhere))]
pub(crate) fn cut_line(text: &[u8]) -> (&[u8], Option<&[u8]>)
    ensures split { lines_of text.now
        ≡ result.0.now ∷ option_map_or (λ rest. lines_of rest.now) result.1 [] }
    ensures shorter { IfSome result.1 (λ rest. length rest.now < length text.now) }
{
    let count = length_before(text, b'\n');
    if count < text.len() {
        (front_of(text, count), Some(after(text, count + 1)))
    } else {
        (text, None)
    }
}

/// The first line of the rest of a text.
pub(crate) fn next_line(rest: Option<&[u8]>) -> &[u8]
    ensures { result.now ≡ next_line (option_map_or (λ more. lines_of more.now) rest.entry []) }
{
    match rest {
        Some(more) => cut_line(more).0,
        None => &[],
    }
}

/// The number that one digit more makes in a base; None if it is no digit of it, or the number before it is large.
fn one_digit_more(base: u8, number: Option<u64>, digit: u8) -> Option<u64>
    ensures { result ≡ one_digit_more base number digit }
{
    let before = number?;
    let value = u64::from(value_of(digit));
    if is_digit(digit) && value < u64::from(base) && before < 0x1_0000_0000 {
        Some(before * u64::from(base) + value)
    } else {
        None
    }
}

/// The number that digits spell in a base.
pub(crate) fn number_in(base: u8, digits: &[u8]) -> Option<u64>
    ensures { result ≡ number_in base digits.now }
{
    let mut number = Some(0);
    for digit in digits {
        number = one_digit_more(base, number, *digit);
    }
    number
}

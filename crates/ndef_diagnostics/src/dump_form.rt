//! The forms of dumps, and the parts of their lines.
ghost use Rattle.std.specs.Prelude.{◌≡◌, ◌==◌, [], if◌then◌else◌};
ghost use Rattle.std.specs.List.{list_all, list_any, prefix_len};
ghost use Rattle.ndef_diagnostics.specs.Dumps.{after_place, are_decimals, are_prefixed_pairs, before_gap, between};
ghost use Rattle.ndef_diagnostics.specs.Dumps.{form_of, has_pairs, inside, is_blank, is_by_od, is_character};
ghost use Rattle.ndef_diagnostics.specs.Dumps.{is_dash, is_digit, is_last_place, is_list, is_octet, is_od_gap};
ghost use Rattle.ndef_diagnostics.specs.Dumps.{is_of_hexdump, is_of_od, is_of_xxd, is_pair, is_uneven, last_line};
ghost use Rattle.ndef_diagnostics.specs.Dumps.{line_part, lines_of, list_form, od_form, od_part, page_part};
ghost use Rattle.ndef_diagnostics.specs.Dumps.{place_length, surrounded, text_part, words_of};

use crate::begun::{after, front_of};
use crate::dump_gaps::base_of;
use crate::dump_words::{
    after_octet, before_octet, cut_line, cut_word, is_blank, is_character, is_digit, number_in,
    without_prefix,
};

/// The form of a dump.
#[derive(Clone, Copy, PartialEq, Eq)]
pub(crate) enum DumpForm {
    /// Hexadecimal digits, with or without what separates them.
    Digits,
    /// Octets in decimal.
    Decimals,
    /// A dump by `xxd`.
    Xxd,
    /// A dump by `hexdump -C`.
    Hexdump,
    /// A dump by `od -t x1`, with places in this base.
    Od(u8),
    /// A dump by `od` or `hexdump` of more than one octet for a number.
    Words,
    /// An NFC file of a Flipper.
    Flipper,
}

/// The number of digits of the place with which a line of a dump begins.
pub(crate) fn place_length(line: &[u8]) -> usize
    ensures { result ≡ place_length line.now }
{
    line.iter().take_while(|octet| is_digit(**octet)).count()
}

/// The text after the place of a line.
fn after_place(line: &[u8]) -> &[u8]
    ensures { result.now ≡ after_place line.now }
{
    after(line, place_length(line))
}

/// The text before the first two spaces in a row.
#[tactic(auto, using(crate::proofs::Cuts::gap_more, crate::proofs::Cuts::gap_found))]
fn before_gap(text: &[u8]) -> &[u8]
    ensures { result.now ≡ before_gap text.now }
{
    let mut count = 0;
    while count < text.len() && !after(text, count).starts_with(b"  ") {
        count += 1;
    }
    front_of(text, count)
}

/// The part of a line of `od` with the octets.
fn od_part(line: &[u8]) -> &[u8]
    ensures { result.now ≡ od_part line.now }
{
    before_octet(after_place(line), b'>')
}

/// Whether a line is one of a dump by `xxd`.
pub(crate) fn is_of_xxd(line: &[u8]) -> bool
    ensures { result ≡ is_of_xxd line.now }
{
    place_length(line) >= 8 && after_place(line).starts_with(b": ")
}

/// Whether a line is one of a dump by `hexdump -C`.
fn is_of_hexdump(line: &[u8]) -> bool
    ensures { result ≡ is_of_hexdump line.now }
{
    place_length(line) >= 8 && after_place(line).starts_with(b"  ") && line.contains(&b'|')
}

/// Whether a line may be the first of a dump by `od`, or by `hexdump` with no option.
fn is_of_od(line: &[u8]) -> bool
    ensures { result ≡ is_of_od line.now }
{
    place_length(line) >= 6
        && place_length(line) <= 7
        && line.starts_with(b"0")
        && after_place(line).starts_with(b" ")
}

/// Whether a line has only a place, as the last of a dump by `od`.
fn is_last_place(line: &[u8]) -> bool
    ensures { result ≡ is_last_place line.now }
{
    place_length(line) >= 6 && is_blank(after_place(line))
}

/// The later of two lines, if it has more than separators.
fn later_line<'a>(last: &'a [u8], line: &'a [u8]) -> &'a [u8]
    ensures { result.now ≡ (if is_blank line.now then last.now else line.now) }
{
    if is_blank(line) { last } else { line }
}

/// The last line of a text that has more than separators.
fn last_line(text: &[u8]) -> &[u8]
    ensures { result.now ≡ last_line [] (lines_of text.now) }
{
    let mut last: &[u8] = &[];
    let (mut line, mut rest) = cut_line(text);
    while let Some(more) = rest {
        last = later_line(last, line);
        (line, rest) = cut_line(more);
    }
    later_line(last, line)
}

/// Whether a text is one by `od`, or by `hexdump` with no option.
fn is_by_od(text: &[u8]) -> bool
    ensures { result ≡ is_by_od text.now }
{
    let first = before_octet(text, b'\n');
    is_of_od(first) && (place_length(first) == 7 || is_last_place(last_line(text)))
}

/// Whether all characters of a word are hexadecimal digits.
fn are_digits(word: &[u8]) -> bool
    ensures { result ≡ list_all is_digit word.now }
{
    word.iter().all(|octet| is_digit(*octet))
}

/// Whether a word is empty or has two digits.
fn is_pair(word: &[u8]) -> bool
    ensures { result ≡ is_pair word.now }
{
    (word.len() == 0 || word.len() == 2) && are_digits(word)
}

/// Whether the words of a text are pairs of digits.
pub(crate) fn are_pairs(text: &[u8]) -> bool
    ensures { result ≡ list_all is_pair (words_of text.now) }
{
    let (mut word, mut rest) = cut_word(text);
    while is_pair(word) {
        let Some(more) = rest else {
            return true;
        };
        (word, rest) = cut_word(more);
    }
    false
}

/// Whether a word is empty or spells an octet in decimal.
fn is_octet(word: &[u8]) -> bool
    ensures { result ≡ is_octet word.now }
{
    word.len() <= 3
        && match number_in(10, word) {
            Some(number) => number <= 255,
            None => false,
        }
}

/// Whether the words of a text spell octets in decimal.
fn are_octets(text: &[u8]) -> bool
    ensures { result ≡ list_all is_octet (words_of text.now) }
{
    let (mut word, mut rest) = cut_word(text);
    while is_octet(word) {
        let Some(more) = rest else {
            return true;
        };
        (word, rest) = cut_word(more);
    }
    false
}

/// Whether a word has one character or three.
fn is_uneven(word: &[u8]) -> bool
    ensures { result ≡ is_uneven word.now }
{
    word.len() == 1 || word.len() == 3
}

/// Whether a word of a text has one character or three.
fn has_uneven(text: &[u8]) -> bool
    ensures { result ≡ list_any is_uneven (words_of text.now) }
{
    let (mut word, mut rest) = cut_word(text);
    while !is_uneven(word) {
        let Some(more) = rest else {
            return false;
        };
        (word, rest) = cut_word(more);
    }
    true
}

/// Whether a text has a dash or a colon.
fn has_dash(text: &[u8]) -> bool
    ensures { result ≡ list_any is_dash text.now }
{
    text.iter().any(|octet| matches!(*octet, b'-' | b':'))
}

/// Whether a text is a list of octets in decimal.
fn are_decimals(text: &[u8]) -> bool
    ensures { result ≡ are_decimals text.now }
{
    !has_dash(text) && are_octets(text) && has_uneven(text)
}

/// The text after the first of one character, up to the next of another.
fn between(first: u8, last: u8, text: &[u8]) -> &[u8]
    ensures { result.now ≡ between first last text.now }
{
    before_octet(after_octet(text, first), last)
}

/// The text in the first braces of a text; else in its first brackets; else all of it.
fn surrounded(text: &[u8]) -> &[u8]
    ensures { result.now ≡ surrounded text.now }
{
    if text.contains(&b'{') {
        between(b'{', b'}', text)
    } else if text.contains(&b'[') {
        between(b'[', b']', text)
    } else {
        text
    }
}

/// Whether the words of a text are pairs of digits, which may have the prefix `0x`.
fn are_prefixed_pairs(text: &[u8]) -> bool
    ensures { result ≡ are_prefixed_pairs text.now }
{
    let (mut word, mut rest) = cut_word(text);
    while is_pair(without_prefix(word)) {
        let Some(more) = rest else {
            return true;
        };
        (word, rest) = cut_word(more);
    }
    false
}

/// Whether a text is the octets of a list in a program.
fn is_list(text: &[u8]) -> bool
    ensures { result ≡ is_list text.now }
{
    are_decimals(text) || (!has_dash(text) && are_prefixed_pairs(text))
}

/// Whether a text is printable ASCII in lines.
fn is_ascii(text: &[u8]) -> bool
    ensures { result ≡ list_all is_character text.now }
{
    text.iter().all(|octet| is_character(*octet))
}

/// The list in a text of a program, which is ASCII; else all of the text.
fn inside(text: &[u8]) -> &[u8]
    ensures { result.now ≡ inside text.now }
{
    let list = surrounded(text);
    if is_ascii(text) && is_list(list) {
        list
    } else {
        text
    }
}

/// The number of spaces with which a text begins.
fn space_count(text: &[u8]) -> usize
    ensures { result ≡ prefix_len (λ octet. octet == 32) text.now }
{
    text.iter().take_while(|octet| **octet == 32).count()
}

/// Whether a text begins as what follows a place of `od -t x1`: with one space, or four.
fn is_od_gap(text: &[u8]) -> bool
    ensures { result ≡ is_od_gap text.now }
{
    space_count(text) == 1 || space_count(text) == 4
}

/// Whether a line is a first one of `od -t x1`.
fn has_pairs(line: &[u8]) -> bool
    ensures { result ≡ has_pairs line.now }
{
    is_od_gap(after_place(line)) && are_pairs(od_part(line))
}

/// The form of a text by `od`.
fn od_form(text: &[u8]) -> DumpForm
    ensures { result ≡ od_form text.now }
{
    if has_pairs(before_octet(text, b'\n')) {
        DumpForm::Od(base_of(text))
    } else {
        DumpForm::Words
    }
}

/// The form of a list.
fn list_form(text: &[u8]) -> DumpForm
    ensures { result ≡ list_form text.now }
{
    if are_decimals(inside(text)) {
        DumpForm::Decimals
    } else {
        DumpForm::Digits
    }
}

/// The form of a dump.
pub(crate) fn form_of(text: &[u8]) -> DumpForm
    ensures { result ≡ form_of text.now }
{
    let first = before_octet(text, b'\n');
    if text.starts_with(b"Filetype: Flipper") {
        DumpForm::Flipper
    } else if is_of_xxd(first) {
        DumpForm::Xxd
    } else if is_of_hexdump(first) {
        DumpForm::Hexdump
    } else if is_by_od(text) {
        od_form(text)
    } else {
        list_form(text)
    }
}

/// The part of a line of a Flipper's file with the octets.
fn page_part(line: &[u8]) -> &[u8]
    ensures { result.now ≡ page_part line.now }
{
    if line.starts_with(b"Page ") {
        after_octet(line, b':')
    } else {
        &[]
    }
}

/// The part of a line that has its digits.
pub(crate) fn line_part(form: DumpForm, line: &[u8]) -> &[u8]
    ensures { result.now ≡ line_part form line.now }
{
    match form {
        DumpForm::Digits | DumpForm::Decimals | DumpForm::Words => line,
        DumpForm::Xxd => before_gap(after(after_place(line), 2)),
        DumpForm::Hexdump => before_octet(after_place(line), b'|'),
        DumpForm::Od(_) => od_part(line),
        DumpForm::Flipper => page_part(line),
    }
}

/// The part of a text that has its digits.
pub(crate) fn text_part(form: DumpForm, text: &[u8]) -> &[u8]
    ensures { result.now ≡ text_part form text.now }
{
    match form {
        DumpForm::Digits | DumpForm::Decimals => inside(text),
        _ => text,
    }
}

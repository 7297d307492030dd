//! Dumps, which are texts that spell bytes.
ghost use Rattle.std.specs.Prelude.{◌≡◌, ◌<◌, ℕ, List, Ok, IfNone, IfSome, [], length};
ghost use Rattle.std.specs.List.{fold};
ghost use Rattle.ndef_diagnostics.specs.Dumps.{counted, digits_after, digits_of, dump_in, dump_of, first_fault};
ghost use Rattle.ndef_diagnostics.specs.Dumps.{line_fault, lines_of, source_digits, source_of, spelled_by, text_fault, written};
ghost use Rattle.ndef_diagnostics.specs.Filled.{nothing, octet_count, put};

use crate::dump_digits::{MOST_DIGITS, NOTHING, Spelled, put_times};
use crate::dump_form::{DumpForm, form_of, text_part};
use crate::dump_gaps::{digit_count, gap_of, is_fit, is_star};
use crate::dump_words::{cut_line, next_line};

/// Why a text spells no bytes.
#[derive(Clone, Copy, Debug, PartialEq, Eq, Hash)]
pub enum DumpFault {
    /// An odd number of digits.
    Odd,
    /// The character at this place among those of the words is no digit.
    BadDigit(u64),
    /// The line of this number has no place and colon, in a dump by `xxd`.
    NoPlace(u64),
    /// The line of this number is `*`, and no line can be repeated in its place.
    Repeated(u64),
    /// It spells more than 16777216 bytes.
    TooLong,
    /// Its numbers are words of more than one byte, or characters.
    Words,
}

/// The fault of the line of a number, between two others.
fn line_fault(
    form: DumpForm,
    number: u64,
    before: &[u8],
    line: &[u8],
    next: &[u8],
) -> Option<DumpFault>
    ensures { result ≡ line_fault form number before.now line.now next.now }
{
    if is_star(line) {
        match gap_of(form, before, next) {
            Some(_) => None,
            None => Some(DumpFault::Repeated(number)),
        }
    } else if is_fit(form, line) {
        None
    } else {
        Some(DumpFault::NoPlace(number))
    }
}

/// The fault of the first line that has one.
fn first_fault(form: DumpForm, text: &[u8]) -> Option<DumpFault>
    ensures { result ≡ first_fault form 1 [] (lines_of text.now) }
{
    let mut before: &[u8] = &[];
    let (mut line, mut rest) = cut_line(text);
    let mut number = 1;
    loop {
        if let Some(fault) = line_fault(form, number, before, line, next_line(rest)) {
            return Some(fault);
        }
        let more = rest?;
        before = line;
        (line, rest) = cut_line(more);
        number += 1;
    }
}

/// How often which line's digits are in place of a line between two others; None if that is too often.
fn source_of<'a>(
    form: DumpForm,
    before: &'a [u8],
    line: &'a [u8],
    next: &[u8],
) -> Option<(u64, &'a [u8])>
    ensures some { IfSome result (λ source. (source.0, source.1.now) ≡ source_of form before.now line.now next.now) }
    ensures none { IfNone result (33554432
        < length (source_digits form (source_of form before.now line.now next.now))) }
{
    if !is_star(line) {
        return Some((1, line));
    }
    match gap_of(form, before, next) {
        Some(gap) if gap > MOST_DIGITS => None,
        Some(gap) => Some((gap / (digit_count(form, before) / 2), before)),
        None => Some((1, line)),
    }
}

/// Reads the digits of the lines of a text; None if they are too many.
fn put_lines(form: DumpForm, text: &[u8], out: &mut [u8]) -> Option<Spelled>
    ensures some { IfSome result (λ spelled.
        (spelled, out.new) ≡ fold put (nothing, out.old) (digits_after form [] (lines_of text.now))) }
    ensures none { IfNone result (33554432 < length (digits_after form [] (lines_of text.now))) }
{
    let mut before: &[u8] = &[];
    let (mut line, mut rest) = cut_line(text);
    let mut spelled = NOTHING;
    while spelled.count <= MOST_DIGITS {
        let (count, source) = source_of(form, before, line, next_line(rest))?;
        spelled = put_times(spelled, count, form, source, out);
        let Some(more) = rest else {
            return Some(spelled);
        };
        before = line;
        (line, rest) = cut_line(more);
    }
    None
}

/// The number of octets of the digits that were read, or their fault.
fn octet_count(spelled: Spelled) -> Result<u64, DumpFault>
    ensures { result ≡ octet_count spelled }
{
    if spelled.count > MOST_DIGITS {
        return Err(DumpFault::TooLong);
    }
    if spelled.count % 2 == 1 {
        return Err(DumpFault::Odd);
    }
    match spelled.bad {
        Some(place) => Err(DumpFault::BadDigit(place)),
        None => Ok(spelled.count / 2),
    }
}

/// The fault of a text of a form, in its words or its lines.
fn text_fault(form: DumpForm, text: &[u8]) -> Option<DumpFault>
    ensures { result ≡ text_fault form text.now }
{
    match form {
        DumpForm::Words => Some(DumpFault::Words),
        _ => first_fault(form, text),
    }
}

/// Reads the octets that the digits of a text of a form spell.
#[tactic(auto, using(crate::proofs::Filled::count_large, crate::proofs::Filled::none_large))]
fn read_digits(form: DumpForm, text: &[u8], out: &mut [u8]) -> Result<u64, DumpFault>
    ensures count { result ≡ counted (spelled_by (digits_of form text.now)) }
    ensures octets { (octets : List ℕ) → spelled_by (digits_of form text.now) ≡ Ok octets
        → out.new ≡ written octets out.old }
{
    match put_lines(form, text_part(form, text), out) {
        Some(spelled) => octet_count(spelled),
        None => Err(DumpFault::TooLong),
    }
}

/// Reads the octets that a text of a form spells.
pub(crate) fn read_in(form: DumpForm, text: &[u8], out: &mut [u8]) -> Result<u64, DumpFault>
    ensures count { result ≡ counted (dump_in form text.now) }
    ensures octets { (octets : List ℕ) → dump_in form text.now ≡ Ok octets → out.new ≡ written octets out.old }
{
    match text_fault(form, text) {
        Some(fault) => Err(fault),
        None => read_digits(form, text, out),
    }
}

/// Reads the bytes that a text spells: returns their number, and writes them to the front of `out`, as many as it has
/// space for; the rest of it is unchanged. With a fault what is in `out` is not said.
pub fn read_dump(text: &[u8], out: &mut [u8]) -> Result<u64, DumpFault>
    ensures count { result ≡ counted (dump_of text.now) }
    ensures octets { (octets : List ℕ) → dump_of text.now ≡ Ok octets → out.new ≡ written octets out.old }
{
    read_in(form_of(text), text, out)
}

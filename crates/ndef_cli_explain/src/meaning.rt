//! The meaning of the octets of a field.
ghost use Rattle.std.specs.Prelude.{◌≡◌, ◌++◌, OnOk, slice_index};
ghost use Rattle.ndef_cli_explain.specs.Codes.{code_text, prefix_word};
ghost use Rattle.ndef_cli_explain.specs.Meanings.{cut_text, flags_text, meaning_of, number_text};
ghost use Rattle.ndef_cli_explain.specs.Meanings.{octets_number, reading_of, said, status_text};
ghost use Rattle.ndef_cli_explain.specs.Meanings.{tnf_meaning, version_text, whole_length, whole_of};

use crate::codes::{
    ACTION_WORDS, ERROR_WORDS, TNF_WORDS, push_code, push_format, push_power, push_prefix_word,
    word_of,
};
use crate::fields::PrintedField;
use crate::wording::{push_text, push_worded};
use ndef_cli::push_number;
use ndef_fields::{Field, FieldName};
use ndef_value::{Bytes, NoMemory};
use std::alloc::Global;

/// The way in which the octets of a field are read.
#[derive(Clone, Copy)]
pub(crate) enum FieldReading {
    /// The flags and the type name format of a header octet.
    Header,
    /// A number.
    Number,
    /// A URI identifier code, which denotes a prefix.
    Prefix,
    /// The action of a smart poster.
    Action,
    /// The reason of a handover error.
    ErrorReason,
    /// A carrier power state in two bits.
    PowerState,
    /// A carrier type format in three bits.
    Format,
    /// The major and the minor version of a handover.
    Version,
    /// Text, or bytes that mostly are.
    Quoted,
    /// The characters of a text, in its encoding.
    Text,
    /// The status octet of a text.
    Status,
    /// Octets that speak for themselves.
    Octets,
}

/// Returns the way in which the octets of a field of this name are read.
fn reading_of(name: FieldName) -> FieldReading
    ensures { result ≡ reading_of name }
{
    match name {
        FieldName::Header => FieldReading::Header,
        FieldName::Status => FieldReading::Status,
        FieldName::KindLength
        | FieldName::PayloadLength
        | FieldName::IdLength
        | FieldName::Size
        | FieldName::ReferenceLength
        | FieldName::AuxiliaryCount
        | FieldName::AuxiliaryLength
        | FieldName::CarrierKindLength
        | FieldName::Collision => FieldReading::Number,
        FieldName::UriCode => FieldReading::Prefix,
        FieldName::Action => FieldReading::Action,
        FieldName::ErrorReason => FieldReading::ErrorReason,
        FieldName::Power => FieldReading::PowerState,
        FieldName::CarrierFormat => FieldReading::Format,
        FieldName::Version => FieldReading::Version,
        FieldName::Kind
        | FieldName::Id
        | FieldName::Language
        | FieldName::UriRest
        | FieldName::MediaType
        | FieldName::Reference
        | FieldName::Auxiliary
        | FieldName::CarrierKind => FieldReading::Quoted,
        FieldName::Text => FieldReading::Text,
        _ => FieldReading::Octets,
    }
}

/// The first octet; 0 where there is none.
pub(crate) fn first(octets: &[u8]) -> u8
    ensures { result ≡ slice_index octets.now 0 }
{
    match octets {
        [octet, ..] => *octet,
        _ => 0,
    }
}

/// The number that two or four octets are, most significant first; of others that of the first.
fn number_of(octets: &[u8]) -> u32
    ensures { result ≡ octets_number octets.now }
{
    match octets {
        [a, b, c, d] => u32::from_be_bytes([*a, *b, *c, *d]),
        [a, b] => u32::from(u16::from_be_bytes([*a, *b])),
        _ => u32::from(first(octets)),
    }
}

/// The number of octets of a number of this name, in a record with this header octet (NDEF 1.0,
/// SR).
fn whole_length(name: FieldName, header: u8) -> usize
    ensures { result ≡ whole_length name header }
{
    match name {
        FieldName::PayloadLength => { if header >> 4 & 1 == 1 { 1 } else { 4 } }
        FieldName::Size => 4,
        FieldName::Collision => 2,
        _ => 1,
    }
}

/// The octet of these bytes at a place; 0 where there is none.
fn octet_at(bytes: &[u8], at: usize) -> u8
    ensures { result ≡ slice_index bytes.now at }
{
    match bytes.get(at) {
        Some(octet) => *octet,
        None => 0,
    }
}

/// The number of octets of a number that is this field of these bytes.
pub(crate) fn whole_of(bytes: &[u8], field: &Field) -> usize
    ensures { result ≡ whole_of bytes.now field.now }
{
    whole_length(field.name, octet_at(bytes, field.at.saturating_sub(2)))
}

/// Appends a word, if `is_said` holds.
fn push_said(line: &mut Bytes, is_said: bool, word: &[u8]) -> Result<(), NoMemory>
    ensures { OnOk result (line.new ≡ line.old ++ said is_said word.now) }
{
    if is_said { line.extend(word) } else { Ok(()) }
}

/// Appends the flags of a header octet.
fn push_flags(line: &mut Bytes, header: u8) -> Result<(), NoMemory>
    ensures { OnOk result (line.new ≡ line.old ++ flags_text header) }
{
    push_said(line, header >> 7 & 1 == 1, b" MB")?;
    push_said(line, header >> 6 & 1 == 1, b" ME")?;
    push_said(line, header >> 5 & 1 == 1, b" CF")?;
    push_said(line, header >> 4 & 1 == 1, b" SR")?;
    push_said(line, header >> 3 & 1 == 1, b" IL")
}

/// Appends the type name format of a header octet.
fn push_tnf(line: &mut Bytes, header: u8) -> Result<(), NoMemory>
    ensures { OnOk result (line.new ≡ line.old ++ tnf_meaning header) }
{
    line.extend(b" TNF ")?;
    push_number(line, u64::from(header % 8))?;
    line.extend(b" ")?;
    line.extend(word_of(&TNF_WORDS, header % 8))
}

/// Appends the meaning of the status octet of a text.
fn push_status(line: &mut Bytes, status: u8) -> Result<(), NoMemory>
    ensures { OnOk result (line.new ≡ line.old ++ status_text status) }
{
    if status >= 128 {
        line.extend(b" UTF-16")?;
    } else {
        line.extend(b" UTF-8")?;
    }
    line.extend(b", language code of ")?;
    push_number(line, u64::from(status % 64))
}

/// Appends the number of octets of a number that are there, where some are missing.
fn push_cut(line: &mut Bytes, count: usize, whole: usize) -> Result<(), NoMemory>
    ensures { OnOk result (line.new ≡ line.old ++ cut_text count whole) }
{
    line.extend(b" cut after ")?;
    push_number(line, count as u64)?;
    line.extend(b" of ")?;
    push_number(line, whole as u64)?;
    line.extend(b" octets")
}

/// Appends a number of `whole` octets, or the number of those that are there.
fn push_number_text(line: &mut Bytes, whole: usize, octets: &[u8]) -> Result<(), NoMemory>
    ensures { OnOk result (line.new ≡ line.old ++ number_text whole octets.now) }
{
    if octets.len() < whole {
        return push_cut(line, octets.len(), whole);
    }
    line.extend(b" ")?;
    push_number(line, u64::from(number_of(octets)))
}

/// Appends the major and the minor version.
fn push_version(line: &mut Bytes, octet: u8) -> Result<(), NoMemory>
    ensures { OnOk result (line.new ≡ line.old ++ version_text octet) }
{
    line.extend(b" ")?;
    push_number(line, u64::from(octet / 16))?;
    line.extend(b".")?;
    push_number(line, u64::from(octet % 16))
}

/// Appends a URI identifier code and its prefix.
fn push_prefix(line: &mut Bytes, code: u8) -> Result<(), NoMemory>
    ensures { OnOk result (line.new ≡ line.old ++ code_text code (prefix_word code)) }
{
    push_code(line, code, b"")?;
    push_prefix_word(line, code)
}

/// Appends the meaning of the octets of a field, after a blank, or nothing.
pub(crate) fn push_meaning(
    alloc: Global,
    line: &mut Bytes,
    report: &PrintedField<'_>,
) -> Result<(), NoMemory>
    ensures { OnOk result (line.new ≡ line.old ++ meaning_of (reading_of report.now.field.name)
        report.now.wording report.now.whole report.now.octets.now) }
{
    let octets = report.octets;
    let octet = first(octets);
    match reading_of(report.field.name) {
        FieldReading::Header => {
            push_flags(line, octet)?;
            push_tnf(line, octet)
        }
        FieldReading::Number => push_number_text(line, report.whole, octets),
        FieldReading::Prefix => push_prefix(line, octet),
        FieldReading::Action => push_code(line, octet, word_of(&ACTION_WORDS, octet)),
        FieldReading::ErrorReason => push_code(line, octet, word_of(&ERROR_WORDS, octet)),
        FieldReading::PowerState => push_power(line, octet),
        FieldReading::Format => push_format(line, octet),
        FieldReading::Version => push_version(line, octet),
        FieldReading::Quoted => {
            line.extend(b" ")?;
            push_worded(line, report.wording.shown.utf8, octets)
        }
        FieldReading::Text => {
            line.extend(b" ")?;
            push_text(alloc, line, report.wording, octets)
        }
        FieldReading::Status => push_status(line, octet),
        FieldReading::Octets => Ok(()),
    }
}

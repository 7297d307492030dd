//! The values that the standards forbid to write, though a strict reader accepts them.
ghost use Rattle.std.specs.Prelude.{◌≡◌, IfOk};
ghost use Rattle.std.specs.List.{list_any};
ghost use Rattle.ndef_format.specs.Kinds.{kind_of};
ghost use Rattle.ndef_format.specs.Nested.{IsNest};
ghost use Rattle.ndef_format.specs.declared.kind.Kind.TheVariants as kinds;
ghost use Rattle.ndef_format.specs.declared.profile.Profile.TheVariants.{Strict};
ghost use Rattle.ndef_format.specs.declared.table.Table.TheVariants as tables;
ghost use Rattle.ndef_value.specs.declared.limits.TheConstants.{MOST_RECORDS};
ghost use Rattle.ndef_cli_make.specs.Checking.{IsOfItsType};
ghost use Rattle.ndef_cli_make.specs.MayBeWritten.{HasBar, HasBarOf, bar_by, bar_in, bar_of, has_control, have_twins};
ghost use Rattle.ndef_cli_make.specs.MayBeWritten.{is_alternative, is_bad_text, is_bad_uri, is_control, is_text_item, is_twin};
ghost use Rattle.ndef_cli_make.specs.MayBeWritten.{lacks_language, language_in, poster_bar, request_bar};

use crate::UsageError;
use ndef_lang::Kind;
use ndef_types::{read_poster, read_request};
use ndef_value::{NoMemory, Profile, Record};
use std::alloc::Global;

/// The kind of a record's payload.
fn kind_of(item: &Record) -> Kind
    ensures { result ≡ kind_of item.now.tnf item.now.kind }
{
    Kind::of(item.tnf(), item.kind())
}

/// Whether one of these bytes is a character from 0 to 31.
fn any_control(bytes: &[u8]) -> bool
    ensures { result ≡ list_any is_control bytes.now }
{
    bytes.iter().any(|byte| *byte < 0x20)
}

/// Whether the URI of a payload has a character from 0 to 31 (RTD URI 1.0, URI field).
fn has_control(payload: &[u8]) -> bool
    ensures { result ≡ has_control payload.now }
{
    match payload {
        [_, rest @ ..] => any_control(rest),
        [] => false,
    }
}

/// Whether the text of a payload has no language code (RTD Text 1.0, language code).
fn lacks_language(payload: &[u8]) -> bool
    ensures { result ≡ lacks_language payload.now }
{
    match payload {
        [status, ..] => *status % 64 == 0,
        [] => true,
    }
}

/// Whether a record is a URI with a character from 0 to 31.
fn is_bad_uri(item: &Record) -> bool
    ensures { result ≡ is_bad_uri item.now }
{
    match kind_of(item) {
        Kind::Uri => has_control(item.payload()),
        _ => false,
    }
}

/// Whether a record is a text.
fn is_text_item(item: &Record) -> bool
    ensures { result ≡ is_text_item item.now }
{
    match kind_of(item) {
        Kind::Text => true,
        _ => false,
    }
}

/// Whether a record is a text without a language code.
fn is_bad_text(item: &Record) -> bool
    ensures { result ≡ is_bad_text item.now }
{
    is_text_item(item) && lacks_language(item.payload())
}

/// Returns the error for a forbidden value, from these findings.
fn bar_by(bad_uri: bool, bad_text: bool) -> Option<UsageError>
    ensures { result ≡ bar_by bad_uri bad_text }
{
    match (bad_uri, bad_text) {
        (true, _) => Some(UsageError::Control),
        (false, true) => Some(UsageError::NoLanguage),
        (false, false) => None,
    }
}

/// Returns the error for a forbidden URI or text, if the record has one.
fn value_bar(item: &Record) -> Option<UsageError>
    ensures { result ≡ bar_of item.now }
{
    bar_by(is_bad_uri(item), is_bad_text(item))
}

/// Whether one of the records is a URI with a character from 0 to 31.
fn any_bad_uri(records: &[Record]) -> bool
    ensures { result ≡ list_any is_bad_uri records.now }
{
    records.iter().any(|item| is_bad_uri(item))
}

/// Whether one of the records is a text without a language code.
fn any_bad_text(records: &[Record]) -> bool
    ensures { result ≡ list_any is_bad_text records.now }
{
    records.iter().any(|item| is_bad_text(item))
}

/// Returns the error for a forbidden value in one of the records, if there is one.
fn bar_in(records: &[Record]) -> Option<UsageError>
    ensures { result ≡ bar_in records.now }
{
    bar_by(any_bad_uri(records), any_bad_text(records))
}

/// The language code of the text of a payload.
fn language_in(payload: &[u8]) -> &[u8]
    ensures { result.now ≡ language_in payload.now }
{
    match payload {
        [status, rest @ ..] => {
            let length = usize::from(*status % 64);
            if length <= rest.len() {
                &rest[..length]
            } else {
                rest
            }
        }
        [] => payload,
    }
}

/// Whether two records are texts in one language.
fn is_twin(one: &Record, other: &Record) -> bool
    ensures { result ≡ is_twin one.now other.now }
{
    is_text_item(one)
        && is_text_item(other)
        && language_in(one.payload()).eq_ignore_ascii_case(language_in(other.payload()))
}

/// Whether one of the others is a text in the language of a record.
fn has_twin(one: &Record, others: &[Record]) -> bool
    ensures { result ≡ list_any (is_twin one.now) others.now }
{
    others.iter().any(|other| is_twin(one, other))
}

/// Whether two of the records are texts in one language.
fn have_twins(records: &[Record]) -> bool
    ensures { result ≡ have_twins records.now }
{
    let mut rest = records;
    while let [one, others @ ..] = rest {
        if has_twin(one, others) {
            return true;
        }
        rest = others;
    }
    false
}

/// Returns the error for a forbidden value in the records of a poster, if there is one.
fn poster_bar(records: &[Record]) -> Option<UsageError>
    ensures { result ≡ poster_bar records.now }
{
    match bar_in(records) {
        Some(usage_error) => Some(usage_error),
        None => {
            if have_twins(records) {
                Some(UsageError::TwoTitles)
            } else {
                None
            }
        }
    }
}

/// Whether a record is an alternative carrier.
fn is_alternative(item: &Record) -> bool
    ensures { result ≡ is_alternative item.now }
{
    match kind_of(item) {
        Kind::Alternative => true,
        _ => false,
    }
}

/// Whether one of the records is an alternative carrier.
fn any_alternative(records: &[Record]) -> bool
    ensures { result ≡ list_any is_alternative records.now }
{
    records.iter().any(|item| is_alternative(item))
}

/// Returns the error for a forbidden value in the records of a handover request, if there is one.
fn request_bar(records: &[Record]) -> Option<UsageError>
    ensures { result ≡ request_bar records.now }
{
    if any_alternative(records) {
        None
    } else {
        Some(UsageError::NoCarrier)
    }
}

/// Returns the error for a forbidden value in a poster, if there is one.
fn bar_of_poster(alloc: Global, item: &Record) -> Result<Option<UsageError>, NoMemory>
    requires { IsNest tables.SmartPoster MOST_RECORDS Strict item.now.payload }
    ensures { IfOk result (HasBarOf kinds.SmartPoster item.now) }
{
    let poster = read_poster(alloc, item.payload(), Profile::Strict)?;
    Ok(poster_bar(poster.message().records()))
}

/// Returns the error for a forbidden value in a request, if there is one.
fn bar_of_request(alloc: Global, item: &Record) -> Result<Option<UsageError>, NoMemory>
    requires { IsNest tables.Request MOST_RECORDS Strict item.now.payload }
    ensures { IfOk result (HasBarOf kinds.Request item.now) }
{
    let request = read_request(alloc, item.payload(), Profile::Strict)?;
    Ok(request_bar(request.message().records()))
}

/// Returns the error for a forbidden value in a record, if there is one. Only memory may fail, for the nested message.
pub(crate) fn bar_of(alloc: Global, item: &Record) -> Result<Option<UsageError>, NoMemory>
    requires { IsOfItsType item.now }
    ensures { IfOk result (HasBar item.now) }
{
    match kind_of(item) {
        Kind::SmartPoster => bar_of_poster(alloc, item),
        Kind::Request => bar_of_request(alloc, item),
        _ => Ok(value_bar(item)),
    }
}

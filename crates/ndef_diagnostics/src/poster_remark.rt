//! Remarks about the records of a smart poster.
ghost use Rattle.std.specs.Prelude.{◌≡◌};
ghost use Rattle.ndef_format.specs.declared.table.Table.TheVariants as tables;
ghost use Rattle.ndef_diagnostics.specs.RecordRemarks.{count_language, has_language_twice, is_title_again};
ghost use Rattle.ndef_diagnostics.specs.RecordRemarks.{is_title_in, is_title_kind, language_of, poster_remark};
ghost use Rattle.ndef_diagnostics.specs.RecordRemarks.{run_kind_in};

use crate::Remark;
use crate::begun::{after, front_of, octet_at};
use crate::few::whole_payload;
use ndef_lang::Kind;
use ndef_message::{Item, View};
use ndef_nest::Table;

/// Whether a record of a smart poster is a title.
fn is_title(item: &Item<'_>) -> bool
    ensures { result ≡ is_title_kind (run_kind_in tables.SmartPoster item.now) }
{
    match Table::SmartPoster.kind(item.tnf(), item.kind()) {
        Kind::Text => true,
        _ => false,
    }
}

/// The language code of a text.
fn language_of(payload: &[u8]) -> &[u8]
    ensures { result.now ≡ language_of payload.now }
{
    front_of(after(payload, 1), usize::from(octet_at(payload, 0) % 64))
}

/// Whether a record of a smart poster is a title in a language.
fn is_title_in(item: &Item<'_>, language: &[u8]) -> bool
    ensures { result ≡ is_title_in language.now item.now }
{
    is_title(item) && language_of(whole_payload(item)).eq_ignore_ascii_case(language)
}

/// The number of titles in a language.
fn count_language(poster: &View<'_>, language: &[u8]) -> usize
    ensures { result ≡ count_language language.now poster.now.runs }
{
    let mut count = 0;
    for item in poster.items() {
        if is_title_in(&item, language) {
            count += 1;
        }
    }
    count
}

/// Whether a record of a smart poster is a title in the language of another.
fn is_title_again(item: &Item<'_>, poster: &View<'_>) -> bool
    ensures { result ≡ is_title_again item.now poster.now.runs }
{
    is_title(item) && count_language(poster, language_of(whole_payload(item))) > 1
}

/// Whether two titles have the same language.
fn has_language_twice(poster: &View<'_>) -> bool
    ensures { result ≡ has_language_twice poster.now.runs poster.now.runs }
{
    for item in poster.items() {
        if is_title_again(&item, poster) {
            return true;
        }
    }
    false
}

/// Returns the remark about a smart poster.
pub(crate) fn poster_remark(poster: &View<'_>) -> Option<Remark>
    ensures { result ≡ poster_remark poster.now.runs }
{
    if has_language_twice(poster) {
        Some(Remark::SameLanguage)
    } else {
        None
    }
}

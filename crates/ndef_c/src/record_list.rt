//! Records that follow one another in a message that is written.
ghost use Rattle.std.specs.Prelude.{◌≡◌, ◌<◌, length, slice_get, Some, IfNone, IfSome};
ghost use Rattle.ndef_c.specs.PendingRecord.{IsMade, made_item};
ghost use Rattle.ndef_c.specs.RecordList.{HoldsMade, MayBeIn, series_items};

use crate::handover_parts::{NdefAlternativeWriting, alternative_made};
use crate::making::PendingRecord;
use crate::part::NdefPart;
use crate::poster_parts::{NdefIconWriting, NdefTitleWriting, icon_made, title_made};

/// Records that follow one another.
#[derive(Clone, Copy)]
pub(crate) enum RecordList<'a> {
    /// No record.
    Nothing,
    /// One record.
    One {
        made: PendingRecord<'a>,
    },
    /// The titles of a smart poster, which are parts of the bytes.
    Titles {
        bytes: &'a [u8],
        titles: &'a [NdefTitleWriting],
    },
    /// The icons of a smart poster, which are parts of the bytes.
    Icons {
        bytes: &'a [u8],
        icons: &'a [NdefIconWriting],
    },
    /// The alternative carriers of a handover, whose references are parts of the bytes.
    Alternatives {
        bytes: &'a [u8],
        references: &'a [NdefPart],
        alternatives: &'a [NdefAlternativeWriting],
    },
}

/// The number of records.
pub(crate) fn series_count(record_list: &RecordList<'_>) -> usize
    ensures { result ≡ length (series_items record_list.now) }
{
    match *record_list {
        RecordList::Nothing => 0,
        RecordList::One { made: _ } => 1,
        RecordList::Titles { bytes: _, titles } => titles.len(),
        RecordList::Icons { bytes: _, icons } => icons.len(),
        RecordList::Alternatives {
            bytes: _,
            references: _,
            alternatives,
        } => alternatives.len(),
    }
}

/// The element with the index.
fn element<T: Copy>(elements: &[T], index: usize) -> &T
    requires { index < length elements.now }
    ensures { slice_get elements.now index ≡ Some result.now }
{
    &elements[index]
}

/// The record with the index, if it may be written.
pub(crate) fn series_made<'a>(
    record_list: &RecordList<'a>,
    index: usize,
) -> Option<PendingRecord<'a>>
    requires holds { HoldsMade record_list.now }
    requires within { index < length (series_items record_list.now) }
    ensures none { IfNone result (¬ MayBeIn record_list.now index) }
    ensures may { IfSome result (λ _. MayBeIn record_list.now index) }
    ensures made { IfSome result IsMade }
    ensures item { IfSome result (λ m. slice_get (series_items record_list.now) index ≡ Some (made_item m)) }
{
    match *record_list {
        RecordList::Nothing => unreachable!(),
        RecordList::One { made } => Some(made),
        RecordList::Titles { bytes, titles } => title_made(bytes, element(titles, index)),
        RecordList::Icons { bytes, icons } => icon_made(bytes, element(icons, index)),
        RecordList::Alternatives {
            bytes,
            references,
            alternatives,
        } => alternative_made(bytes, references, element(alternatives, index)),
    }
}

//! The references of handovers to the records of the message.
ghost use Rattle.std.specs.Prelude.{◌≡◌, ◌∷◌, [], map};
ghost use Rattle.std.specs.List.{flat_map, list_any};
ghost use Rattle.std.specs.Str.{bytes_eq};
ghost use Rattle.ndef_cli_make.specs.Asked.{asked_part};
ghost use Rattle.ndef_cli_make.specs.CarrierWords.{references_left};
ghost use Rattle.ndef_cli_make.specs.References.{AreFound, is_id, references_in, references_of};

use crate::carrier_word::{References, link_said};
use crate::options::{Subject, subject_named};
use crate::parts::ParsedPart;
use crate::{Fault, Refused};
use ndef_value::{Name, Record};
use std::alloc::Global;

/// Whether a record has this id, if it isn't empty.
fn any_id(records: &[Record], id: &[u8]) -> bool
    ensures { result ≡ list_any (λ i. bytes_eq i.id id.now) records.now }
{
    records.iter().any(|item| item.id() == id)
}

/// Whether a record has this id; no record has the empty one.
fn is_id(records: &[Record], id: &[u8]) -> bool
    ensures { result ≡ is_id records.now id.now }
{
    !id.is_empty() && any_id(records, id)
}

/// Finds a record for a reference.
fn find(alloc: Global, records: &[Record], reference: &[u8]) -> Result<(), Fault>
    ensures { AreFound records.now (reference.now ∷ []) result }
{
    if is_id(records, reference) {
        return Ok(());
    }
    let reference = Name::from_slice(alloc, reference)?;
    Err(Fault::Refused(Refused::NoRecord(reference)))
}

/// Finds a record for each of these references.
fn find_each(alloc: Global, records: &[Record], references: References<'_>) -> Result<(), Fault>
    ensures { AreFound records.now (references_left references.entry) result }
{
    let mut rest = references;
    while let Some((reference, more)) = rest.next() {
        find(alloc, records, reference)?;
        rest = more;
    }
    Ok(())
}

/// Finds a record for each reference in the word of a carrier.
fn find_in_word(alloc: Global, records: &[Record], word: &str) -> Result<(), Fault>
    ensures { AreFound records.now (references_in word.now) result }
{
    match link_said(word) {
        Some(linked) => find_each(alloc, records, linked.references),
        None => Ok(()),
    }
}

/// Finds a record for each reference in the words of carriers.
fn find_in_words(alloc: Global, records: &[Record], words: &[&str]) -> Result<(), Fault>
    ensures { AreFound records.now (flat_map references_in (map (λ word. word.now) words.now)) result }
{
    for word in words {
        find_in_word(alloc, records, word)?;
    }
    Ok(())
}

/// Finds a record for each reference of a part.
pub(crate) fn find_in_part(
    alloc: Global,
    records: &[Record],
    said: &ParsedPart<'_>,
) -> Result<(), Fault>
    ensures { AreFound records.now (references_of (asked_part said.now)) result }
{
    match subject_named(said.name) {
        Some(Subject::Handover) => match said.matches.get_raw("carrier") {
            Some(words) => find_in_words(alloc, records, words),
            None => Ok(()),
        },
        _ => Ok(()),
    }
}

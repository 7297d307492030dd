//! Properties that the calls have together.
ghost use Rattle.ndef_c.specs.Feeding.{FeedsAreChecks};
ghost use Rattle.ndef_c.specs.Fields.{OneFieldWith, StepsLeadOn};
ghost use Rattle.ndef_c.specs.Growing.{FirstIsHeld, HeldAreAMessage, OthersAreHeld};
ghost use Rattle.ndef_c.specs.HandoverItems.{LinksAreItems, ReferencesAreItems};
ghost use Rattle.ndef_c.specs.HandoverMaking.{WrittenRequestsAreRead, WrittenSelectsAreRead};
ghost use Rattle.ndef_c.specs.Links.{LinksAreExact};
ghost use Rattle.ndef_c.specs.Numbers.{NumbersAreRefused};
ghost use Rattle.ndef_c.specs.PosterWrites.{WrittenPostersAreRead};
ghost use Rattle.ndef_c.specs.Walks.{ChecksAreWalked, OneRecordIsThere};
ghost use Rattle.ndef_c.specs.Writers.{WritersWriteRecords};
ghost use Rattle.ndef_c.specs.Writes.{RecordsMakeAMessage};

use ndef_lang::RecordLanguage;
use ndef_message::{answers_are_exact, steps_are_exact, views_are_exact, writing_is_spelling};
use ndef_types::{alternatives_are_exact, texts_are_exact, uris_are_exact};
use ndef_value::one_meaning;

/// A message that a check accepts is walked from offset 0 on: its records follow one another, each where the one before
/// it ends, and only the last of them is marked as the last.
pub fn checks_are_walked<L: RecordLanguage>()
    ensures { ChecksAreWalked L.payloads L.reasons }
{}

/// A checker that was fed the bytes in any parts answers what a check of them all answers.
pub fn feeds_are_checks<L: RecordLanguage>()
    ensures { FeedsAreChecks L.payloads L.reasons }
{
    views_are_exact::<L>();
    answers_are_exact::<L>();
}

/// At an offset begins one record, if any, and it ends at one offset.
pub fn one_record_is_there()
    ensures { OneRecordIsThere }
{}

/// Records that are written one after another, the first and the last marked as such, are the bytes that `encode` and
/// `encode_chunked` make of their message.
pub fn records_make_a_message()
    ensures { RecordsMakeAMessage }
{}

/// What the calls of `ndef_writer_next` write of a record, joined, is what `ndef_write_record` writes of it, once they
/// have answered `END`: whatever the parts of the payload and the buffers that they are given.
pub fn writers_write_records()
    ensures { WritersWriteRecords }
{
    steps_are_exact();
}

/// The records that `ndef_append` appends to a buffer follow one another, each written as its call requests,
/// and only the first and the last of them are marked as such.
pub fn appended_records_are_held()
    ensures first { FirstIsHeld }
    ensures others { OthersAreHeld }
{}

/// The records that a buffer holds are a message, whatever form and chunks were requested for each of them.
pub fn held_records_are_a_message()
    ensures { HeldAreAMessage }
{
    writing_is_spelling();
}

/// For a message that a check accepts and its handover, `ndef_link_at` gives exactly the links of the message, in their
/// order.
pub fn links_are_exact<L: RecordLanguage>()
    ensures { LinksAreExact L.payloads L.reasons }
{
    one_meaning();
    alternatives_are_exact();
}

/// A reference of `ndef_handover_items` lies in the payload of its carrier where `ndef_reference` and `ndef_references`
/// say, and the link of `ndef_links` at the offset of a carrier has the record to which its first reference refers.
pub fn handover_items_are_exact()
    ensures references { ReferencesAreItems }
    ensures links { LinksAreItems }
{
    alternatives_are_exact();
}

/// A payload that `ndef_number` refuses is refused, at that offset and for that reason, as a payload of its kind.
pub fn numbers_are_refused()
    ensures { NumbersAreRefused }
{}

/// If fields follow one another without a gap, the byte at an offset is in exactly one of them, and the byte after a
/// field is in the next: so `ndef_next_field` steps from each to the one after it.
pub fn fields_are_stepped()
    ensures one { OneFieldWith }
    ensures next { StepsLeadOn }
{}

/// The records that `ndef_write_poster` writes are those of a poster for a strict reader; so the octets that it
/// writes are decoded to them (`posters_are_exact`).
pub fn written_posters_are_read()
    ensures { WrittenPostersAreRead }
{
    texts_are_exact();
    uris_are_exact();
}

/// The records that `ndef_write_request` and `ndef_write_select` write are those of a request and of a
/// select for a strict reader; so what is written is decoded to them (`requests_are_exact` and
/// `selects_are_exact`).
pub fn written_handovers_are_read()
    ensures requests { WrittenRequestsAreRead }
    ensures selects { WrittenSelectsAreRead }
{
    alternatives_are_exact();
}

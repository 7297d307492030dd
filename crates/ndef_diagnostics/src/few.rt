//! Messages of few records.
ghost use Rattle.std.specs.Prelude.{◌≡◌};
ghost use Rattle.ndef_diagnostics.specs.RecordRemarks.{BeginsWithFew, count_id, few, refers, whole_payload};

use ndef_lang::Opaque;
use ndef_message::{Item, View, view};
use ndef_value::{Limits, MOST_PAYLOAD, MOST_PIECES, Profile};

/// The most records of a message that are compared with one another: our choice, so that time stays in proportion to
/// the message.
const MOST_COMPARED: u32 = 64;

/// Limits that a message of few records meets.
fn few() -> Limits
    ensures { result ≡ few }
{
    match Limits::new(MOST_PAYLOAD, MOST_COMPARED, MOST_PIECES) {
        Ok(limits) => limits.with(Profile::Standard),
        Err(_) => unreachable!(),
    }
}

/// The message of at most 64 records with which the bytes begin (NDEF 1.0, messages), of which nothing is copied; its
/// payloads are any octets. None if the bytes begin with no such message.
pub fn small_message(bytes: &[u8]) -> Option<View<'_>>
    ensures { BeginsWithFew bytes.now result }
{
    match view::<Opaque>(bytes, few()) {
        Ok(message) => Some(message),
        Err(_) => None,
    }
}

/// The payload of a record in one piece; no octets where it comes in several.
pub(crate) fn whole_payload<'a>(item: &Item<'a>) -> &'a [u8]
    ensures { result.now ≡ whole_payload item.now }
{
    match item.whole() {
        Some(payload) => payload,
        None => &[],
    }
}

/// The number of records with this id.
pub(crate) fn count_id(message: &View<'_>, id: &[u8]) -> usize
    ensures { result ≡ count_id id.now message.now.runs }
{
    let mut count = 0;
    for item in message.items() {
        if item.id() == id {
            count += 1;
        }
    }
    count
}

/// Whether an id is that of a record.
pub(crate) fn refers(message: &View<'_>, id: &[u8]) -> bool
    ensures { result ≡ refers id.now message.now.runs }
{
    !id.is_empty() && count_id(message, id) > 0
}

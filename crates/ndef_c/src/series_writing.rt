//! A message of several series of records, written to a buffer.
ghost use Rattle.std.specs.Prelude.{◌≡◌, ◌≢◌, ◌≤◌, ◌↔◌, ◌++◌, ◌∷◌, [], true, min, length, IfNone, IfSome};
ghost use Rattle.std.specs.List.{All};
ghost use Rattle.ndef_format.specs.Canonical.{canonical};
ghost use Rattle.ndef_c.specs.PendingRecord.{IsMade, made_item};
ghost use Rattle.ndef_c.specs.Buffers.{Gives, Puts};
ghost use Rattle.ndef_c.specs.RecordList.{HoldsMade, IsSeries, IsWritten, MayBeMessage, all_items, left_octets, series_items};

use crate::making::{Ends, PendingRecord, put_pending_record};
use crate::out::Out;
use crate::record_list::{RecordList, series_count, series_made};
use crate::status::{BAD_ARGUMENT, BUFFER_TOO_SMALL, OK};
use ndef_message::short_is_canonical;
use ndef_value::MOST_RECORDS;

/// The position of the next record of a message.
#[derive(Clone, Copy)]
pub(crate) struct Place {
    /// The records that aren't written yet.
    left: usize,
    /// Whether the next record is the first.
    first: bool,
}

/// Returns the number of records of all series, at most the greatest `usize`.
fn all_count(several: &[RecordList<'_>]) -> usize
    ensures { result ≡ min (length (all_items several.now)) 18446744073709551615 }
{
    let mut count: usize = 0;
    for record_list in several {
        count = count.saturating_add(series_count(record_list));
    }
    count
}

/// Writes a record at its place, and answers the place after it.
fn put_next(out: &mut Out<'_>, place: Place, made: &PendingRecord<'_>) -> Place
    requires made { IsMade made.now }
    requires left { 1 ≤ place.left }
    ensures { IsWritten place (made_item made.now ∷ []) out.old out.new result }
{
    let ends = Ends {
        first: place.first,
        last: place.left == 1,
    };
    put_pending_record(out, made, ends);
    Place {
        left: place.left - 1,
        first: false,
    }
}

/// Writes records at their place, and answers the place after them, if each may be written.
fn put_series(out: &mut Out<'_>, place: Place, record_list: &RecordList<'_>) -> Option<Place>
    requires holds { HoldsMade record_list.now }
    requires left { length (series_items record_list.now) ≤ place.left }
    ensures none { IfNone result (¬ IsSeries record_list.now) }
    ensures may { IfSome result (λ _. IsSeries record_list.now) }
    ensures some { IfSome result (IsWritten place (series_items record_list.now) out.old out.new) }
{
    let mut next = place;
    for index in 0..series_count(record_list) {
        let made = series_made(record_list, index)?;
        next = put_next(out, next, &made);
    }
    Some(next)
}

/// Writes some bytes and the message of all records, `count` of them, if each may be written.
fn put_message(
    out: &mut Out<'_>,
    front: &[u8],
    several: &[RecordList<'_>],
    count: usize,
) -> Option<()>
    requires holds { All HoldsMade several.now }
    requires count { count ≡ length (all_items several.now) }
    ensures none { IfNone result (¬ All IsSeries several.now) }
    ensures may { IfSome result (λ _. All IsSeries several.now) }
    ensures some { IfSome result
        (λ _. Puts out.old (front.now ++ left_octets true count (all_items several.now)) out.new) }
{
    out.put(front);
    let mut next = Place {
        left: count,
        first: true,
    };
    for record_list in several {
        next = put_series(out, next, record_list)?;
    }
    Some(())
}

/// Writes some bytes and the message of the records to the buffer where it is large enough, sets `count` to the number
/// of bytes, and returns the status.
pub(crate) fn give_message(
    front: &[u8],
    several: &[RecordList<'_>],
    buffer: &mut [u8],
    count: &mut usize,
) -> u32
    requires { All HoldsMade several.now }
    ensures bad { result ≡ BAD_ARGUMENT ↔ ¬ MayBeMessage front.now several.now }
    ensures kept { result ≡ BAD_ARGUMENT → (buffer.new ≡ buffer.old) × (count.new ≡ count.old) }
    ensures may { result ≢ BAD_ARGUMENT → MayBeMessage front.now several.now }
    ensures message { result ≢ BAD_ARGUMENT
        → Gives (front.now ++ canonical (all_items several.now)) buffer.old buffer.new count.new result }
{
    // For the proof alone.
    short_is_canonical();
    let records = all_count(several);
    if records > MOST_RECORDS as usize {
        return BAD_ARGUMENT;
    }
    let mut counter = Out::new(&mut [], 0);
    let Some(()) = put_message(&mut counter, front, several, records) else {
        return BAD_ARGUMENT;
    };
    let needed = counter.at();
    if needed > u32::MAX as usize {
        return BAD_ARGUMENT;
    }
    *count = needed;
    if buffer.len() < needed {
        return BUFFER_TOO_SMALL;
    }
    let _same = put_message(&mut Out::new(buffer, 0), front, several, records);
    OK
}

//! Places from which an input is read on, past a record that is refused.
ghost use Rattle.std.specs.Prelude.{◌≡◌, ◌+◌, ◌<◌, ◌^◌, drop};
ghost use Rattle.ndef_cli_explain.specs.Recovery.{is_over, message_at, past, past_message};

use crate::fields::cut;
use crate::refused_record::RefusedRecord;

/// A place from which an input is read on, and the numbers of sound and of refused records before it.
#[derive(Clone, Copy)]
pub(crate) struct Recovery {
    /// The number of the message, from 1.
    pub(crate) message: u64,
    /// The number of records of the message before this place; 0 where a message begins.
    pub(crate) records: u64,
    /// The place in the input.
    pub(crate) at: u64,
    /// The number of sound records before it.
    pub(crate) sound: u64,
    /// The number of refused ones.
    pub(crate) refused: u64,
}

/// The place where a message begins, after this number of sound records.
pub(crate) fn message_at(number: u64, at: u64, sound: u64) -> Recovery
    ensures { result ≡ message_at number at sound }
{
    Recovery {
        message: number,
        records: 0,
        at,
        sound,
        refused: 0,
    }
}

/// The place past a refused record that ends here.
pub(crate) fn past(from: Recovery, found: RefusedRecord, end: usize) -> Recovery
    requires message { from.message + 1 < 2 ^ 64 }
    requires records { from.records + found.before + 1 < 2 ^ 64 }
    requires at { from.at + end < 2 ^ 64 }
    requires sound { from.sound + found.before < 2 ^ 64 }
    requires refused { from.refused + 1 < 2 ^ 64 }
    ensures { result ≡ past from found end }
{
    let before = found.before as u64;
    let (message, records) = if found.last {
        (from.message + 1, 0)
    } else {
        (from.message, from.records + before + 1)
    };
    Recovery {
        message,
        records,
        at: from.at + end as u64,
        sound: from.sound + before,
        refused: from.refused + 1,
    }
}

/// The place past a message of this number of bytes and records.
pub(crate) fn past_message(from: Recovery, bytes: u64, count: usize) -> Recovery
    requires message { from.message + 1 < 2 ^ 64 }
    requires at { from.at + bytes < 2 ^ 64 }
    requires sound { from.sound + count < 2 ^ 64 }
    ensures { result ≡ past_message from bytes count }
{
    Recovery {
        message: from.message + 1,
        records: 0,
        at: from.at + bytes,
        sound: from.sound + count as u64,
        refused: from.refused,
    }
}

/// Whether nothing is left of an input at a place, or another message begins where records of this one have to come.
pub(crate) fn is_over(from: Recovery, input: &[u8]) -> bool
    ensures { result ≡ is_over from.records (drop from.at input.now) }
{
    match cut(input, from.at as usize).1 {
        [] => true,
        [octet, ..] => from.records != 0 && *octet >= 128,
    }
}

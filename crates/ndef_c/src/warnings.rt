//! Warnings about a message that is accepted, in sentences.
ghost use Rattle.std.specs.Prelude.{◌≡◌, ◌≢◌, ◌≤◌, ◌<◌, ◌⊎◌, ◌↔◌, slice_get};
ghost use Rattle.ndef_c.specs.Warnings.{GivesFieldWarning, GivesRecordWarning, GivesRemark, IsRemarkAt, IsRemarkOn};

use crate::buffer::give;
use crate::field_names::name_of;
use crate::status::{BAD_ARGUMENT, BUFFER_TOO_SMALL, END, OK};
use ndef_diagnostics::{Remark, field_remark, payload_remark, repeated_remark, small_message};
use ndef_message::{Item, View};

/// Writes the sentence for a remark to the buffer, if there is one.
fn give_remark(remark: Option<Remark>, buffer: &mut [u8], count: &mut usize) -> u32
    ensures known { (result ≡ OK) ⊎ (result ≡ BUFFER_TOO_SMALL) ⊎ (result ≡ END) }
    ensures remark { GivesRemark remark buffer.old buffer.new count.old count.new result }
    ensures short { result ≢ END → count.new ≤ 192 }
{
    match remark {
        Some(remark) => {
            let sentence = remark.sentence();
            give(sentence.as_slice(), buffer, count)
        }
        None => END,
    }
}

/// Writes what is strange in a field of a message that is accepted to the buffer: a sentence of English, in ASCII and
/// with no NUL after it.
#[unsafe(no_mangle)]
pub extern "C" fn ndef_field_warning(
    name: u32,
    octets: &[u8],
    buffer: &mut [u8],
    count: &mut usize,
) -> u32
    ensures bad { result ≡ BAD_ARGUMENT ↔ ((name ≡ 0) ⊎ (31 < name)) }
    ensures kept { result ≡ BAD_ARGUMENT → (buffer.new ≡ buffer.old) × (count.new ≡ count.old) }
    ensures remark { result ≢ BAD_ARGUMENT
        → GivesFieldWarning name octets.now buffer.old buffer.new count.old count.new result }
    ensures short { (result ≡ OK) ⊎ (result ≡ BUFFER_TOO_SMALL) → count.new ≤ 192 }
{
    let Some(name) = name_of(name) else {
        return BAD_ARGUMENT;
    };
    give_remark(field_remark(name, octets), buffer, count)
}

/// The record with an index from 0 on.
fn record_at<'a>(message: &View<'a>, index: usize) -> Option<Item<'a>>
    ensures { result ≡ slice_get message.now.runs index }
{
    let mut left = index;
    for item in message.items() {
        if left == 0 {
            return Some(item);
        }
        left -= 1;
    }
    None
}

/// Returns the warning about the payload of a record, or else about its id.
fn remark_on(message: &View<'_>, item: &Item<'_>) -> Option<Remark>
    ensures { IsRemarkOn message.now.runs item.now result }
{
    match payload_remark(message, item) {
        Some(remark) => Some(remark),
        None => repeated_remark(message, item),
    }
}

/// Returns the warning about the record with an index from 0 on, of the message with which the bytes begin.
fn remark_at(bytes: &[u8], index: usize) -> Option<Remark>
    ensures { IsRemarkAt bytes.now index result }
{
    let message = small_message(bytes)?;
    let item = record_at(&message, index)?;
    remark_on(&message, &item)
}

/// Writes what is strange in a record of a message that is accepted, beside the other records, to the buffer: a
/// sentence of English, in ASCII and with no NUL after it.
#[unsafe(no_mangle)]
pub extern "C" fn ndef_record_warning(
    bytes: &[u8],
    index: usize,
    buffer: &mut [u8],
    count: &mut usize,
) -> u32
    ensures known { (result ≡ OK) ⊎ (result ≡ BUFFER_TOO_SMALL) ⊎ (result ≡ END) }
    ensures remark { GivesRecordWarning bytes.now index buffer.old buffer.new count.old count.new result }
    ensures short { result ≢ END → count.new ≤ 192 }
{
    give_remark(remark_at(bytes, index), buffer, count)
}

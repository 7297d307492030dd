//! Records and the bytes that are written for them. conformance/README.md describes the columns.
use ndef_lang::Opaque;
use ndef_message::{Form, SliceSource, encode, encode_chunked, read_message};
use ndef_tests::lines::{bytes_of, fields};
use ndef_tests::records::{are_reported, message_of};
use ndef_value::{Bytes, Limits, Message};
use std::alloc::Global;

fn form_of(text: &str) -> Option<Form> {
    match text {
        "short" => Some(Form::Short),
        "long" => Some(Form::Long),
        _ => None,
    }
}

/// Returns the bytes of a message: in chunks of a number of octets, or with `-` each record in one piece.
fn written(alloc: Global, message: &Message, form: Form, chunk: &str) -> Option<Bytes> {
    match chunk {
        "-" => encode(alloc, message, form).ok(),
        _ => encode_chunked(alloc, message, form, chunk.parse::<u32>().ok()?.max(1)).ok(),
    }
}

/// Whether what is written for the records of a line is its bytes, and these are read as the same records; nothing
/// where the line can't be read.
pub(super) fn is_written(alloc: Global, line: &str) -> Option<bool> {
    let [_, _, _, _, records, form, chunk, bytes, ..] = fields(line);
    let message = message_of(alloc, records)?;
    let bytes = bytes_of(alloc, bytes)?;
    let written = written(alloc, &message, form_of(form)?, chunk)?;
    let mut source = SliceSource::whole(bytes.as_slice());
    let read = read_message::<Opaque, _>(alloc, &mut source, Limits::usual()).ok()?;
    let same = written.as_slice() == bytes.as_slice() && read.message == message;
    Some(same && are_reported(alloc, records, &read.message)?)
}

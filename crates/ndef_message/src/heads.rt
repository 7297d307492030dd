//! The heads of the chunks in which a record is written.
ghost use Rattle.std.specs.Prelude.{◌≡◌, ◌<◌, ◌^◌};
ghost use Rattle.ndef_format.specs.Records.{FitsForm};
ghost use Rattle.ndef_piece.specs.Heads.{written_fields};
ghost use Rattle.ndef_message.specs.Heads.{first_fields, later_fields};
ghost use Rattle.ndef_message.specs.Written.{is_short};

use crate::Form;
use ndef_piece::Head;
use ndef_value::Tnf;

/// The position of the first chunk of a record.
#[derive(Clone, Copy, Debug, PartialEq, Eq, Hash)]
pub struct Standing {
    /// Its record is the first of the message.
    pub first: bool,
    /// Its record is the last of the message.
    pub last: bool,
    /// It is the only chunk of its record.
    pub alone: bool,
}

/// Whether a chunk of `length` payload bytes is written in the short form.
fn is_short(form: Form, length: usize) -> bool
    ensures { result ≡ is_short form length }
{
    match form {
        Form::Short => length <= 255,
        Form::Long => false,
    }
}

/// The head of the first chunk of a record (NDEF 1.0, record layout), whose type and id have these lengths, where the
/// chunk has `part` bytes of the payload. With an id of length 0 the record gets no id.
pub fn first_head(
    tnf: Tnf,
    kind: usize,
    id: usize,
    part: usize,
    standing: Standing,
    form: Form,
) -> Head
    requires kind { kind < 256 }
    requires id { id < 256 }
    requires part { part < 2 ^ 32 }
    ensures head { written_fields result ≡ first_fields standing form tnf kind id part }
    ensures form { FitsForm result.short result.payload_length }
{
    Head {
        first: standing.first,
        last: standing.alone && standing.last,
        chunked: !standing.alone,
        short: is_short(form, part),
        tnf,
        kind_length: kind as u8,
        payload_length: part as u32,
        id_length: if id == 0 { None } else { Some(id as u8) },
    }
}

/// The head of a later chunk of a record (NDEF 1.0, chunked payloads), which has `part` bytes of the payload: of the
/// last one where it ends its record.
pub fn later_head(last: bool, ends: bool, form: Form, part: usize) -> Head
    requires { part < 2 ^ 32 }
    ensures head { written_fields result ≡ later_fields last ends form part }
    ensures form { FitsForm result.short result.payload_length }
{
    Head {
        first: false,
        last: ends && last,
        chunked: !ends,
        short: is_short(form, part),
        tnf: Tnf::Unchanged,
        kind_length: 0,
        payload_length: part as u32,
        id_length: None,
    }
}

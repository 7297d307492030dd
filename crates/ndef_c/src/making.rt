//! Records whose payloads are written in place.
ghost use Rattle.std.specs.Prelude.{◌≡◌, ◌<◌, ◌^◌, false, length};
ghost use Rattle.ndef_format.specs.Records.{FitsForm, fields};
ghost use Rattle.ndef_message.specs.Cut.{first_piece};
ghost use Rattle.ndef_message.specs.Written.{is_short};
ghost use Rattle.ndef_message.specs.declared.form.Form.TheVariants.{Short};
ghost use Rattle.ndef_piece.specs.Heads.{written_fields};
ghost use Rattle.ndef_c.specs.Contents.{content_octets};
ghost use Rattle.ndef_c.specs.PendingRecord.{IsMade, made_item, whole_octets};
ghost use Rattle.ndef_c.specs.Buffers.{Puts};

use crate::content::{Content, put_content};
use crate::out::Out;
use crate::writing::put_piece;
use ndef_message::{Form, Standing, first_head};
use ndef_piece::Head;
use ndef_value::Tnf;

/// A record.
#[derive(Clone, Copy)]
pub(crate) struct PendingRecord<'a> {
    pub(crate) tnf: Tnf,
    pub(crate) kind: &'a [u8],
    pub(crate) id: &'a [u8],
    pub(crate) content: Content<'a>,
    /// The bytes of its payload.
    pub(crate) bytes: usize,
}

/// The position of a record in its message: whether it is the first, the last, both or neither.
#[derive(Clone, Copy)]
pub(crate) struct Ends {
    pub(crate) first: bool,
    pub(crate) last: bool,
}

/// The head of its piece.
fn head_of(made: &PendingRecord<'_>, ends: Ends) -> Head
    requires { IsMade made.now }
    ensures head { written_fields result
        ≡ fields (first_piece ends.first ends.last false (made_item made.now) (content_octets made.now.content))
        (is_short Short (length (content_octets made.now.content))) }
    ensures form { FitsForm result.short result.payload_length }
{
    let standing = Standing {
        first: ends.first,
        last: ends.last,
        alone: true,
    };
    first_head(
        made.tnf,
        made.kind.len(),
        made.id.len(),
        made.bytes,
        standing,
        Form::Short,
    )
}

/// Writes the record.
#[inline(always)]
pub(crate) fn put_pending_record(out: &mut Out<'_>, made: &PendingRecord<'_>, ends: Ends)
    requires { IsMade made.now }
    ensures put { Puts out.old (whole_octets ends (made_item made.now)) out.new }
    ensures bound { length (whole_octets ends (made_item made.now)) < 2 ^ 33 }
{
    put_piece(out, &head_of(made, ends), made.kind, made.id, &[]);
    put_content(out, &made.content);
}

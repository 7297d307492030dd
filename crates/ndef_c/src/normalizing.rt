//! A message that is written again, each of its records in one piece.
ghost use Rattle.std.specs.Prelude.{◌≡◌, ◌≢◌, ◌↔◌, ℕ, false, List, length, IfNone, IfSome, IsTrue};
ghost use Rattle.ndef_format.specs.Messages.{run_record};
ghost use Rattle.ndef_format.specs.Records.{FitsForm, Run, fields};
ghost use Rattle.ndef_message.specs.Cut.{first_piece};
ghost use Rattle.ndef_message.specs.Written.{is_short};
ghost use Rattle.ndef_piece.specs.Heads.{written_fields};
ghost use Rattle.ndef_c.specs.Links.{BeginsWithRuns, HasRuns};
ghost use Rattle.ndef_c.specs.Normalizing.{AsksForForm, CanBeNormalized, GivesNormalized, IsWritable, MayBeNormalized, form_with, normalized};
ghost use Rattle.ndef_c.specs.Buffers.{Puts};
ghost use Rattle.ndef_c.specs.Runs.{IsFirstRun};

use crate::message::has_message;
use crate::out::Out;
use crate::payload::copy_pieces;
use crate::run::{FirstRun, first_run};
use crate::status::{BAD_ARGUMENT, BUFFER_TOO_SMALL, OK};
use crate::writing::{is_whole, put_piece};
use ndef_message::{Form, Standing, first_head};
use ndef_piece::{Head, heads_are_unambiguous};

/// Whether a record can be in one piece.
fn is_writable(found: &FirstRun<'_>) -> bool
    ensures { (bytes : List ℕ) (x : IsFirstRun bytes found.now) → IsTrue result ↔ IsWritable (run_record x.run) }
{
    let kind = found.first.kind.len();
    let id = found.first.id.len();
    is_whole(found.first.tnf(), kind, id, found.payload)
}

/// The head of a record in one piece.
fn head_of(found: &FirstRun<'_>, first: bool, form: Form) -> Head
    requires { (bytes : List ℕ) × (x : IsFirstRun bytes found.now) × IsWritable (run_record x.run) }
    ensures head { (bytes : List ℕ) (x : IsFirstRun bytes found.now) → written_fields result
        ≡ fields (first_piece first found.now.last false (run_record x.run) (run_record x.run).payload)
        (is_short form (length (run_record x.run).payload)) }
    ensures form { FitsForm result.short result.payload_length }
{
    let standing = Standing {
        first,
        last: found.last,
        alone: true,
    };
    let piece = &found.first;
    first_head(
        piece.tnf(),
        piece.kind.len(),
        piece.id.len(),
        found.payload,
        standing,
        form,
    )
}

/// Writes the message with which the bytes begin, each record in one piece, unless one can't be.
#[inline(always)]
fn put_normalized(out: &mut Out<'_>, bytes: &[u8], form: Form) -> Option<()>
    requires { HasRuns bytes.now }
    ensures none { IfNone result ((runs : List Run) → BeginsWithRuns runs bytes.now → ¬ CanBeNormalized form runs) }
    ensures may { IfSome result (λ _. (runs : List Run) → BeginsWithRuns runs bytes.now → CanBeNormalized form runs) }
    ensures some { IfSome result (λ _. (runs : List Run) → BeginsWithRuns runs bytes.now
        → Puts out.old (normalized form runs) out.new) }
{
    // For the proof alone.
    heads_are_unambiguous();
    let mut rest = bytes;
    let mut first = true;
    loop {
        let Some(found) = first_run(rest) else {
            unreachable!()
        };
        if !is_writable(&found) {
            return None;
        }
        let head = head_of(&found, first, form);
        put_piece(out, &head, found.first.kind, found.first.id, &[]);
        copy_pieces(out, rest);
        if found.last {
            return Some(());
        }
        first = false;
        rest = found.rest;
    }
}

/// The form that the flags ask for, if they are known.
fn form_with(flags: u32) -> Option<Form>
    ensures none { IfNone result (¬ AsksForForm flags) }
    ensures known { IfSome result (λ _. AsksForForm flags) }
    ensures some { IfSome result (λ form. form ≡ form_with flags) }
{
    match flags {
        0 => Some(Form::Short),
        4 => Some(Form::Long),
        _ => None,
    }
}

/// Writes the message with which the bytes begin again, each record in one chunk (NDEF 1.0, record layout),
/// to the buffer; without a flag that is its canonical spelling.
#[unsafe(no_mangle)]
pub extern "C" fn ndef_normalize(
    bytes: &[u8],
    flags: u32,
    buffer: &mut [u8],
    count: &mut usize,
) -> u32
    ensures bad { result ≡ BAD_ARGUMENT ↔ ¬ MayBeNormalized flags bytes.now }
    ensures kept { result ≡ BAD_ARGUMENT → (buffer.new ≡ buffer.old) × (count.new ≡ count.old) }
    ensures normalized { result ≢ BAD_ARGUMENT
        → GivesNormalized flags bytes.now buffer.old buffer.new count.new result }
{
    let Some(form) = form_with(flags) else {
        return BAD_ARGUMENT;
    };
    if !has_message(bytes) {
        return BAD_ARGUMENT;
    }
    let mut counter = Out::new(&mut [], 0);
    let Some(()) = put_normalized(&mut counter, bytes, form) else {
        return BAD_ARGUMENT;
    };
    *count = counter.at();
    if buffer.len() < *count {
        return BUFFER_TOO_SMALL;
    }
    let _same = put_normalized(&mut Out::new(buffer, 0), bytes, form);
    OK
}

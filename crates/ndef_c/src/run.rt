//! A record at the front of any bytes.
ghost use Rattle.std.specs.Prelude.{◌<◌, ◌↔◌, IfNone, IfSome, IsTrue};
ghost use Rattle.ndef_format.specs.Records.{IsInitial, IsLater};
ghost use Rattle.ndef_format.specs.declared.profile.Profile.TheVariants.{Standard};
ghost use Rattle.ndef_piece.specs.Whole.{shown};
ghost use Rattle.ndef_c.specs.Runs.{HasRun, IsFirstRun};

use ndef_format::header::{ID_THERE, is_set, tnf_number};
use ndef_piece::{WholePiece, whole_piece};

/// A run at the front of some bytes (NDEF 1.0, chunked payloads).
#[derive(Clone, Copy)]
pub(crate) struct FirstRun<'a> {
    /// Its initial piece.
    pub(crate) first: WholePiece<'a>,
    /// The bytes of its payload, the pieces joined.
    pub(crate) payload: usize,
    /// Its pieces.
    pub(crate) pieces: usize,
    /// Whether it ends its message.
    pub(crate) last: bool,
    /// The bytes after it.
    pub(crate) rest: &'a [u8],
}

/// Whether the piece may be the initial piece of a run.
fn is_initial(piece: &WholePiece<'_>) -> bool
    ensures { IsTrue result ↔ IsInitial Standard (shown piece.now) }
{
    let tnf = tnf_number(piece.header);
    tnf != 6 && (tnf != 0 || !piece.is_chunked())
}

/// Whether the piece may be a middle or terminating piece of a run.
fn is_later(piece: &WholePiece<'_>) -> bool
    ensures { IsTrue result ↔ IsLater (shown piece.now) }
{
    tnf_number(piece.header) == 6 && piece.kind.is_empty() && !is_set(ID_THERE, piece.header)
}

/// The run with which the bytes begin, if all of it is there.
#[inline(always)]
pub(crate) fn first_run(bytes: &[u8]) -> Option<FirstRun<'_>>
    ensures none { IfNone result (¬ HasRun bytes.now) }
    ensures some { IfSome result (IsFirstRun bytes.now) }
{
    let Some(first) = whole_piece(bytes) else {
        return None;
    };
    if !is_initial(&first) {
        return None;
    }
    let mut piece = first;
    let mut payload = first.payload.len();
    let mut pieces = 1;
    while piece.is_chunked() {
        let Some(next) = whole_piece(piece.rest) else {
            return None;
        };
        if !is_later(&next) {
            return None;
        }
        payload += next.payload.len();
        pieces += 1;
        piece = next;
    }
    Some(FirstRun {
        first,
        payload,
        pieces,
        last: piece.is_last(),
        rest: piece.rest,
    })
}

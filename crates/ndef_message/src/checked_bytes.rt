//! The bytes of pieces that were checked.
ghost use Rattle.std.specs.Prelude.{◌≡◌, [], false};
ghost use Rattle.ndef_format.specs.HeadReasons.{is_set};
ghost use Rattle.ndef_piece.specs.Whole.{BeginWithPiece, IsSplit, shown};

use ndef_piece::{WholePiece, whole_piece};

/// The piece with which the bytes begin.
pub(crate) fn first_piece(bytes: &[u8]) -> WholePiece<'_>
    requires { BeginWithPiece bytes.now }
    ensures piece { IsSplit (shown result) (is_set 4 result.header) result.rest.now bytes.now }
    ensures no_id { is_set 3 result.header ≡ false → result.id.now ≡ [] }
{
    let Some(piece) = whole_piece(bytes) else {
        unreachable!()
    };
    piece
}

//! The payloads of the pieces of a record, where they lie.
ghost use Rattle.std.specs.Prelude.{◌≡◌};
ghost use Rattle.std.specs.Iterator.{YieldsFirstRef, item_count};
ghost use Rattle.ndef_message.specs.Machine.Seen.{ArePieces, pieces_of};
ghost use Rattle.ndef_message.specs.Views.{payloads};

use crate::checked_bytes::first_piece;
use std::marker::Model;

/// The payloads of the pieces of a record (NDEF 1.0, chunked payloads), in order, each a slice of the
/// bytes that were viewed; empty ones too. Contracts see the payloads that are left.
#[derive(Debug, Drop)]
pub struct Pieces<'a> {
    /// The bytes of the pieces that are left.
    bytes: &'a [u8],
}

impl<'a> Model for Pieces<'a> {
    ghost use Rattle.std.specs.Prelude.{List, ℕ};
    ghost use Rattle.ndef_message.specs.Machine.Seen.{ArePieces, pieces_of};
    ghost use Rattle.ndef_message.specs.Views.{payloads};

    ghost Value = { List (List ℕ) };

    ghost view = { λ s. payloads (pieces_of s.bytes.now) };

    ghost invariant = { λ s. ArePieces s.bytes.now };
}

impl<'a> Pieces<'a> {
    /// The payloads of the pieces that the bytes are.
    pub(crate) fn new(bytes: &'a [u8]) -> Pieces<'a>
        requires { ArePieces bytes.now }
        ensures { result ≡ payloads (pieces_of bytes.now) }
    {
        Pieces { bytes }
    }
}

impl<'a> Iterator for Pieces<'a> {
    type Item = &'a [u8];

    ghost next_gives = { YieldsFirstRef (λ rest. rest) };

    ghost remaining = { item_count (λ rest. rest) };

    fn next(&mut self) -> Option<&'a [u8]> {
        if self.bytes.is_empty() {
            return None;
        }
        let piece = first_piece(self.bytes);
        self.bytes = piece.rest;
        Some(piece.payload)
    }
}

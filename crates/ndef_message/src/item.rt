//! A record of a message, where it lies.
ghost use Rattle.std.specs.Prelude.{◌≡◌, ◌<◌, ◌∷◌, [], false, length, option_map, IfOk, IsOk};
ghost use Rattle.std.specs.List.{concat};
ghost use Rattle.ndef_format.specs.Canonical.{HasLengths};
ghost use Rattle.ndef_format.specs.Messages.{IsShaped, run_record};
ghost use Rattle.ndef_format.specs.Records.{pieces};
ghost use Rattle.ndef_format.specs.HeadReasons.{is_set};
ghost use Rattle.ndef_piece.specs.Whole.{shown};
ghost use Rattle.ndef_message.specs.Machine.Seen.{AreRuns, IsSeenRecord, pieces_of, runs_of};
ghost use Rattle.ndef_message.specs.Views.{only_payload, payloads};

use crate::Pieces;
use crate::checked_bytes::first_piece;
use ndef_piece::WholePiece;
use ndef_value::{Bytes, Name, NoMemory, Record, Tnf};
use std::alloc::Global;
use std::marker::Model;

/// A record of a viewed message (NDEF 1.0, record layout and chunked payloads): its type, its id and
/// the payloads of its pieces are slices of the bytes that were viewed. Contracts see the run of its
/// pieces.
#[derive(Debug, Drop)]
pub struct Item<'a> {
    /// The bytes of its pieces.
    bytes: &'a [u8],
    /// The number of them that are payload.
    length: u32,
}

impl<'a> Model for Item<'a> {
    ghost use Rattle.ndef_format.specs.Records.{Run};
    ghost use Rattle.ndef_message.specs.Machine.Seen.{AreRun, run_of};

    ghost Value = { Run };

    ghost view = { λ i. run_of i.bytes.now };

    ghost invariant = { λ i. AreRun i.bytes.now i.length };
}

/// The record with which the bytes begin, and the bytes after it.
pub(crate) fn split_item(bytes: &[u8]) -> (Item<'_>, &[u8])
    requires some { 0 < length bytes.now }
    requires runs { AreRuns bytes.now }
    ensures first { runs_of (pieces_of bytes.now) ≡ result.0 ∷ runs_of (pieces_of result.1.now) }
    ensures rest { AreRuns result.1.now }
{
    let mut rest = bytes;
    let mut length = 0;
    loop {
        let piece = first_piece(rest);
        rest = piece.rest;
        length += piece.payload.len() as u32;
        if !piece.is_chunked() {
            let (run, rest) = bytes.split_at(bytes.len() - rest.len());
            return (Item { bytes: run, length }, rest);
        }
    }
}

impl<'a> Item<'a> {
    /// The initial piece, or the only one.
    fn first(&self) -> WholePiece<'a>
        ensures shown { shown result ≡ self.now.initial }
        ensures no_id { is_set 3 result.header ≡ false → result.id.now ≡ [] }
        ensures read { IsSeenRecord self.now }
        ensures lengths { HasLengths (run_record self.now) }
    {
        first_piece(self.bytes)
    }

    /// The type name format (NDEF 1.0, TNF): never Unchanged, and the reserved 7 as Unknown.
    pub fn tnf(&self) -> Tnf
        ensures value { result ≡ (run_record self.now).tnf }
        ensures shaped { IsShaped (run_record self.now) }
    {
        self.first().tnf()
    }

    /// The type (NDEF 1.0, TYPE), at most 255 bytes.
    pub fn kind(&self) -> &'a [u8]
        ensures { result.now ≡ (run_record self.now).kind }
    {
        self.first().kind
    }

    /// The id (NDEF 1.0, ID), at most 255 bytes; it is empty where the record has none.
    pub fn id(&self) -> &'a [u8]
        ensures { result.now ≡ (run_record self.now).id }
    {
        self.first().id
    }

    /// The number of bytes of the payload, those of all pieces together.
    pub fn length(&self) -> u32
        ensures { result ≡ length (run_record self.now).payload }
    {
        self.length
    }

    /// The payloads of its pieces, in order (NDEF 1.0, chunked payloads). Joined they are the payload.
    pub fn pieces(&self) -> Pieces<'a>
        ensures each { result ≡ payloads (pieces self.now) }
        ensures joined { concat result ≡ (run_record self.now).payload }
    {
        Pieces::new(self.bytes)
    }

    /// The payload, where the record has one piece; None if it is chunked, even if a single one of its
    /// pieces has bytes.
    pub fn whole(&self) -> Option<&'a [u8]>
        ensures { option_map (λ s. s.now) result ≡ only_payload (pieces self.now) }
    {
        let piece = self.first();
        if piece.is_chunked() {
            None
        } else {
            Some(piece.payload)
        }
    }

    /// A copy of the payload, all pieces joined; or `NoMemory` where an allocation fails, which never happens for an
    /// empty payload, since it needs no memory.
    pub fn joined(&self, alloc: Global) -> Result<Bytes, NoMemory>
        ensures ok { IfOk result (λ b. b ≡ (run_record self.now).payload) }
        ensures empty { (run_record self.now).payload ≡ [] → IsOk result }
    {
        let mut payload = Bytes::new(alloc);
        for piece in self.pieces() {
            payload.extend(piece)?;
        }
        Ok(payload)
    }

    /// A copy of the record; or `NoMemory` where an allocation fails.
    pub(crate) fn to_record(&self, alloc: Global) -> Result<Record, NoMemory>
        ensures { IfOk result (λ r. r ≡ run_record self.now) }
    {
        let first = self.first();
        let Ok(kind) = Name::from_slice(alloc, first.kind) else {
            return Err(NoMemory);
        };
        let Ok(id) = Name::from_slice(alloc, first.id) else {
            return Err(NoMemory);
        };
        let payload = self.joined(alloc)?;
        Ok(Record::from_parts(first.tnf(), kind, id, payload))
    }
}

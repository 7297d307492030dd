//! The offsets and lengths of the pieces of a record.
ghost use Rattle.std.specs.Prelude.{◌≡◌, ◌≢◌, ◌-◌, ◌≤◌, ◌↔◌, true, length, drop, List, ℕ};
ghost use Rattle.std.specs.Iterator.{at_most};
ghost use Rattle.ndef_format.specs.Records.{Run, pieces};
ghost use Rattle.ndef_c.specs.Arrays.{set_over};
ghost use Rattle.ndef_c.specs.Chunks.{ArePiecesAt, GivesPieces, StepsOn};
ghost use Rattle.ndef_c.specs.Walks.{BeginsWithRun, IsRecordThere};
ghost use Rattle.ndef_c.specs.declared.part.NdefPart.{NdefPart as Part};

use crate::part::NdefPart;
use crate::record::record_at;
use crate::status::{BAD_ARGUMENT, BUFFER_TOO_SMALL, OK};
use ndef_piece::whole_piece;

/// The pieces of a record, one after another, each by where its payload lies (NDEF 1.0, chunked payloads).
#[derive(Drop)]
pub(crate) struct Pieces<'a> {
    /// The bytes in which they lie.
    bytes: &'a [u8],
    /// The offset at which the next one would begin.
    at: usize,
    /// Whether one follows.
    follows: bool,
}

impl<'a> Pieces<'a> {
    /// The pieces of the record that begins at a place.
    pub(crate) fn from(bytes: &'a [u8], at: usize) -> Pieces<'a>
        ensures bytes { result.bytes.now ≡ bytes.now }
        ensures at { result.at ≡ at }
        ensures follows { result.follows ≡ true }
    {
        Pieces {
            bytes,
            at,
            follows: true,
        }
    }
}

impl<'a> Iterator for Pieces<'a> {
    type Item = NdefPart;

    ghost next_gives = { StepsOn };

    ghost remaining = { λ pieces. at_most (length pieces.bytes.now - pieces.at) };

    fn next(&mut self) -> Option<NdefPart> {
        if !self.follows || self.at > self.bytes.len() {
            return None;
        }
        let (_before, following) = self.bytes.split_at(self.at);
        let piece = whole_piece(following)?;
        let length = piece.payload.len();
        let part = NdefPart {
            at: self.bytes.len() - piece.rest.len() - length,
            length,
        };
        self.at = part.at + length;
        self.follows = piece.is_chunked();
        Some(part)
    }
}

/// Writes where the payload of each piece of the record at a place lies to the front of the parts.
fn tell_pieces(bytes: &[u8], at: usize, parts: &mut [NdefPart])
    requires run { IsRecordThere bytes.now at }
    requires buffer { (run : Run) (rest : List ℕ) → BeginsWithRun run rest (drop at bytes.now)
        → length (pieces run) ≤ length parts.old }
    ensures { (run : Run) (rest : List ℕ) → BeginsWithRun run rest (drop at bytes.now)
        → (reported : List Part) × ArePiecesAt bytes.now at (pieces run) reported
        × (length reported ≡ length (pieces run))
        × (parts.new ≡ set_over reported parts.old) }
{
    let mut index = 0;
    for part in Pieces::from(bytes, at) {
        parts[index] = part;
        index += 1;
    }
}

/// Gives the offset of the payload of each chunk of the record at an offset of the bytes (NDEF 1.0, chunked payloads):
/// writes them to the front of the parts, in their order, where these are enough.
#[unsafe(no_mangle)]
pub extern "C" fn ndef_chunks(
    bytes: &[u8],
    at: usize,
    parts: &mut [NdefPart],
    count: &mut usize,
) -> u32
    ensures bad { result ≡ BAD_ARGUMENT ↔ ¬ IsRecordThere bytes.now at }
    ensures kept { result ≡ BAD_ARGUMENT → (parts.new ≡ parts.old) × (count.new ≡ count.old) }
    ensures pieces { result ≢ BAD_ARGUMENT → GivesPieces bytes.now at parts.old parts.new count.new result }
{
    let Some(found) = record_at(bytes, at) else {
        return BAD_ARGUMENT;
    };
    *count = found.chunks;
    if parts.len() < found.chunks {
        return BUFFER_TOO_SMALL;
    }
    tell_pieces(bytes, at, parts);
    OK
}

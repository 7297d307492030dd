//! The joined payload of a record.
ghost use Rattle.std.specs.Prelude.{◌≡◌, ◌≢◌, ◌↔◌, List, ℕ};
ghost use Rattle.ndef_format.specs.Records.{Run};
ghost use Rattle.ndef_format.specs.Messages.{run_record};
ghost use Rattle.ndef_c.specs.Buffers.{Puts};
ghost use Rattle.ndef_c.specs.Runs.{HasRun};
ghost use Rattle.ndef_c.specs.Walks.{BeginsWithRun, IsRecordThere, GivesPayload};

use crate::chunks::Pieces;
use crate::out::Out;
use crate::record::record_at;
use crate::status::{BAD_ARGUMENT, BUFFER_TOO_SMALL, OK};

/// Writes the payload of the run with which the bytes begin, the payloads of its pieces joined.
#[inline(always)]
pub(crate) fn copy_pieces(out: &mut Out<'_>, bytes: &[u8])
    requires { HasRun bytes.now }
    ensures { (run : Run) (rest : List ℕ) → BeginsWithRun run rest bytes.now
        → Puts out.old (run_record run).payload out.new }
{
    for part in Pieces::from(bytes, 0) {
        out.put(&bytes[part.at..part.at + part.length]);
    }
}

/// Writes the payload of the record at an offset of the bytes, the payloads of its chunks joined, to the
/// buffer.
#[unsafe(no_mangle)]
pub extern "C" fn ndef_payload(bytes: &[u8], at: usize, buffer: &mut [u8], count: &mut usize) -> u32
    ensures bad { result ≡ BAD_ARGUMENT ↔ ¬ IsRecordThere bytes.now at }
    ensures kept { result ≡ BAD_ARGUMENT → (buffer.new ≡ buffer.old) × (count.new ≡ count.old) }
    ensures payload { result ≢ BAD_ARGUMENT → GivesPayload bytes.now at buffer.old buffer.new count.new result }
{
    let Some(found) = record_at(bytes, at) else {
        return BAD_ARGUMENT;
    };
    *count = found.payload_length;
    if buffer.len() < found.payload_length {
        return BUFFER_TOO_SMALL;
    }
    let (_before, following) = bytes.split_at(at);
    copy_pieces(&mut Out::new(buffer, 0), following);
    OK
}

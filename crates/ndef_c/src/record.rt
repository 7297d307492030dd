//! Records of a message where they lie.
ghost use Rattle.std.specs.Prelude.{◌≡◌, ◌≢◌, ◌<◌, ◌↔◌, ℕ, List, length, IfNone, IfSome};
ghost use Rattle.ndef_format.specs.Messages.{run_record};
ghost use Rattle.ndef_c.specs.Walks.{IsRecordThere, IsRecordAt};

use crate::run::first_run;
use crate::status::{BAD_ARGUMENT, END, OK};
use crate::writing::tnf_of;
use ndef_value::Tnf;

/// A record, by offsets and lengths in the bytes.
#[repr(C)]
#[derive(Clone, Copy, Drop)]
pub struct NdefRecord {
    /// Where it begins.
    pub at: usize,
    /// Where the next one begins.
    pub end: usize,
    /// Where its type begins.
    pub type_at: usize,
    /// The bytes of its type, at most 255.
    pub type_length: usize,
    /// Where its id begins.
    pub id_at: usize,
    /// The bytes of its id, at most 255.
    pub id_length: usize,
    /// Where the payload of its first chunk begins.
    pub payload_at: usize,
    /// The bytes of the payload of its first chunk.
    pub part_length: usize,
    /// The bytes of its payload, the chunks joined.
    pub payload_length: usize,
    /// The number of its chunks.
    pub chunks: usize,
    /// The type name format, 0 to 5.
    pub tnf: u32,
    /// 1 for the last of the message, else 0.
    pub last: u32,
}

/// The record at a place of the bytes, if one is there.
pub(crate) fn record_at(bytes: &[u8], at: usize) -> Option<NdefRecord>
    ensures none { IfNone result (¬ IsRecordThere bytes.now at) }
    ensures some { IfSome result (IsRecordAt bytes.now at) }
{
    if at > bytes.len() {
        return None;
    }
    let (_, following) = bytes.split_at(at);
    let Some(found) = first_run(following) else {
        return None;
    };
    let first = found.first;
    let payload_end = bytes.len() - first.rest.len();
    let payload_at = payload_end - first.payload.len();
    let id_at = payload_at - first.id.len();
    Some(NdefRecord {
        at,
        end: bytes.len() - found.rest.len(),
        type_at: id_at - first.kind.len(),
        type_length: first.kind.len(),
        id_at,
        id_length: first.id.len(),
        payload_at,
        part_length: first.payload.len(),
        payload_length: found.payload,
        chunks: found.pieces,
        tnf: u32::from(first.tnf().code()),
        last: u32::from(found.last),
    })
}

/// The type name format of a record (NDEF 1.0, TNF).
pub(crate) fn tnf_in(found: &NdefRecord) -> Tnf
    requires { (bytes : List ℕ) × (at : ℕ) × IsRecordAt bytes at found.now }
    ensures { (bytes : List ℕ) (at : ℕ) → (r : IsRecordAt bytes at found.now) → result ≡ (run_record r.run).tnf }
{
    let Some(tnf) = tnf_of(found.tnf) else {
        unreachable!()
    };
    tnf
}

/// The type of a record (NDEF 1.0, TYPE).
pub(crate) fn type_in<'a>(bytes: &'a [u8], found: &NdefRecord) -> &'a [u8]
    requires { (at : ℕ) × IsRecordAt bytes.now at found.now }
    ensures { (at : ℕ) → (r : IsRecordAt bytes.now at found.now) → result.now ≡ (run_record r.run).kind }
{
    &bytes[found.type_at..found.type_at + found.type_length]
}

/// The id of a record, empty where it has none (NDEF 1.0, ID).
pub(crate) fn id_in<'a>(bytes: &'a [u8], found: &NdefRecord) -> &'a [u8]
    requires { (at : ℕ) × IsRecordAt bytes.now at found.now }
    ensures { (at : ℕ) → (r : IsRecordAt bytes.now at found.now) → result.now ≡ (run_record r.run).id }
{
    &bytes[found.id_at..found.id_at + found.id_length]
}

/// The payload of the first piece of a record (NDEF 1.0, PAYLOAD).
pub(crate) fn part_in<'a>(bytes: &'a [u8], found: &NdefRecord) -> &'a [u8]
    requires { (at : ℕ) × IsRecordAt bytes.now at found.now }
    ensures { (at : ℕ) → (r : IsRecordAt bytes.now at found.now) → result.now ≡ r.run.initial.payload }
{
    &bytes[found.payload_at..found.payload_at + found.part_length]
}

/// The record at an offset of the bytes.
#[unsafe(no_mangle)]
pub extern "C" fn ndef_record_at(bytes: &[u8], at: usize, out: &mut NdefRecord) -> u32
    ensures end { result ≡ END ↔ (at ≡ length bytes.now) }
    ensures bad { result ≡ BAD_ARGUMENT ↔ ((at ≢ length bytes.now) × ¬ IsRecordThere bytes.now at) }
    ensures ok { result ≡ OK ↔ IsRecordThere bytes.now at }
    ensures record { result ≡ OK → IsRecordAt bytes.now at out.new }
    ensures kept { result ≢ OK → out.new ≡ out.old }
{
    if at == bytes.len() {
        return END;
    }
    match record_at(bytes, at) {
        Some(record) => {
            *out = record;
            OK
        }
        None => BAD_ARGUMENT,
    }
}

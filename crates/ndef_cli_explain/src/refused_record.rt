//! The record in which bytes are refused.
ghost use Rattle.std.specs.Prelude.{◌≡◌, ◌+◌, ◌*◌, ◌<◌, ◌^◌, ◌≤◌, IfSome, length};
ghost use Rattle.ndef_cli_explain.specs.RefusedRecords.{EndRecords, IsRefusedRecord, end_within, is_chunk};

use crate::fields::cut;
use ndef_diagnostics::{is_lengths_whole, least_record, whole_pieces};
use ndef_format::header::{CHUNK, END, is_set, tnf_number};
use ndef_piece::piece_front;
use ndef_value::Refusal;

/// The record in which bytes are refused.
#[derive(Clone, Copy)]
pub(crate) struct RefusedRecord {
    /// The number of records that end before it.
    pub(crate) before: usize,
    /// Its message ends with it.
    pub(crate) last: bool,
    /// Its end, where its lengths have come, its payload has one piece and it lies whole in the bytes.
    pub(crate) end: Option<usize>,
}

/// The number of records that end in the bytes.
pub(crate) fn records_in(bytes: &[u8]) -> usize
    ensures count { EndRecords bytes.now result }
    ensures few { result ≤ length bytes.now }
{
    whole_pieces(bytes).records
}

/// Whether a piece that begins with these octets has one of several chunks of a payload.
fn is_chunk(octets: &[u8]) -> bool
    ensures { result ≡ is_chunk octets.now }
{
    let header = piece_front(octets).0.header;
    is_set(CHUNK, header) || tnf_number(header) == 6
}

/// The end of a record whose lengths have come, where its payload has one piece and it lies within `size` bytes; these
/// octets of it have come before the byte `at`.
fn end_within(size: usize, at: usize, come: &[u8]) -> Option<usize>
    requires come { length come.now ≤ at }
    requires small { at < 2 ^ 63 }
    ensures end { result ≡ end_within size at come.now }
    ensures within { IfSome result (λ end. end ≤ size) }
    ensures past { IfSome result (λ end. at + 1 < end + length come.now) }
{
    let end = (at - come.len()) as u64 + least_record(come);
    if is_lengths_whole(come) && !is_chunk(come) && end <= size as u64 {
        Some(end as usize)
    } else {
        None
    }
}

/// The record in which the bytes are refused (NDEF 1.0, messages and record layout).
pub(crate) fn refused_record(bytes: &[u8], refusal: Refusal) -> RefusedRecord
    requires { refusal.at ≤ length bytes.now }
    ensures found { IsRefusedRecord bytes.now refusal result }
    ensures few { 2 * result.before ≤ refusal.at }
    ensures within { IfSome result.end (λ end. end ≤ length bytes.now) }
    ensures past { IfSome result.end (λ end. result.before + 1 < end) }
{
    let at = refusal.at as usize;
    let ended = whole_pieces(cut(bytes, at).0);
    RefusedRecord {
        before: ended.records,
        last: is_set(END, piece_front(ended.rest).0.header),
        end: end_within(bytes.len(), at, ended.rest),
    }
}

//! The links of messages (Connection Handover 1.2).
ghost use Rattle.std.specs.Prelude.{◌≡◌, ◌≢◌, ◌↔◌, ◌⊎◌, ◌<◌, ◌+◌, ◌^◌, List, length};
ghost use Rattle.ndef_format.specs.Records.{Run};
ghost use Rattle.ndef_format.specs.Handovers.{IsAlternative};
ghost use Rattle.ndef_types.specs.Values.{AcValue, StandsForAc};
ghost use Rattle.ndef_c.specs.Links.{BeginsWithRuns, HasNoLink, HasRuns, IsLinkAt, MayHaveLinks, TellsPlace, TellsRecord};

use crate::handover::is_handover;
use crate::links::Links;
use crate::message::{Place, has_message, record_with};
use crate::query::give_one;
use crate::status::{BAD_ARGUMENT, END, OK};
use ndef_types::AlternativeParts;

/// A link: an alternative carrier of a handover, and the record to which it refers.
#[repr(C)]
#[derive(Clone, Copy, Drop)]
pub struct NdefLink {
    /// The offset of the payload of its Alternative Carrier record in that of the handover.
    pub carrier_at: usize,
    /// The bytes of that payload.
    pub carrier_length: usize,
    /// The index from 0 of the record of the message; 0 without one.
    pub record_index: usize,
    /// The offset of that record; 0 without one.
    pub record_at: usize,
    /// 1 where it refers to a record, else 0.
    pub has_record: u32,
}

/// 1, the index and the place of a record, or 0s for none.
fn reported(place: Option<Place>) -> (u32, usize, usize)
    ensures { TellsPlace place result.0 result.1 result.2 }
{
    match place {
        Some(place) => (1, place.index, place.at),
        None => (0, 0, 0),
    }
}

/// The link of an alternative carrier that lies in the message of a handover.
pub(crate) fn link_of(bytes: &[u8], at: usize, carrier: &[u8]) -> NdefLink
    requires message { HasRuns bytes.now }
    requires alternative { IsAlternative carrier.now }
    requires bound { at < 2 ^ 32 }
    ensures at { result.carrier_at ≡ at + 1 }
    ensures length { result.carrier_length ≡ length carrier.now }
    ensures refers { (runs : List Run) (v : AcValue) → BeginsWithRuns runs bytes.now
        → StandsForAc carrier.now v → TellsRecord bytes.now runs v.reference result }
{
    let (has_record, record_index, record_at) = reported(record_with(
        bytes,
        AlternativeParts::new(carrier).reference(),
    ));
    NdefLink {
        carrier_at: at + 1,
        carrier_length: carrier.len(),
        record_index,
        record_at,
        has_record,
    }
}

/// Gives the link with an index, if there is one.
fn give_link(bytes: &[u8], payload: &[u8], index: usize, out: &mut NdefLink) -> u32
    requires { MayHaveLinks bytes.now payload.now }
    ensures known { (result ≡ OK) ⊎ (result ≡ END) }
    ensures link { result ≡ OK → IsLinkAt bytes.now payload.now index out.new }
    ensures end { result ≡ END → HasNoLink bytes.now payload.now index }
    ensures kept { result ≢ OK → out.new ≡ out.old }
{
    give_one(&Links { bytes, payload }, index, out)
}

/// Gives the link with an index: where the payload of its Alternative Carrier record lies in the payload of a handover,
/// and the record of the message at the front of the bytes to which it refers.
#[unsafe(no_mangle)]
pub extern "C" fn ndef_link_at(
    bytes: &[u8],
    payload: &[u8],
    index: usize,
    out: &mut NdefLink,
) -> u32
    ensures known { (result ≡ OK) ⊎ (result ≡ END) ⊎ (result ≡ BAD_ARGUMENT) }
    ensures bad { result ≡ BAD_ARGUMENT ↔ ¬ MayHaveLinks bytes.now payload.now }
    ensures link { result ≡ OK → IsLinkAt bytes.now payload.now index out.new }
    ensures end { result ≡ END → HasNoLink bytes.now payload.now index }
    ensures kept { result ≢ OK → out.new ≡ out.old }
{
    if !is_handover(payload) || !has_message(bytes) {
        return BAD_ARGUMENT;
    }
    give_link(bytes, payload, index, out)
}

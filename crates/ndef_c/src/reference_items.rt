//! All references of a handover, read from its payload (Connection Handover 1.2).
ghost use Rattle.std.specs.Prelude.{◌≡◌, ◌<◌, ◌≤◌, ◌+◌, ◌^◌, ◌++◌, ◌%◌, List, length, sum_by};
ghost use Rattle.std.specs.List.{AllByRecursion};
ghost use Rattle.ndef_format.specs.Handovers.{IsAlternative};
ghost use Rattle.ndef_format.specs.Messages.{Item};
ghost use Rattle.ndef_format.specs.declared.profile.Profile.{Profile};
ghost use Rattle.ndef_types.specs.Links.{alternatives};
ghost use Rattle.ndef_types.specs.Values.{AcValue, StandsForAc};
ghost use Rattle.ndef_c.specs.Alternatives.{references};
ghost use Rattle.ndef_c.specs.Arrays.{EachAt, set_over};
ghost use Rattle.ndef_c.specs.HandoverItems.{AreReferenceItems, HasCarriers, HasNoRecord, IsOfPart, IsReferenceOf, reference_count, references_of};
ghost use Rattle.ndef_c.specs.declared.reference_items.NdefReferenceItem.{NdefReferenceItem as Reported};

use crate::alternative::{counted_at, references_in};
use crate::handover::after_version;
use crate::nested::Carriers;
use crate::part::NdefPart;
use crate::query::wants;
use crate::record::part_in;
use crate::walk::Walk;
use ndef_types::alternatives_are_exact;

/// A reference of a handover: of its alternative carriers each has its carrier data reference first, and then its
/// auxiliary ones.
#[repr(C)]
#[derive(Clone, Copy, Drop)]
pub struct NdefReferenceItem {
    /// The index from 0 of its alternative carrier.
    pub carrier: usize,
    /// 0 for the carrier data reference, 1 to 255 for an auxiliary one.
    pub number: usize,
    /// The offset of the payload of that Alternative Carrier record in that of the handover.
    pub carrier_at: usize,
    /// The bytes of that payload.
    pub carrier_length: usize,
    /// The offset of the reference in the payload of the handover.
    pub at: usize,
    /// The bytes of the reference, at most 255.
    pub length: usize,
    /// The index from 0 of the record of the message to which it refers; 0 without one.
    pub record_index: usize,
    /// The offset of that record; 0 without one.
    pub record_at: usize,
    /// The power state of the carrier, 0 to 3.
    pub power: u32,
    /// 1 where it refers to a record, else 0.
    pub has_record: u32,
}

/// An alternative carrier: its index, the offset of its payload in that of the handover, and its payload.
#[derive(Clone, Copy)]
struct Carrier<'a> {
    index: usize,
    at: usize,
    payload: &'a [u8],
}

/// The reference with a number that lies in the payload of a carrier.
fn item_of(carrier: &Carrier<'_>, number: usize, part: &NdefPart) -> NdefReferenceItem
    requires some { 0 < length carrier.now.payload.now }
    requires bound { carrier.now.at + part.now.at < 2 ^ 32 }
    ensures { IsOfPart carrier.now number part.now result }
{
    NdefReferenceItem {
        carrier: carrier.index,
        number,
        carrier_at: carrier.at,
        carrier_length: carrier.payload.len(),
        at: carrier.at + part.at,
        length: part.length,
        record_index: 0,
        record_at: 0,
        power: u32::from(carrier.payload[0] % 4),
        has_record: 0,
    }
}

/// Writes the references of a carrier to the array from an index on, and returns the index after them.
fn tell_carrier(carrier: &Carrier<'_>, from: usize, items: &mut [NdefReferenceItem]) -> usize
    requires alternative { IsAlternative carrier.now.payload.now }
    requires short { carrier.now.at + length carrier.now.payload.now < 2 ^ 32 }
    requires buffer { from + references_of carrier.now.payload.now ≤ length items.old }
    ensures next { result ≡ from + references_of carrier.now.payload.now }
    ensures tells { (v : AcValue) (done before : List Reported) → StandsForAc carrier.now.payload.now v
        → items.old ≡ set_over done before → from ≡ length done → (own : List Reported)
        × EachAt (IsReferenceOf carrier.now v) 0 own × (length own ≡ references_of carrier.now.payload.now)
        × AllByRecursion HasNoRecord own × (items.new ≡ set_over (done ++ own) before) }
{
    let payload = carrier.payload;
    let first = usize::from(payload[1]);
    let count = usize::from(payload[2 + first]);
    let mut at = 3 + first;
    items[from] = item_of(carrier, 0, &counted_at(payload, 1));
    for before in 0..count {
        let part = counted_at(payload, at);
        at = part.at + part.length;
        items[from + 1 + before] = item_of(carrier, before + 1, &part);
    }
    from + 1 + count
}

/// The number of references of the alternative carriers of a handover.
pub(crate) fn count_references(payload: &[u8]) -> usize
    requires carriers { (profile : Profile) × (records : List Item) × HasCarriers profile records payload.now }
    requires short { length payload.now < 2 ^ 32 }
    ensures { (profile : Profile) (records : List Item) → HasCarriers profile records payload.now
        → result ≡ sum_by reference_count (alternatives records) }
{
    let message = after_version(payload);
    let mut count = 0;
    for found in Walk::from(message, 0) {
        if wants::<Carriers>(message, &found) {
            count += references_in(part_in(message, &found));
        }
    }
    count
}

/// Writes the references of a handover to the front of the array.
pub(crate) fn tell_references(payload: &[u8], items: &mut [NdefReferenceItem])
    requires carriers { (profile : Profile) × (records : List Item) × HasCarriers profile records payload.now }
    requires buffer { (profile : Profile) (records : List Item) → HasCarriers profile records payload.now
        → sum_by reference_count (alternatives records) ≤ length items.old }
    requires short { length payload.now < 2 ^ 32 }
    ensures { (profile : Profile) (records : List Item) → HasCarriers profile records payload.now
        → (reported : List Reported) × AreReferenceItems payload.now 0 (alternatives records) reported
        × (length reported ≡ sum_by reference_count (alternatives records))
        × AllByRecursion HasNoRecord reported × (items.new ≡ set_over reported items.old) }
{
    // Only for the proof.
    alternatives_are_exact();
    let message = after_version(payload);
    let mut index = 0;
    let mut count = 0;
    for found in Walk::from(message, 0) {
        if wants::<Carriers>(message, &found) {
            let carrier = Carrier {
                index,
                at: found.payload_at + 1,
                payload: part_in(message, &found),
            };
            count = tell_carrier(&carrier, count, items);
            index += 1;
        }
    }
}

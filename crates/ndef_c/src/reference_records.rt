//! The records of a message to which the references of a handover refer (Connection Handover 1.2).
ghost use Rattle.std.specs.Prelude.{◌≡◌, ◌<◌, ◌+◌, ℕ, List, [], length, map, slice_index_or, Some};
ghost use Rattle.std.specs.List.{AllByRecursion};
ghost use Rattle.std.specs.List.Sorted.{IsPermutation, IsSortedBy};
ghost use Rattle.ndef_c.specs.HandoverItems.{HasNoRecord, Refers, name_in, without_record};
ghost use Rattle.ndef_c.specs.Links.{HasRuns, TellsPlace};
ghost use Rattle.ndef_c.specs.ReferenceOrder.{ArePlaced, IsHead, Links, has_smaller_name, order, comes_first};
ghost use Rattle.ndef_c.specs.declared.reference_items.NdefReferenceItem.{NdefReferenceItem as Reported};

use crate::message::Place;
use crate::record::id_in;
use crate::reference_items::NdefReferenceItem;
use crate::walk::Walk;
use std::cmp::Ordering;

/// A reference, where it lies in the payload.
fn name_in<'a>(payload: &'a [u8], item: &NdefReferenceItem) -> &'a [u8]
    ensures { result.now ≡ name_in payload.now item.now }
{
    if item.at > payload.len() {
        return &payload[..0];
    }
    let (_, from) = payload.split_at(item.at);
    if item.length > from.len() {
        return from;
    }
    &from[..item.length]
}

/// The reference, with the record at a place.
fn linked(item: &NdefReferenceItem, place: Place) -> NdefReferenceItem
    ensures same { without_record result ≡ without_record item.now }
    ensures place { TellsPlace (Some place) result.has_record result.record_index result.record_at }
{
    NdefReferenceItem {
        record_index: place.index,
        record_at: place.at,
        has_record: 1,
        ..*item
    }
}

/// The reference, with the record of another one, if that has one.
fn linked_as(item: &NdefReferenceItem, other: &NdefReferenceItem) -> NdefReferenceItem
    ensures same { without_record result ≡ without_record item.now }
    ensures has { result.has_record ≡ other.now.has_record }
    ensures index { result.record_index ≡ other.now.record_index }
    ensures at { result.record_at ≡ other.now.record_at }
{
    NdefReferenceItem {
        record_index: other.record_index,
        record_at: other.record_at,
        has_record: other.has_record,
        ..*item
    }
}

/// Which of two references comes first: the one that is less, or else the one of the earlier carrier, or the earlier
/// one of a carrier.
fn compare(payload: &[u8], one: &NdefReferenceItem, other: &NdefReferenceItem) -> Ordering
    ensures { result ≡ order payload.now one.now other.now }
{
    name_in(payload, one)
        .cmp(name_in(payload, other))
        .then(one.carrier.cmp(&other.carrier))
        .then(one.number.cmp(&other.number))
}

/// Sorts references by what they are in the payload, and then by their carriers.
fn sort(payload: &[u8], items: &mut [NdefReferenceItem])
    ensures same { IsPermutation items.old items.new }
    ensures sorted { IsSortedBy (comes_first payload.now) items.new }
{
    items.sort_unstable_by(|one, other| compare(payload, one, other));
}

/// Gives the first of the references that are an id a record, unless it has one.
fn link_first(payload: &[u8], id: &[u8], place: Place, items: &mut [NdefReferenceItem])
    requires sorted { IsSortedBy (has_smaller_name payload.now) items.old }
    ensures same { map without_record items.new ≡ map without_record items.old }
    ensures linked { (k : ℕ) (d : Reported) → k < length items.old → IsHead payload.now items.old k
        → Links payload.now id.now place (slice_index_or items.old k d) (slice_index_or items.new k d) }
{
    let first = items.partition_point(|item| name_in(payload, item).cmp(id).is_lt());
    if first < items.len() {
        let item = items[first];
        if item.has_record == 0 && name_in(payload, &item) == id {
            items[first] = linked(&item, place);
        }
    }
}

/// Gives the first of the references that are the same its record.
fn link_heads(bytes: &[u8], payload: &[u8], items: &mut [NdefReferenceItem])
    requires message { HasRuns bytes.now }
    requires none { AllByRecursion HasNoRecord items.old }
    requires sorted { IsSortedBy (has_smaller_name payload.now) items.old }
    ensures same { map without_record items.new ≡ map without_record items.old }
    ensures heads { (k : ℕ) (d : Reported) → k < length items.old → IsHead payload.now items.old k
        → Refers bytes.now payload.now (slice_index_or items.new k d) }
{
    let mut index = 0;
    for found in Walk::from(bytes, 0) {
        let id = id_in(bytes, &found);
        if !id.is_empty() {
            let place = Place {
                index,
                at: found.at,
            };
            link_first(payload, id, place, items);
        }
        index += 1;
    }
}

/// Gives the other ones the same record.
fn link_others(payload: &[u8], items: &mut [NdefReferenceItem])
    ensures same { map without_record items.new ≡ map without_record items.old }
    ensures all { (bytes : List ℕ) → ((k : ℕ) (d : Reported) → k < length items.old
        → IsHead payload.now items.old k → Refers bytes payload.now (slice_index_or items.old k d))
        → AllByRecursion (Refers bytes payload.now) items.new }
{
    for index in 1..items.len() {
        let before = items[index - 1];
        let item = items[index];
        if name_in(payload, &before) == name_in(payload, &item) {
            items[index] = linked_as(&item, &before);
        }
    }
}

/// Gives each of the references, in their order, the record of the message to which it refers. They are sorted, so
/// that the time grows with their number times its logarithm.
pub(crate) fn link(bytes: &[u8], payload: &[u8], items: &mut [NdefReferenceItem])
    requires message { HasRuns bytes.now }
    requires none { AllByRecursion HasNoRecord items.old }
    requires placed { ArePlaced items.old }
    ensures same { map without_record items.new ≡ items.old }
    ensures records { AllByRecursion (Refers bytes.now payload.now) items.new }
{
    sort(payload, items);
    link_heads(bytes, payload, items);
    link_others(payload, items);
    sort(&[], items);
}

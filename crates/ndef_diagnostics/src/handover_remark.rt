//! Remarks about the records of a handover.
ghost use Rattle.std.specs.Prelude.{◌≡◌};
ghost use Rattle.ndef_format.specs.declared.table.Table.TheVariants as tables;
ghost use Rattle.ndef_diagnostics.specs.RecordRemarks.{count_carriers, count_collisions, has_dangling, has_dangling_carrier};
ghost use Rattle.ndef_diagnostics.specs.RecordRemarks.{is_carrier_kind, is_carrier_dangling, is_collision_kind, is_dangling_in};
ghost use Rattle.ndef_diagnostics.specs.RecordRemarks.{reference_remark, request_remark, run_kind_in, whole_payload};

use crate::Remark;
use crate::begun::{after, front_of, octet_at};
use crate::few::{refers, whole_payload};
use ndef_lang::Kind;
use ndef_message::{Item, View};
use ndef_nest::Table;

/// Whether a record of a handover is an alternative carrier; a select has the same ones as a request.
fn is_carrier(item: &Item<'_>) -> bool
    ensures { result ≡ is_carrier_kind (run_kind_in tables.Request item.now) }
{
    match Table::Request.kind(item.tnf(), item.kind()) {
        Kind::Alternative => true,
        _ => false,
    }
}

/// Whether a record of a request is a collision resolution record.
fn is_collision(item: &Item<'_>) -> bool
    ensures { result ≡ is_collision_kind (run_kind_in tables.Request item.now) }
{
    match Table::Request.kind(item.tnf(), item.kind()) {
        Kind::Collision => true,
        _ => false,
    }
}

/// The number of alternative carriers.
fn count_carriers(handover: &View<'_>) -> usize
    ensures { result ≡ count_carriers handover.now.runs }
{
    let mut count = 0;
    for item in handover.items() {
        if is_carrier(&item) {
            count += 1;
        }
    }
    count
}

/// The number of collision resolution records.
fn count_collisions(handover: &View<'_>) -> usize
    ensures { result ≡ count_collisions handover.now.runs }
{
    let mut count = 0;
    for item in handover.items() {
        if is_collision(&item) {
            count += 1;
        }
    }
    count
}

/// Whether one of this number of references, each after its length, is to no record.
fn has_dangling(count: u8, octets: &[u8], message: &View<'_>) -> bool
    ensures { result ≡ has_dangling count octets.now message.now.runs }
{
    let mut rest = octets;
    let mut left = count;
    while left > 0 {
        let size = usize::from(octet_at(rest, 0));
        if !refers(message, front_of(after(rest, 1), size)) {
            return true;
        }
        rest = after(rest, 1 + size);
        left -= 1;
    }
    false
}

/// Whether a reference of an alternative carrier is to no record.
fn is_carrier_dangling(payload: &[u8], message: &View<'_>) -> bool
    ensures { result ≡ is_carrier_dangling payload.now message.now.runs }
{
    let size = usize::from(octet_at(payload, 1));
    let count = octet_at(after(payload, 2 + size), 0);
    has_dangling(1, after(payload, 1), message)
        || has_dangling(count, after(payload, 3 + size), message)
}

/// Whether a record of a handover is an alternative carrier of which a reference is to no record of the message.
fn is_dangling(item: &Item<'_>, message: &View<'_>) -> bool
    ensures { result ≡ is_dangling_in item.now message.now.runs }
{
    is_carrier(item) && is_carrier_dangling(whole_payload(item), message)
}

/// Whether a reference of an alternative carrier is to no record of the message.
fn has_dangling_carrier(handover: &View<'_>, message: &View<'_>) -> bool
    ensures { result ≡ has_dangling_carrier handover.now.runs message.now.runs }
{
    for item in handover.items() {
        if is_dangling(&item, message) {
            return true;
        }
    }
    false
}

/// Returns the remark about the references of a handover.
pub(crate) fn reference_remark(handover: &View<'_>, message: &View<'_>) -> Option<Remark>
    ensures { result ≡ reference_remark handover.now.runs message.now.runs }
{
    if has_dangling_carrier(handover, message) {
        Some(Remark::DanglingReference)
    } else {
        None
    }
}

/// Returns the remark about a request.
pub(crate) fn request_remark(request: &View<'_>, message: &View<'_>) -> Option<Remark>
    ensures { result ≡ request_remark request.now.runs message.now.runs }
{
    if count_carriers(request) == 0 {
        return Some(Remark::NoCarrier);
    }
    if count_collisions(request) > 1 {
        return Some(Remark::SecondCollision);
    }
    reference_remark(request, message)
}

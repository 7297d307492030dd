//! A handover and all its references, in one call (Connection Handover 1.2).
ghost use Rattle.std.specs.Prelude.{◌≡◌, ◌≢◌, ◌<◌, ◌^◌, ◌↔◌, ◌⊎◌, List, length, sum_by, None, IfSome, IsTrue};
ghost use Rattle.ndef_format.specs.Messages.{Item};
ghost use Rattle.ndef_format.specs.Nested.{IsNest};
ghost use Rattle.ndef_format.specs.NestedReasons.{NestReason};
ghost use Rattle.ndef_format.specs.declared.profile.Profile.{Profile};
ghost use Rattle.ndef_format.specs.declared.table.Table.TheVariants as tables;
ghost use Rattle.ndef_types.specs.Links.{alternatives};
ghost use Rattle.ndef_value.specs.declared.limits.TheConstants.{MOST_RECORDS};
ghost use Rattle.ndef_c.specs.Checks.{profile_of};
ghost use Rattle.ndef_c.specs.HandoverItems.{GivesReferences, HasCarriers, MayRefer, TellsHandover, handover_table, reference_count};
ghost use Rattle.ndef_c.specs.Payloads.{RefusesWith};

use crate::checking::NdefChecked;
use crate::items::kind_with;
use crate::message::has_message;
use crate::reference_items::{NdefReferenceItem, count_references, tell_references};
use crate::reference_records::link;
use crate::refusal::accepts;
use crate::request::request_at;
use crate::select::select_at;
use crate::status::{BAD_ARGUMENT, BUFFER_TOO_SMALL, OK, REFUSED};
use ndef_nest::{Nest, Table};

/// A handover request or a select.
#[repr(C)]
#[derive(Clone, Copy, Drop)]
pub struct NdefHandoverParts {
    /// Its alternative carriers.
    pub carriers: usize,
    /// The references of all of them.
    pub references: usize,
    /// The offset of the data of the error of a select; 0 without one.
    pub detail_at: usize,
    /// The bytes of that data; 0 without one.
    pub detail_length: usize,
    /// The major version, which is 1.
    pub major: u32,
    /// The minor version, 0 to 15.
    pub minor: u32,
    /// The random number of a request, 0 to 65535; 0 for a select.
    pub collision: u32,
    /// 1 for a select with an error, else 0.
    pub has_error: u32,
    /// The reason of that error, 0 to 255; 0 without one.
    pub error: u32,
}

/// The kind of handover with a number.
fn handover_table(kind: u32) -> Option<Table>
    ensures table { result ≡ handover_table kind }
    ensures handover { IfSome result (λ table. table ≢ tables.SmartPoster) }
{
    match kind {
        4 => Some(Table::Request),
        5 => Some(Table::Select),
        _ => None,
    }
}

/// A handover, with the number of its references.
fn handover_of(table: Table, payload: &[u8]) -> NdefHandoverParts
    requires handover { table ≢ tables.SmartPoster }
    requires nest { (profile : Profile) × IsNest table MOST_RECORDS profile payload.now }
    requires short { length payload.now < 2 ^ 32 }
    ensures tells { (profile : Profile) → IsNest table MOST_RECORDS profile payload.now
        → TellsHandover table profile payload.now result }
    ensures references { (profile : Profile) (records : List Item) → HasCarriers profile records payload.now
        → result.references ≡ sum_by reference_count (alternatives records) }
{
    let references = count_references(payload);
    match table {
        Table::Request => {
            let request = request_at(payload);
            NdefHandoverParts {
                carriers: request.carriers,
                references,
                detail_at: 0,
                detail_length: 0,
                major: request.major,
                minor: request.minor,
                collision: request.collision,
                has_error: 0,
                error: 0,
            }
        }
        Table::Select => {
            let select = select_at(payload);
            NdefHandoverParts {
                carriers: select.carriers,
                references,
                detail_at: select.detail_at,
                detail_length: select.detail_length,
                major: select.major,
                minor: select.minor,
                collision: 0,
                has_error: select.has_error,
                error: select.error,
            }
        }
        Table::SmartPoster => unreachable!(),
    }
}

/// Writes the references and the records to which they refer, if the array is large enough.
fn give_items(bytes: &[u8], payload: &[u8], count: usize, items: &mut [NdefReferenceItem]) -> u32
    requires message { MayRefer bytes.now }
    requires carriers { (profile : Profile) × (records : List Item) × HasCarriers profile records payload.now }
    requires count { (profile : Profile) (records : List Item) → HasCarriers profile records payload.now
        → count ≡ sum_by reference_count (alternatives records) }
    requires short { length payload.now < 2 ^ 32 }
    ensures gives { (profile : Profile) (records : List Item) → HasCarriers profile records payload.now
        → GivesReferences profile payload.now bytes.now items.old items.new count result }
    ensures known { (result ≡ OK) ⊎ (result ≡ BUFFER_TOO_SMALL) }
{
    if items.len() < count {
        return BUFFER_TOO_SMALL;
    }
    tell_references(payload, items);
    if !bytes.is_empty() {
        link(bytes, payload, &mut items[..count]);
    }
    OK
}

/// Whether there is no message, or the bytes begin with one.
fn may_refer(bytes: &[u8]) -> bool
    ensures { IsTrue result ↔ MayRefer bytes.now }
{
    bytes.is_empty() || has_message(bytes)
}

/// Reads the payload of a Handover Request or a Handover Select record, and gives all references of its alternative
/// carriers: of each its carrier data reference, and then its auxiliary ones, by offsets in the payload. Each has the
/// first record with that id of the message with which the bytes begin; an empty reference refers to none. With no
/// bytes there is no message, and no reference has a record. `kind` is the number of the kind of the payload. A call
/// with no items says how many there are.
///
/// The time grows with the number of records and references, times the logarithm of that of the references, whatever
/// their ids are.
///
/// - `OK`: the first `out->references` items are the references.
/// - `BUFFER_TOO_SMALL`: there are fewer than `out->references` items; they are unchanged.
/// - `REFUSED`: the payload is none of the kind: `refusal` says where and why. `out` and the items are unchanged.
/// - `BAD_ARGUMENT`: payloads of the kind are no handovers, an unknown flag is set, or the bytes don't begin with the
///   records of a message up to one that ends it; nothing is written.
#[unsafe(no_mangle)]
pub extern "C" fn ndef_handover_items(
    kind: u32,
    payload: &[u8],
    flags: u32,
    bytes: &[u8],
    out: &mut NdefHandoverParts,
    refusal: &mut NdefChecked,
    items: &mut [NdefReferenceItem],
) -> u32
    ensures bad { result ≡ BAD_ARGUMENT ↔ ((1 < flags) ⊎ (¬ MayRefer bytes.now) ⊎ (handover_table kind ≡ None)) }
    ensures handover { (result ≡ OK) ⊎ (result ≡ BUFFER_TOO_SMALL) → IfSome (handover_table kind)
        (λ table. TellsHandover table (profile_of flags) payload.now out.new) }
    ensures references { (result ≡ OK) ⊎ (result ≡ BUFFER_TOO_SMALL)
        → GivesReferences (profile_of flags) payload.now bytes.now items.old items.new out.new.references result }
    ensures refused { result ≡ REFUSED → IfSome (handover_table kind)
        (λ table. RefusesWith (IsNest table MOST_RECORDS (profile_of flags))
        (NestReason table MOST_RECORDS (profile_of flags)) payload.now refusal.new) }
    ensures known { (result ≡ OK) ⊎ (result ≡ BUFFER_TOO_SMALL) ⊎ (result ≡ REFUSED) ⊎ (result ≡ BAD_ARGUMENT) }
    ensures kept { (result ≡ REFUSED) ⊎ (result ≡ BAD_ARGUMENT) → (out.new ≡ out.old) × (items.new ≡ items.old) }
    ensures kept_refusal { result ≢ REFUSED → refusal.new ≡ refusal.old }
{
    if flags > 1 || !may_refer(bytes) {
        return BAD_ARGUMENT;
    }
    let Some(table) = handover_table(kind) else {
        return BAD_ARGUMENT;
    };
    if !accepts::<Nest>(kind_with(table), flags, payload, refusal) {
        return REFUSED;
    }
    *out = handover_of(table, payload);
    give_items(bytes, payload, out.references, items)
}

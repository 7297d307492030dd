//! The field of each byte of a message.
ghost use Rattle.std.specs.Prelude.{◌≡◌, ◌≢◌, ℕ, ◌+◌, ◌<◌, ◌≤◌, ◌^◌, ◌↔◌, ◌⊎◌, List, length, map, take, IfNone, IfSome, IsSome};
ghost use Rattle.ndef_format.specs.NestedReasons.{TypedReason};
ghost use Rattle.ndef_format.specs.Payloads.{IsTypedPayload};
ghost use Rattle.ndef_fields.specs.FieldLaws.{AreGapless};
ghost use Rattle.ndef_fields.specs.Reports.{AreFieldsBefore, IsMessageFront};
ghost use Rattle.ndef_fields.specs.declared.field.Field.{Field as Part};
ghost use Rattle.ndef_c.specs.Arrays.{set_over};
ghost use Rattle.ndef_c.specs.Checks.{ChecksTo, limits_of};
ghost use Rattle.ndef_c.specs.Fields.{GivesEach, GivesFieldAt, GivesFields, GivesWith, IsFieldWith, MayTellFields, numbers_of};

use crate::checking::{NdefChecked, check_in};
use crate::field_names::number_of;
use crate::limits::{NdefLimits, limits_of};
use crate::status::{BAD_ARGUMENT, BUFFER_TOO_SMALL, END, OK};
use ndef_fields::{Field, Fields, fields_before, fields_before_are_exact};
use ndef_nest::Typed;
use ndef_piece::heads_are_unambiguous;
use ndef_value::Limits;

/// A field of a message: at least one byte.
#[repr(C)]
#[derive(Clone, Copy, Drop)]
pub struct NdefField {
    /// Where it begins.
    pub at: usize,
    /// Its bytes.
    pub length: usize,
    /// 0 in the message itself, 1 in a message within a payload.
    pub depth: u32,
    /// The number of its name.
    pub name: u32,
}

/// A field as numbers.
fn numbers_of(field: &Field) -> NdefField
    ensures { result ≡ numbers_of field.now }
{
    NdefField {
        at: field.at,
        length: field.length,
        depth: u32::from(field.depth),
        name: number_of(field.name),
    }
}

/// Returns the limits of these numbers, if payloads are validated.
pub(crate) fn typed_limits(numbers: &NdefLimits) -> Option<Limits>
    ensures some { IsSome result ↔ MayTellFields numbers.now }
    ensures limits { IfSome result (λ r. r ≡ limits_of numbers.now) }
{
    match limits_of(numbers) {
        Some((limits, true)) => Some(limits),
        Some((_, false)) | None => None,
    }
}

/// The bytes of the message, or those before the refused byte, and what a check answers.
fn checked_front<'a>(bytes: &'a [u8], limits: Limits, refusal: &mut NdefChecked) -> (&'a [u8], u32)
    ensures checks { ChecksTo IsTypedPayload TypedReason limits bytes.now result.1 refusal.new }
    ensures front { result.0.now ≡ take refusal.new.place bytes.now }
    ensures viable { IsMessageFront result.0.now }
    ensures size { length result.0.now ≡ refusal.new.place }
{
    let checked = check_in::<Typed>(bytes, limits, refusal);
    let (front, _rest) = bytes.split_at(refusal.place as usize);
    (front, checked)
}

/// The number of fields.
fn count_of(fields: Fields<'_>) -> usize
    requires { length fields < 2 ^ 64 }
    ensures { result ≡ length fields.entry }
{
    let mut count = 0;
    for _field in fields {
        count += 1;
    }
    count
}

/// The number of the fields of some bytes, if it is more than `most`.
pub(crate) fn too_many(fields: Fields<'_>, bytes: usize, most: usize) -> Option<usize>
    requires { length fields ≤ bytes }
    ensures some { IfSome result (λ count. (count ≡ length fields.entry) × (most < count)) }
    ensures none { IfNone result (length fields.entry ≤ most) }
{
    // A field has at least one byte, so these need not be counted.
    if bytes <= most {
        return None;
    }
    let count = count_of(fields);
    if count <= most {
        return None;
    }
    Some(count)
}

/// Writes the fields to the front of the array, and returns how many there are.
pub(crate) fn write_fields(fields: Fields<'_>, array: &mut [NdefField]) -> usize
    requires { length fields ≤ length array.old }
    ensures array { array.new ≡ set_over (map numbers_of fields.entry) array.old }
    ensures count { result ≡ length fields.entry }
{
    let mut index = 0;
    for field in fields {
        array[index] = numbers_of(&field);
        index += 1;
    }
    index
}

/// Writes the fields of these bytes, a front of a message, if the array is large enough, and sets `count` to their
/// number. Returns the status of the check, or that the array is too small.
fn give_fields(front: &[u8], checked: u32, array: &mut [NdefField], count: &mut usize) -> u32
    requires { IsMessageFront front.now }
    ensures known { (result ≡ BUFFER_TOO_SMALL) ⊎ (result ≡ checked) }
    ensures fields { (reported : List Part) × AreFieldsBefore front.now reported
        × GivesEach reported checked array.old array.new count.new result }
{
    fields_before_are_exact();
    let Some(needed) = too_many(fields_before(front), front.len(), array.len()) else {
        *count = write_fields(fields_before(front), array);
        return checked;
    };
    *count = needed;
    BUFFER_TOO_SMALL
}

/// Gives the field of each byte of the message with which the bytes begin, or of those before the refused byte (NDEF
/// 1.0, record layout), and what a check answers.
#[unsafe(no_mangle)]
pub extern "C" fn ndef_fields(
    bytes: &[u8],
    limits: &NdefLimits,
    fields: &mut [NdefField],
    count: &mut usize,
    refusal: &mut NdefChecked,
) -> u32
    ensures bad { result ≡ BAD_ARGUMENT ↔ ¬ MayTellFields limits.now }
    ensures kept { result ≡ BAD_ARGUMENT
        → (fields.new ≡ fields.old) × (count.new ≡ count.old) × (refusal.new ≡ refusal.old) }
    ensures fields { result ≢ BAD_ARGUMENT
        → GivesFields (limits_of limits.now) bytes.now fields.old fields.new count.new result refusal.new }
{
    // For the proof alone.
    heads_are_unambiguous();
    let Some(limits) = typed_limits(limits) else {
        return BAD_ARGUMENT;
    };
    let (front, checked) = checked_front(bytes, limits, refusal);
    give_fields(front, checked, fields, count)
}

/// The field with the byte at a place, of fields that follow one another from 0 on.
fn field_with(fields: Fields<'_>, place: usize) -> Option<Field>
    requires { (end : ℕ) × AreGapless 0 fields end }
    ensures some { IfSome result (IsFieldWith fields.entry place) }
    ensures none { IfNone result ((end : ℕ) → AreGapless 0 fields.entry end → end ≤ place) }
{
    for field in fields {
        if place - field.at < field.length {
            return Some(field);
        }
    }
    None
}

/// Gives the field with the byte at a place of these bytes, a front of a message. Returns `following` without one.
fn give_field(front: &[u8], place: usize, following: u32, out: &mut NdefField) -> u32
    requires { IsMessageFront front.now }
    ensures known { (result ≡ OK) ⊎ (result ≡ following) }
    ensures within { (reported : List Part) × AreFieldsBefore front.now reported
        × (place < length front.now → (result ≡ OK) × GivesWith reported place out.new) }
    ensures following { length front.now ≤ place → (result ≡ following) × (out.new ≡ out.old) }
{
    fields_before_are_exact();
    match field_with(fields_before(front), place) {
        Some(field) => {
            *out = numbers_of(&field);
            OK
        }
        None => following,
    }
}

/// Returns the status after the last field, from the status of the check.
fn answer_after(checked: u32) -> u32
    ensures ended { checked ≡ OK → result ≡ END }
    ensures refused { checked ≢ OK → result ≡ checked }
{
    if checked == OK { END } else { checked }
}

/// Gives the field of the byte at an offset of the message with which the bytes begin, or of those before the refused
/// byte, and what a check answers.
#[unsafe(no_mangle)]
pub extern "C" fn ndef_field_at(
    bytes: &[u8],
    limits: &NdefLimits,
    place: usize,
    out: &mut NdefField,
    refusal: &mut NdefChecked,
) -> u32
    ensures bad { result ≡ BAD_ARGUMENT ↔ ¬ MayTellFields limits.now }
    ensures kept { result ≡ BAD_ARGUMENT → (out.new ≡ out.old) × (refusal.new ≡ refusal.old) }
    ensures field { result ≢ BAD_ARGUMENT
        → GivesFieldAt (limits_of limits.now) bytes.now place out.old out.new result refusal.new }
{
    // For the proof alone.
    heads_are_unambiguous();
    let Some(limits) = typed_limits(limits) else {
        return BAD_ARGUMENT;
    };
    let (front, checked) = checked_front(bytes, limits, refusal);
    give_field(front, place, answer_after(checked), out)
}

/// Steps to the field after this one, of which the length 0 and the offset 0 are before the first.
#[unsafe(no_mangle)]
pub extern "C" fn ndef_next_field(
    bytes: &[u8],
    limits: &NdefLimits,
    field: &mut NdefField,
    refusal: &mut NdefChecked,
) -> u32
    ensures bad { result ≡ BAD_ARGUMENT ↔ ¬ MayTellFields limits.now }
    ensures kept { result ≡ BAD_ARGUMENT → (field.new ≡ field.old) × (refusal.new ≡ refusal.old) }
    ensures next { result ≢ BAD_ARGUMENT
        → GivesFieldAt (limits_of limits.now) bytes.now (field.old.at + field.old.length)
        field.old field.new result refusal.new }
{
    let place = field.at.saturating_add(field.length);
    ndef_field_at(bytes, limits, place, field, refusal)
}

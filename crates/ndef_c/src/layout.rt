//! Payloads of a layout that a program gives.
ghost use Rattle.std.specs.Prelude.{◌≡◌, ◌<◌, ◌+◌, ◌^◌, ◌↔◌, ◌⊎◌, ◌∷◌, [], false, true, length, IfNone, IfSome, IsTrue, IsUtf8};
ghost use Rattle.ndef_c.specs.Layouts.{GoesOn, HasLaidLength, IsLaidOut, IsOfLayout, IsRefusedFirst, IsRefusedIn};
ghost use Rattle.ndef_c.specs.Layouts.{IsRefusedText, MayBeField, MayBeLayout, RefusesLayout, TakesLayout};
ghost use Rattle.ndef_c.specs.Layouts.{field_of, is_last, layout_of, least_in, most_in};

use crate::status::{BAD_ARGUMENT, OK, REFUSED};
use ndef_lang::{Kind, Language, Utf8Lang};
use ndef_value::{MOST_PAYLOAD, Profile, Reason, Refusal};

/// `least` octets.
pub const LAYOUT_OCTETS: u32 = 1;
/// One octet, from `least` to `most`.
pub const LAYOUT_WITHIN: u32 = 2;
/// Octets after their number, which is one octet.
pub const LAYOUT_COUNTED: u32 = 3;
/// A text in UTF-8, up to the end of the payload.
pub const LAYOUT_UTF8: u32 = 4;
/// Any octets, up to the end of the payload.
pub const LAYOUT_REST: u32 = 5;

/// The most fields of a layout.
const MOST_FIELDS: usize = 255;

/// A field of the layout of a payload.
#[repr(C)]
#[derive(Clone, Copy, Drop)]
pub struct NdefLayoutField {
    /// What it holds, one of ndef_layout_form.
    pub form: u32,
    /// Its number of octets, or the least octet; else it isn't read.
    pub least: u32,
    /// The greatest octet, at most 255; else it isn't read.
    pub most: u32,
}

/// What a check of a payload by its layout answers.
#[repr(C)]
#[derive(Clone, Copy, Drop)]
pub struct NdefLaidOut {
    /// The length of the payload, or the offset of the refused octet.
    pub place: u64,
    /// 0, or the number of the reason.
    pub reason: u32,
    /// 1, or 0 where no payload of the layout has the length of this one.
    pub length_fits: u32,
}

/// A field of a layout.
#[derive(Clone, Copy)]
pub(crate) enum Field {
    /// This number of octets.
    Octets(u32),
    /// One octet, from the first to the second.
    Within(u8, u8),
    /// Octets after their number, which is one octet.
    Counted,
    /// A text in UTF-8, up to the end.
    Utf8,
    /// Any octets, up to the end.
    Rest,
}

/// The field that the numbers say.
fn field_of(numbers: &NdefLayoutField) -> Option<Field>
    ensures none { IfNone result (¬ MayBeField numbers.now) }
    ensures some { IfSome result (λ field. MayBeField numbers.now × (field ≡ field_of numbers.now)) }
{
    match numbers.form {
        LAYOUT_OCTETS => Some(Field::Octets(numbers.least)),
        LAYOUT_WITHIN => {
            if numbers.least <= numbers.most && numbers.most <= 255 {
                Some(Field::Within(numbers.least as u8, numbers.most as u8))
            } else {
                None
            }
        }
        LAYOUT_COUNTED => Some(Field::Counted),
        LAYOUT_UTF8 => Some(Field::Utf8),
        LAYOUT_REST => Some(Field::Rest),
        _ => None,
    }
}

/// Whether a field goes to the end of the payload.
fn is_last(field: Field) -> bool
    ensures { result ≡ is_last field }
{
    match field {
        Field::Utf8 | Field::Rest => true,
        Field::Octets(_) | Field::Within(_, _) | Field::Counted => false,
    }
}

/// Whether these are the fields of a layout: none comes after one that goes to the end.
fn may_be_layout(fields: &[NdefLayoutField]) -> bool
    ensures { IsTrue result ↔ MayBeLayout fields.now }
{
    if fields.len() > MOST_FIELDS {
        return false;
    }
    let mut left = fields;
    while let [numbers, more @ ..] = left {
        let Some(field) = field_of(numbers) else {
            return false;
        };
        if is_last(field) && !more.is_empty() {
            return false;
        }
        left = more;
    }
    true
}

/// The least and the greatest number of octets of a field that doesn't go to the end.
fn bounds_in(field: Field) -> (u64, u64)
    ensures least { result.0 ≡ least_in field }
    ensures most { result.1 ≡ most_in field }
{
    match field {
        Field::Octets(count) => (u64::from(count), u64::from(count)),
        Field::Within(_, _) => (1, 1),
        Field::Counted => (1, 256),
        Field::Utf8 | Field::Rest => (0, 0),
    }
}

/// Whether a payload of the layout may have this length.
fn fits(fields: &[NdefLayoutField], length: usize) -> bool
    requires { MayBeLayout fields.now }
    ensures { IsTrue result ↔ HasLaidLength (layout_of fields.now) length }
{
    let mut left = fields;
    let mut least = 0;
    let mut most = 0;
    let mut open = false;
    while let [numbers, more @ ..] = left {
        let Some(field) = field_of(numbers) else {
            unreachable!()
        };
        let (shortest, longest) = bounds_in(field);
        least += shortest;
        most += longest;
        open = open || is_last(field);
        left = more;
    }
    let length = length as u64;
    least <= length && (open || length <= most)
}

/// Returns the octets after a field, if some payload of the layout begins with the field's first octet.
fn after_field<'a>(field: Field, octets: &'a [u8], more: &[NdefLayoutField]) -> Option<&'a [u8]>
    requires more { MayBeLayout more.now }
    requires inner { is_last field ≡ false }
    requires fits { HasLaidLength (field ∷ layout_of more.now) (length octets.now) }
    ensures some { IfSome result (λ rest.
        GoesOn (field ∷ layout_of more.now) (layout_of more.now) octets.now rest.now) }
    ensures none { IfNone result (IsRefusedFirst (field ∷ layout_of more.now) octets.now) }
{
    match field {
        Field::Octets(count) => Some(&octets[count as usize..]),
        Field::Within(least, most) => {
            if octets[0] < least || most < octets[0] {
                return None;
            }
            Some(&octets[1..])
        }
        Field::Counted => {
            let count = usize::from(octets[0]);
            let after = &octets[1..];
            if after.len() < count || !fits(more, after.len() - count) {
                return None;
            }
            Some(&after[count..])
        }
        Field::Utf8 | Field::Rest => unreachable!(),
    }
}

/// The refusal of an octet of a text in UTF-8 after other octets, if one is refused.
fn text_refusal(text: &[u8], before: u64) -> Option<Refusal>
    requires { before + length text.now < 2 ^ 32 }
    ensures none { IfNone result (IsUtf8 text.now) }
    ensures some { IfSome result (IsRefusedText text.now before) }
{
    let length = text.len() as u64;
    let mut state = Utf8Lang::start(Kind::Other, 1, Profile::Strict);
    let taken = state.step_all(text, length, length);
    if taken == text.len() {
        return None;
    }
    Some(Refusal {
        at: before + taken as u64,
        reason: state.reason(),
    })
}

/// The first field of a layout, and those after it; None if there are no fields.
fn first_field(fields: &[NdefLayoutField]) -> Option<(Field, &[NdefLayoutField])>
    requires { MayBeLayout fields.now }
    ensures none { IfNone result (layout_of fields.now ≡ []) }
    ensures some { IfSome result (λ r. layout_of fields.now ≡ r.0 ∷ layout_of r.1.now) }
    ensures more { IfSome result (λ r. MayBeLayout r.1.now) }
    ensures last { IfSome result (λ r. is_last r.0 ≡ true → layout_of r.1.now ≡ []) }
    ensures fewer { IfSome result (λ r. length r.1.now < length fields.now) }
{
    let [numbers, more @ ..] = fields else {
        return None;
    };
    let Some(field) = field_of(numbers) else {
        unreachable!()
    };
    Some((field, more))
}

/// The refusal of a payload whose length is that of some payload of the layout, if it is refused.
fn refusal_in(fields: &[NdefLayoutField], payload: &[u8]) -> Option<Refusal>
    requires layout { MayBeLayout fields.now }
    requires fits { HasLaidLength (layout_of fields.now) (length payload.now) }
    requires bound { length payload.now < 2 ^ 32 }
    ensures none { IfNone result (IsLaidOut (layout_of fields.now) payload.now) }
    ensures some { IfSome result (IsRefusedIn (layout_of fields.now) payload.now) }
{
    let mut left = fields;
    let mut rest = payload;
    while let Some((field, more)) = first_field(left) {
        let at = (payload.len() - rest.len()) as u64;
        match field {
            Field::Rest => return None,
            Field::Utf8 => return text_refusal(rest, at),
            Field::Octets(_) | Field::Within(_, _) | Field::Counted => {
                let Some(after) = after_field(field, rest, more) else {
                    return Some(Refusal {
                        at,
                        reason: Reason::DoesNotFit,
                    });
                };
                rest = after;
                left = more;
            }
        }
    }
    None
}

/// Checks a payload by a layout, for a record type of the program's own: the fields of the layout follow one another up
/// to the end of the payload. A text in UTF-8 or any octets can be the last field alone. `out->place` becomes the
/// length of the payload, or the offset of the first octet after which no payload of the same length is one of the
/// layout. No payload of more than 4294967295 bytes is one.
///
/// - `OK`: the payload is one of the layout; `out->reason` is 0 and `out->length_fits` is 1.
/// - `REFUSED`: it is none; `out->reason` says why. Where no payload of the layout has its length, `out->place` and
///   `out->length_fits` are 0.
/// - `BAD_ARGUMENT`: there are more than 255 fields; the form of a field is unknown; the bounds of an octet are in the
///   wrong order or above 255; or a field follows a text or any octets. Nothing is written.
#[unsafe(no_mangle)]
pub extern "C" fn ndef_check_layout(
    payload: &[u8],
    fields: &[NdefLayoutField],
    out: &mut NdefLaidOut,
) -> u32
    ensures known { (result ≡ OK) ⊎ (result ≡ REFUSED) ⊎ (result ≡ BAD_ARGUMENT) }
    ensures bad { result ≡ BAD_ARGUMENT ↔ ¬ MayBeLayout fields.now }
    ensures kept { result ≡ BAD_ARGUMENT → out.new ≡ out.old }
    ensures laid { result ≡ OK → IsOfLayout (layout_of fields.now) payload.now }
    ensures taken { result ≡ OK → TakesLayout payload.now out.new }
    ensures refused { result ≡ REFUSED → RefusesLayout (layout_of fields.now) payload.now out.new }
{
    if !may_be_layout(fields) {
        return BAD_ARGUMENT;
    }
    if payload.len() > MOST_PAYLOAD as usize || !fits(fields, payload.len()) {
        *out = NdefLaidOut {
            place: 0,
            reason: u32::from(Reason::DoesNotFit.number()),
            length_fits: 0,
        };
        return REFUSED;
    }
    if let Some(refusal) = refusal_in(fields, payload) {
        *out = NdefLaidOut {
            place: refusal.at,
            reason: u32::from(refusal.reason.number()),
            length_fits: 1,
        };
        return REFUSED;
    }
    *out = NdefLaidOut {
        place: payload.len() as u64,
        reason: 0,
        length_fits: 1,
    };
    OK
}

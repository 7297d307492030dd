//! The payloads of Smart Poster records (RTD Smart Poster 1.0).
ghost use Rattle.std.specs.Prelude.{◌≡◌, ◌≢◌, ◌<◌, ◌^◌, ◌↔◌, ◌⊎◌, List, length, option_map, Some};
ghost use Rattle.ndef_format.specs.Messages.{Item};
ghost use Rattle.ndef_format.specs.declared.profile.Profile.{Profile};
ghost use Rattle.ndef_value.specs.declared.limits.TheConstants.{MOST_RECORDS};
ghost use Rattle.ndef_format.specs.declared.kind.Kind.TheVariants as kinds;
ghost use Rattle.ndef_format.specs.NestedReasons.{NestReason};
ghost use Rattle.ndef_format.specs.Nested.{IsNest};
ghost use Rattle.ndef_format.specs.declared.table.Table.TheVariants as tables;
ghost use Rattle.ndef_types.specs.Contents.{IsOfKind};
ghost use Rattle.ndef_types.specs.Posters.{Says, action_in, action_of, size_in};
ghost use Rattle.ndef_c.specs.Checks.{profile_of};
ghost use Rattle.ndef_c.specs.Nested.{FirstLies, TellsNumber};
ghost use Rattle.ndef_c.specs.Payloads.{RefusesWith};
ghost use Rattle.ndef_c.specs.Posters.{IsPosterAt, HasPosterRecords};

use crate::checking::NdefChecked;
use crate::nested::{Found, first_of};
use crate::numbers::number_in;
use crate::refusal::accepts;
use crate::status::{BAD_ARGUMENT, OK, REFUSED};
use ndef_lang::Kind;
use ndef_nest::{Nest, Table};

/// A smart poster: where the payload of its URI record lies in its payload, its action and its size.
#[repr(C)]
#[derive(Clone, Copy, Drop)]
pub struct NdefPoster {
    /// The offset of the payload of its URI record.
    pub uri_at: usize,
    /// The bytes of that payload.
    pub uri_length: usize,
    /// 1 where it recommends an action, else 0.
    pub has_action: u32,
    /// The action, 0 to 255; 0 without one.
    pub action: u32,
    /// 1 where it gives the size of what it refers to, else 0.
    pub has_size: u32,
    /// That size in bytes; 0 without one.
    pub size: u32,
}

/// The payload of its URI record.
fn uri_of(payload: &[u8]) -> Found<'_>
    requires { (profile : Profile) × (items : List Item) × HasPosterRecords profile items payload.now }
    ensures { (profile : Profile) (items : List Item) → HasPosterRecords profile items payload.now
        → FirstLies (IsOfKind tables.SmartPoster kinds.Uri) items payload.now (Some result) }
{
    match first_of(Table::SmartPoster, payload, Kind::Uri) {
        Some(found) => found,
        None => unreachable!(),
    }
}

/// Returns the action of its first action record.
fn action_of(payload: &[u8]) -> Option<u32>
    requires { (profile : Profile) × (items : List Item) × HasPosterRecords profile items payload.now }
    ensures { (profile : Profile) (items : List Item) → HasPosterRecords profile items payload.now
        → Says kinds.Action action_in items (option_map action_of result) }
{
    let Some(found) = first_of(Table::SmartPoster, payload, Kind::Action) else {
        return None;
    };
    Some(u32::from(found.payload[0]))
}

/// Returns the size of its first size record.
fn size_of(payload: &[u8]) -> Option<u32>
    requires { (profile : Profile) × (items : List Item) × HasPosterRecords profile items payload.now }
    ensures { (profile : Profile) (items : List Item) → HasPosterRecords profile items payload.now
        → Says kinds.Size size_in items result }
{
    let Some(found) = first_of(Table::SmartPoster, payload, Kind::Size) else {
        return None;
    };
    number_in(Kind::Size, found.payload)
}

/// 1 and a number, or 0 and 0 for none.
pub(crate) fn reported(number: Option<u32>) -> (u32, u32)
    ensures { TellsNumber number result.0 result.1 }
{
    match number {
        Some(number) => (1, number),
        None => (0, 0),
    }
}

/// Returns the place of the payload of the poster's URI record, the action and the size.
fn poster_at(payload: &[u8]) -> NdefPoster
    requires nest { (profile : Profile) × IsNest tables.SmartPoster MOST_RECORDS profile payload.now }
    requires short { length payload.now < 2 ^ 32 }
    ensures { (profile : Profile) → IsNest tables.SmartPoster MOST_RECORDS profile payload.now
        → IsPosterAt profile payload.now result }
{
    let uri = uri_of(payload);
    let (has_action, action) = reported(action_of(payload));
    let (has_size, size) = reported(size_of(payload));
    NdefPoster {
        uri_at: uri.at,
        uri_length: uri.payload.len(),
        has_action,
        action,
        has_size,
        size,
    }
}

/// Gives the offset of the payload of the URI record of a smart poster, its action and its size.
#[unsafe(no_mangle)]
pub extern "C" fn ndef_poster(
    payload: &[u8],
    flags: u32,
    out: &mut NdefPoster,
    refusal: &mut NdefChecked,
) -> u32
    ensures bad { result ≡ BAD_ARGUMENT ↔ (1 < flags) }
    ensures known { (result ≡ OK) ⊎ (result ≡ REFUSED) ⊎ (result ≡ BAD_ARGUMENT) }
    ensures poster { result ≡ OK → IsPosterAt (profile_of flags) payload.now out.new }
    ensures refused { result ≡ REFUSED → RefusesWith (IsNest tables.SmartPoster MOST_RECORDS (profile_of flags))
        (NestReason tables.SmartPoster MOST_RECORDS (profile_of flags)) payload.now refusal.new }
    ensures kept { result ≢ OK → out.new ≡ out.old }
    ensures kept_refusal { result ≢ REFUSED → refusal.new ≡ refusal.old }
{
    if flags > 1 {
        return BAD_ARGUMENT;
    }
    if !accepts::<Nest>(Kind::SmartPoster, flags, payload, refusal) {
        return REFUSED;
    }
    *out = poster_at(payload);
    OK
}

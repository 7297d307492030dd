//! A message and all its records, in one call; the message within a payload, likewise.
ghost use Rattle.std.specs.Prelude.{◌≡◌, ◌≢◌, ◌+◌, ◌^◌, ◌<◌, ◌≤◌, ◌↔◌, ◌⊎◌, ℕ, List, true, false, length, None, IfSome};
ghost use Rattle.ndef_format.specs.Messages.{run_record};
ghost use Rattle.ndef_format.specs.Nested.{IsNest, table_of};
ghost use Rattle.ndef_format.specs.Records.{Run};
ghost use Rattle.ndef_format.specs.Texts.{IsText};
ghost use Rattle.ndef_format.specs.Uris.{IsUri};
ghost use Rattle.ndef_format.specs.declared.kind.Kind.TheVariants as kinds;
ghost use Rattle.ndef_format.specs.declared.profile.Profile.{Profile as Reader};
ghost use Rattle.ndef_value.specs.declared.limits.TheConstants.{MOST_RECORDS};
ghost use Rattle.ndef_c.specs.Arrays.{set_over};
ghost use Rattle.ndef_c.specs.Checks.{ChecksPayloads, LeavesPayloads, limits_of, profile_of};
ghost use Rattle.ndef_c.specs.Items.{AreItems, AreListed, AreTyped, GivesItems, GivesNested, GivesWithin, HasValue, IsItemAt, IsTextValue, IsUriValue, IsValueOf, MayBeItem, MayHaveItems, MayHaveValue, Repeats, message_at, no_value, value_of};
ghost use Rattle.ndef_c.specs.Kinds.{kind_with, table_within};
ghost use Rattle.ndef_c.specs.Walks.{IsRecordAt};
ghost use Rattle.ndef_c.specs.declared.items.NdefItem.{NdefItem as Reported};

use crate::checking::{NdefChecked, check_in};
use crate::kinds::{ndef_kind, number_of, table_within};
use crate::limits::{NdefLimits, limits_of};
use crate::query::{Expected, count_expected};
use crate::record::{NdefRecord, record_at};
use crate::refusal::accepts;
use crate::status::{BAD_ARGUMENT, BUFFER_TOO_SMALL, OK, REFUSED};
use crate::text::text_at;
use crate::uri_parts::uri_at;
use ndef_lang::{Kind, Opaque, RecordLanguage};
use ndef_nest::{Nest, Table, Typed};
use ndef_value::{Limits, Profile, Tnf};

/// A record, by offsets and lengths in the bytes. Its id lies between its type and its payload, so at `payload_at` -
/// `id_length`.
#[repr(C)]
#[derive(Clone, Copy, Drop)]
pub struct NdefItem {
    /// Where it begins.
    pub at: u32,
    /// Where the next one begins.
    pub end: u32,
    /// The type name format, 0 to 5.
    pub tnf: u32,
    /// The number of its kind, as `ndef_kind` gives it for a record in this message.
    pub kind: u32,
    /// Where its type begins.
    pub type_at: u32,
    /// The bytes of its type, at most 255.
    pub type_length: u32,
    /// The bytes of its id, at most 255.
    pub id_length: u32,
    /// Where the payload of its first chunk begins.
    pub payload_at: u32,
    /// The bytes of its payload, the chunks joined.
    pub payload_length: u32,
    /// The number of its chunks.
    pub chunks: u32,
    /// 1 for a text in UTF-8, 2 for one in UTF-16, 3 for a URI. 0 for any other record, for one in several chunks, and
    /// where no payload was looked into: then the members after it are 0.
    pub form: u32,
    /// The code of the prefix of a URI, else 0.
    pub number: u32,
    /// Where the language code of a text begins, else 0.
    pub language_at: u32,
    /// The bytes of the language code of a text, at most 63, else 0.
    pub language_length: u32,
    /// Where the text or the rest of the URI begins.
    pub text_at: u32,
    /// The bytes of the text or of the rest of the URI.
    pub text_length: u32,
}

/// The form and the place of the value of a record: the last six members of its item.
#[derive(Clone, Copy)]
struct Value {
    form: u32,
    number: u32,
    language_at: u32,
    language_length: u32,
    text_at: u32,
    text_length: u32,
}

/// No value.
fn no_value() -> Value
    ensures { result ≡ no_value }
{
    Value {
        form: 0,
        number: 0,
        language_at: 0,
        language_length: 0,
        text_at: 0,
        text_length: 0,
    }
}

/// The parts of the text in a payload that begins at a place.
fn text_value(at: usize, payload: &[u8]) -> Value
    requires text { IsText payload.now }
    requires fits { at + length payload.now < 2 ^ 32 }
    ensures { IsTextValue at payload.now result }
{
    let text = text_at(payload);
    Value {
        form: 1 + text.utf16,
        number: 0,
        language_at: (at + text.language_at) as u32,
        language_length: text.language_length as u32,
        text_at: (at + text.text_at) as u32,
        text_length: text.text_length as u32,
    }
}

/// The code and the rest of the URI in a payload that begins at a place.
fn uri_value(at: usize, payload: &[u8]) -> Value
    requires uri { (profile : Reader) × IsUri profile payload.now }
    requires fits { at + length payload.now < 2 ^ 32 }
    ensures { (profile : Reader) → IsUri profile payload.now → IsUriValue profile at payload.now result }
{
    let uri = uri_at(payload);
    Value {
        form: 3,
        number: uri.code,
        language_at: 0,
        language_length: 0,
        text_at: (at + uri.rest_at) as u32,
        text_length: uri.rest_length as u32,
    }
}

/// The value of a payload of a kind that begins at a place.
fn value_in(kind: u32, at: usize, payload: &[u8]) -> Value
    requires may { (profile : Reader) × MayHaveValue profile kind payload.now }
    requires fits { at + length payload.now < 2 ^ 32 }
    ensures { (profile : Reader) → MayHaveValue profile kind payload.now
        → IsValueOf profile kind at payload.now result }
{
    if kind == Kind::Text as u32 {
        text_value(at, payload)
    } else if kind == Kind::Uri as u32 {
        uri_value(at, payload)
    } else {
        no_value()
    }
}

/// The value of a record of a kind.
fn value_at(bytes: &[u8], found: &NdefRecord, kind: u32, looks: bool) -> Value
    requires short { length bytes.now < 2 ^ 32 }
    requires found { (profile : Reader) × (at : ℕ) × (r : IsRecordAt bytes.now at found.now)
        × (looks ≡ true → MayHaveValue profile kind (run_record r.run).payload) }
    ensures { (profile : Reader) (at : ℕ) → (r : IsRecordAt bytes.now at found.now)
        → (looks ≡ true → MayHaveValue profile kind (run_record r.run).payload)
        → HasValue looks profile kind found.now.payload_at found.now.chunks (run_record r.run).payload result }
{
    if !looks || found.chunks != 1 {
        return no_value();
    }
    let (_before, from) = bytes.split_at(found.payload_at);
    value_in(kind, found.payload_at, &from[..found.part_length])
}

/// The record in 32 bits for each number, with its kind and its value.
fn in_words(found: &NdefRecord, kind: u32, value: &Value) -> NdefItem
    requires places { found.now.end < 2 ^ 32 }
    requires onward { found.now.at < found.now.end }
    requires kind { found.now.type_at + found.now.type_length < 2 ^ 32 }
    requires id { found.now.id_length < 2 ^ 32 }
    requires payload { found.now.payload_at < 2 ^ 32 }
    requires joined { found.now.payload_length < 2 ^ 32 }
    requires chunks { found.now.chunks < 2 ^ 32 }
    ensures repeats { Repeats found.now result }
    ensures kind { result.kind ≡ kind }
    ensures value { value_of result ≡ value.now }
{
    NdefItem {
        at: found.at as u32,
        end: found.end as u32,
        tnf: found.tnf,
        kind,
        type_at: found.type_at as u32,
        type_length: found.type_length as u32,
        id_length: found.id_length as u32,
        payload_at: found.payload_at as u32,
        payload_length: found.payload_length as u32,
        chunks: found.chunks as u32,
        form: value.form,
        number: value.number,
        language_at: value.language_at,
        language_length: value.language_length,
        text_at: value.text_at,
        text_length: value.text_length,
    }
}

/// The bytes in which a message lies, and what is given of its records.
#[derive(Clone, Copy)]
struct Listing<'a> {
    bytes: &'a [u8],
    /// The number of the kind of payload that they are, 0 for a message of its own.
    within: u32,
    /// Whether its payloads were checked, so that values are given.
    looks: bool,
}

/// The item of a record.
fn item_of(message: &Listing<'_>, found: &NdefRecord) -> NdefItem
    requires short { length message.now.bytes.now < 2 ^ 32 }
    requires found { (profile : Reader) × (at : ℕ) × (r : IsRecordAt message.now.bytes.now at found.now)
        × MayBeItem message.now.looks message.now.within profile (run_record r.run) }
    ensures { (profile : Reader) (at : ℕ) → (r : IsRecordAt message.now.bytes.now at found.now)
        → MayBeItem message.now.looks message.now.within profile (run_record r.run)
        → IsItemAt message.now.looks message.now.within profile message.now.bytes.now at r.run result }
{
    let kind = ndef_kind(message.bytes, found, message.within);
    let value = value_at(message.bytes, found, kind, message.looks);
    in_words(found, kind, &value)
}

/// Writes the records of a message that begins at a place to the front of the array.
fn tell_items(message: &Listing<'_>, start: usize, records: usize, items: &mut [NdefItem])
    requires short { length message.now.bytes.now < 2 ^ 32 }
    requires listed { (profile : Reader) × (runs : List Run) × (end : ℕ)
        × AreListed profile message.now start runs end × (length runs ≡ records) }
    requires buffer { records ≤ length items.old }
    ensures { (profile : Reader) (runs : List Run) (end : ℕ) → AreListed profile message.now start runs end
        → length runs ≡ records → (reported : List Reported)
        × AreItems (IsItemAt message.now.looks message.now.within profile message.now.bytes.now) start runs reported end
        × (length reported ≡ length runs) × (items.new ≡ set_over reported items.old) }
{
    let mut at = start;
    let mut index = 0;
    while index < records {
        let Some(found) = record_at(message.bytes, at) else {
            unreachable!()
        };
        items[index] = item_of(message, &found);
        at = found.end;
        index += 1;
    }
}

/// Checks with the payloads of a language, and writes the records if the array is large enough.
fn give_items<L: RecordLanguage>(
    bytes: &[u8],
    limits: Limits,
    looks: bool,
    out: &mut NdefChecked,
    items: &mut [NdefItem],
) -> u32
    requires short { length bytes.now < 2 ^ 32 }
    requires typed { looks ≡ true → AreTyped L.payloads }
    ensures gives { GivesItems looks L.payloads L.reasons limits bytes.now items.old items.new result out.new }
    ensures kept { result ≢ OK → items.new ≡ items.old }
    ensures good { result ≢ BAD_ARGUMENT }
{
    let checked = check_in::<L>(bytes, limits, out);
    if checked != OK {
        return checked;
    }
    let records = out.records as usize;
    if items.len() < records {
        return BUFFER_TOO_SMALL;
    }
    let message = Listing {
        bytes,
        within: 0,
        looks,
    };
    tell_items(&message, 0, records, items);
    OK
}

/// Checks the message with which the bytes begin, and gives all its records. `out` becomes what `ndef_check` makes of
/// it. Each item has what `ndef_record_at` gives at its `at`, and the kind that `ndef_kind` says for a message of its
/// own; the items are in the order of the records, and those after them are unchanged. Under NDEF_OPAQUE no item has a
/// form. A call with no items says how many there are.
///
/// - `OK`: the first `out->records` items are the records of the message.
/// - `BUFFER_TOO_SMALL`: the message is accepted, and there are fewer than `out->records` items; they are unchanged.
/// - `REFUSED`: the items are unchanged.
/// - `BAD_ARGUMENT`: a limit is out of range, an unknown flag is set, or `length` is above 4294967295; nothing is
///   written.
#[unsafe(no_mangle)]
pub extern "C" fn ndef_items(
    bytes: &[u8],
    limits: &NdefLimits,
    out: &mut NdefChecked,
    items: &mut [NdefItem],
) -> u32
    ensures bad { result ≡ BAD_ARGUMENT ↔ ¬ MayHaveItems limits.now bytes.now }
    ensures kept { result ≡ BAD_ARGUMENT → out.new ≡ out.old }
    ensures unchanged { result ≢ OK → items.new ≡ items.old }
    ensures typed { MayHaveItems limits.now bytes.now → ChecksPayloads limits.now
        → GivesItems true ⟦<Typed as RecordLanguage>⟧.payloads ⟦<Typed as RecordLanguage>⟧.reasons
        (limits_of limits.now) bytes.now items.old items.new result out.new }
    ensures opaque { MayHaveItems limits.now bytes.now → LeavesPayloads limits.now
        → GivesItems false ⟦<Opaque as RecordLanguage>⟧.payloads ⟦<Opaque as RecordLanguage>⟧.reasons
        (limits_of limits.now) bytes.now items.old items.new result out.new }
{
    if bytes.len() > 4294967295 {
        return BAD_ARGUMENT;
    }
    let Some((limits, looks)) = limits_of(limits) else {
        return BAD_ARGUMENT;
    };
    if looks {
        give_items::<Typed>(bytes, limits, true, out, items)
    } else {
        give_items::<Opaque>(bytes, limits, false, out, items)
    }
}

/// All records.
struct All;

impl Expected for All {
    ghost expected = { λ tnf kind. true };

    fn is_expected(_tnf: Tnf, _kind: &[u8]) -> bool {
        true
    }
}

/// Where the message begins in a payload that holds one.
fn message_at(table: Table) -> usize
    ensures { result ≡ message_at table }
{
    match table {
        Table::SmartPoster => 0,
        Table::Request | Table::Select => 1,
    }
}

/// The kind of payloads that hold a message.
pub(crate) fn kind_with(table: Table) -> Kind
    ensures kind { result ≡ kind_with table }
    ensures table { table_of result ≡ table }
{
    match table {
        Table::SmartPoster => Kind::SmartPoster,
        Table::Request => Kind::Request,
        Table::Select => Kind::Select,
    }
}

/// Writes the records of the message within a payload, if the array is large enough.
fn give_nested(table: Table, payload: &[u8], out: &mut NdefChecked, items: &mut [NdefItem]) -> u32
    requires nest { (profile : Reader) × IsNest table MOST_RECORDS profile payload.now }
    requires short { length payload.now < 2 ^ 32 }
    ensures gives { (profile : Reader) → IsNest table MOST_RECORDS profile payload.now
        → GivesNested table profile payload.now items.old items.new result out.new }
    ensures kept { result ≢ OK → items.new ≡ items.old }
    ensures good { result ≢ BAD_ARGUMENT }
{
    let start = message_at(table);
    let (_version, message) = payload.split_at(start);
    let count = count_expected::<All>(message);
    *out = NdefChecked {
        place: payload.len() as u64,
        records: count as u32,
        reason: 0,
    };
    if items.len() < count {
        return BUFFER_TOO_SMALL;
    }
    let listing = Listing {
        bytes: payload,
        within: number_of(kind_with(table)),
        looks: true,
    };
    tell_items(&listing, start, count, items);
    OK
}

/// Checks the payload of a Smart Poster, a Handover Request or a Handover Select record, and gives all records of the
/// message within it, as `ndef_items` gives those of a message: by offsets in the payload, and with the kinds that
/// `ndef_kind` gives within a payload of that kind. `kind` is the number of the kind. A call with no items says how
/// many there are.
///
/// - `OK`: the first `out->records` items are the records of the message, and `out->place` is the length of the
///   payload.
/// - `BUFFER_TOO_SMALL`: the payload is accepted, and there are fewer than `out->records` items; they are unchanged.
/// - `REFUSED`: the payload is none of the kind: `out` says where and why. The items are unchanged.
/// - `BAD_ARGUMENT`: payloads of the kind hold no message, or an unknown flag is set; nothing is written.
#[unsafe(no_mangle)]
pub extern "C" fn ndef_items_within(
    kind: u32,
    payload: &[u8],
    flags: u32,
    out: &mut NdefChecked,
    items: &mut [NdefItem],
) -> u32
    ensures bad { result ≡ BAD_ARGUMENT ↔ ((table_within kind ≡ None) ⊎ (1 < flags)) }
    ensures kept { result ≡ BAD_ARGUMENT → out.new ≡ out.old }
    ensures unchanged { result ≢ OK → items.new ≡ items.old }
    ensures gives { result ≢ BAD_ARGUMENT → IfSome (table_within kind) (λ table.
        GivesWithin table (profile_of flags) payload.now items.old items.new result out.new) }
{
    if flags > 1 {
        return BAD_ARGUMENT;
    }
    let Some(table) = table_within(kind) else {
        return BAD_ARGUMENT;
    };
    if !accepts::<Nest>(kind_with(table), flags, payload, out) {
        return REFUSED;
    }
    give_nested(table, payload, out, items)
}

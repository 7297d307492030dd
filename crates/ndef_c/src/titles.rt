//! The titles and the media type of a smart poster, where they lie (RTD Smart Poster 1.0).
ghost use Rattle.std.specs.Prelude.{◌≡◌, ◌≢◌, ℕ, ◌+◌, ◌<◌, ◌≤◌, ◌^◌, ◌↔◌, ◌⊎◌, List, length, IfNone, IfSome, IsTrue};
ghost use Rattle.std.proofs.Common.{inr};
ghost use Rattle.std.specs.Str.{str_eq_ignore_ascii_case};
ghost use Rattle.ndef_format.specs.Nested.{kind_in};
ghost use Rattle.ndef_format.specs.Texts.{IsText};
ghost use Rattle.ndef_format.specs.declared.kind.Kind.TheVariants as kinds;
ghost use Rattle.ndef_format.specs.declared.profile.Profile.TheVariants.{Standard};
ghost use Rattle.ndef_format.specs.declared.table.Table.TheVariants as tables;
ghost use Rattle.ndef_types.specs.Contents.{IsOfKind};
ghost use Rattle.ndef_types.specs.Posters.{is_text};
ghost use Rattle.ndef_c.specs.Posters.{HasPosterRecords};
ghost use Rattle.ndef_c.specs.Titles.{FindsMediaType, FindsTitle, GivesTitles, IsPosterPayload, IsTitleAt, IsTitleIn, LiesAsText, PosterLacks};
ghost use Rattle.ndef_c.specs.Walks.{IsRecordAt, Lies};

use crate::nested::first_of;
use crate::part::NdefPart;
use crate::query::{Expected, RecordQuery, give_all, wants};
use crate::record::{NdefRecord, part_in};
use crate::refusal::is_payload;
use crate::status::{BAD_ARGUMENT, END, OK};
use crate::text::{NdefText, text_at};
use crate::walk::Walk;
use ndef_lang::Kind;
use ndef_nest::{Nest, Table};
use ndef_value::{Profile, Tnf};

/// Whether the payload is that of a smart poster, as the standard reads it.
pub(crate) fn is_poster(payload: &[u8]) -> bool
    ensures { IsTrue result ↔ IsPosterPayload payload.now }
{
    is_payload::<Nest>(Kind::SmartPoster, Profile::Standard, payload)
}

/// Returns the places of the parts of a text, which is the payload of a record in one piece.
fn text_of(bytes: &[u8], found: &NdefRecord) -> NdefText
    requires text { (at : ℕ) × (r : IsRecordAt bytes.now at found.now) × IsText r.run.initial.payload }
    requires bound { length bytes.now < 2 ^ 32 }
    ensures { (at : ℕ) → (r : IsRecordAt bytes.now at found.now)
        → LiesAsText bytes.now r.run.initial.payload found.now.payload_at result }
{
    let text = text_at(part_in(bytes, found));
    NdefText {
        language_at: found.payload_at + text.language_at,
        language_length: text.language_length,
        text_at: found.payload_at + text.text_at,
        text_length: text.text_length,
        utf16: text.utf16,
    }
}

/// The titles of a poster.
#[derive(Clone, Copy)]
struct Titles<'a> {
    payload: &'a [u8],
}

impl<'a> Expected for Titles<'a> {
    ghost expected = { λ tnf kind. is_text (kind_in tables.SmartPoster tnf kind) };

    fn is_expected(tnf: Tnf, kind: &[u8]) -> bool
        ensures { result ≡ is_text (kind_in tables.SmartPoster tnf kind.now) }
    {
        match Table::SmartPoster.kind(tnf, kind) {
            Kind::Text => true,
            _ => false,
        }
    }
}

impl<'a> RecordQuery for Titles<'a> {
    type Given = NdefText;

    ghost octets = { λ titles. titles.payload.now };

    ghost has_records = { λ titles items.
        HasPosterRecords Standard items titles.payload.now × (length titles.payload.now < 2 ^ 32) };

    ghost is_given = { λ titles items. IsTitleAt titles.payload.now items };

    ghost in_pieces = { λ titles items h.
        inr (record { runs = h.0.0; spelling = h.0.1.spelling; single = h.0.1.single }) };

    fn message(&self) -> &[u8] {
        self.payload
    }

    fn given(&self, found: &NdefRecord) -> NdefText {
        text_of(self.payload, found)
    }
}

/// Gives the offset of each title of a smart poster, as `ndef_text` gives the parts of a text, but by offsets in the
/// payload of the poster.
#[unsafe(no_mangle)]
pub extern "C" fn ndef_poster_titles(
    payload: &[u8],
    texts: &mut [NdefText],
    count: &mut usize,
) -> u32
    ensures bad { result ≡ BAD_ARGUMENT ↔ ¬ IsPosterPayload payload.now }
    ensures kept { result ≡ BAD_ARGUMENT → (texts.new ≡ texts.old) × (count.new ≡ count.old) }
    ensures titles { result ≢ BAD_ARGUMENT → GivesTitles payload.now texts.old texts.new count.new result }
{
    if !is_poster(payload) {
        return BAD_ARGUMENT;
    }
    give_all(&Titles { payload }, texts, count)
}

/// Gives the offset of the media type to which the URI of a smart poster leads.
#[unsafe(no_mangle)]
pub extern "C" fn ndef_poster_media_type(payload: &[u8], out: &mut NdefPart) -> u32
    ensures known { (result ≡ OK) ⊎ (result ≡ END) ⊎ (result ≡ BAD_ARGUMENT) }
    ensures bad { result ≡ BAD_ARGUMENT ↔ ¬ IsPosterPayload payload.now }
    ensures found { result ≡ OK → FindsMediaType payload.now out.new }
    ensures end { result ≡ END → PosterLacks (IsOfKind tables.SmartPoster kinds.MediaType) payload.now }
    ensures kept { result ≢ OK → out.new ≡ out.old }
{
    if !is_poster(payload) {
        return BAD_ARGUMENT;
    }
    let Some(found) = first_of(Table::SmartPoster, payload, Kind::MediaType) else {
        return END;
    };
    *out = NdefPart {
        at: found.at,
        length: found.payload.len(),
    };
    OK
}

/// Whether the language code of a text in the bytes is this one, the case of its letters aside.
fn is_language(bytes: &[u8], text: &NdefText, language: &[u8]) -> bool
    requires { text.now.language_at + text.now.language_length ≤ length bytes.now }
    ensures { (code : List ℕ) → Lies bytes.now text.now.language_at text.now.language_length code
        → result ≡ str_eq_ignore_ascii_case code language.now }
{
    let end = text.language_at + text.language_length;
    bytes[text.language_at..end].eq_ignore_ascii_case(language)
}

/// Returns the place of the first title in a language.
fn title_in(payload: &[u8], language: &[u8]) -> Option<NdefText>
    requires { IsPosterPayload payload.now }
    ensures none { IfNone result (PosterLacks (IsTitleIn language.now) payload.now) }
    ensures some { IfSome result (FindsTitle language.now payload.now) }
{
    for found in Walk::from(payload, 0) {
        if wants::<Titles>(payload, &found) {
            let text = text_of(payload, &found);
            if is_language(payload, &text, language) {
                return Some(text);
            }
        }
    }
    None
}

/// Gives the offset of the title of a smart poster in a language, of several the first, as
/// `ndef_poster_titles` gives it. The case of the letters of language codes doesn't matter (RFC
/// 5646, section 2.1.1).
#[unsafe(no_mangle)]
pub extern "C" fn ndef_title(payload: &[u8], language: &[u8], out: &mut NdefText) -> u32
    ensures known { (result ≡ OK) ⊎ (result ≡ END) ⊎ (result ≡ BAD_ARGUMENT) }
    ensures bad { result ≡ BAD_ARGUMENT ↔ ¬ IsPosterPayload payload.now }
    ensures found { result ≡ OK → FindsTitle language.now payload.now out.new }
    ensures end { result ≡ END → PosterLacks (IsTitleIn language.now) payload.now }
    ensures kept { result ≢ OK → out.new ≡ out.old }
{
    if !is_poster(payload) {
        return BAD_ARGUMENT;
    }
    let Some(text) = title_in(payload, language) else {
        return END;
    };
    *out = text;
    OK
}

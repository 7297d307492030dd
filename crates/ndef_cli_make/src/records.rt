//! The records that parts ask for.
ghost use Rattle.std.specs.Prelude.{◌≡◌, ◌<◌, ◌≤◌, ◌^◌, length, chars, codes, option_map};
ghost use Rattle.clap.specs.Words.{first_of, found_of, rows_of};
ghost use Rattle.ndef_format.specs.Kinds.{kind_name};
ghost use Rattle.ndef_cli_make.specs.Asked.{asked_part};
ghost use Rattle.ndef_cli_make.specs.Checking.{Checked, IsAllowed, IsOfItsType, is_unchecked};
ghost use Rattle.ndef_cli_make.specs.Making.{Makes, MakesBy};
ghost use Rattle.ndef_cli_make.specs.Options.{subject_named};
ghost use Rattle.ndef_cli_make.specs.Records.{IsNamed, MakesItem, MakesSaid, MakesText, MakesUri, app_said};
ghost use Rattle.ndef_cli_make.specs.Records.{external_said, external_type, item_said, media_said, media_type, text_said};
ghost use Rattle.ndef_cli_make.specs.Records.{package_said, typed_record, uri_said};
ghost use Rattle.ndef_cli_make.specs.declared.usage_error.UsageError.TheVariants as usage_error;

use crate::carrier::carrier_record;
use crate::handover::handover_record;
use crate::not_writable::bar_of;
use crate::options::{Subject, external_type, media_type, subject_named, tnf_named, word_or};
use crate::parts::ParsedPart;
use crate::poster::poster_record;
use crate::{Fault, Refused, UsageError};
use clap::ArgMatches;
use ndef_cli::{flag_given, option_text};
use ndef_lang::{Kind, refusal_of};
use ndef_nest::Typed;
use ndef_types::{Encoding, Text, Uri};
use ndef_value::{Bytes, MOST_RECORDS, Name, Profile, Record, Tnf};
use std::alloc::Global;

/// A record of the well-known type of a kind, without an id.
pub(crate) fn well_known(alloc: Global, kind: Kind, payload: Bytes) -> Record
    requires kind { 1 ≤ length (kind_name kind) }
    requires payload { length payload < 2 ^ 32 }
    ensures { result ≡ typed_record (kind_name kind) payload }
{
    let Ok(kind) = Name::from_slice(alloc, kind.name()) else {
        unreachable!()
    };
    Record::from_parts(Tnf::WellKnown, kind, Name::new(alloc), payload)
}

/// A record of these parts.
pub(crate) fn make_item(
    alloc: Global,
    tnf: Tnf,
    kind: &[u8],
    id: &[u8],
    payload: &[u8],
) -> Result<Record, Fault>
    ensures { MakesItem (record { tnf = tnf; kind = kind.now; id = id.now; payload = payload.now }) result }
{
    Ok(Record::new(alloc, tnf, kind, id, payload)?)
}

/// A record of the well-known type of a kind with this payload.
pub(crate) fn make_known(alloc: Global, kind: Kind, payload: &[u8]) -> Result<Record, Fault>
    ensures { MakesItem (typed_record (kind_name kind) payload.now) result }
{
    make_item(alloc, Tnf::WellKnown, kind.name(), b"", payload)
}

/// The record of a text.
pub(crate) fn make_text(
    alloc: Global,
    encoding: Encoding,
    language: &str,
    text: &str,
) -> Result<Record, Fault>
    ensures { MakesText (record { encoding = encoding; language = language.now; text = chars text.now }) result }
{
    let text = Text::new(alloc, encoding, language, text)?;
    let payload = text.encode(alloc)?;
    Ok(well_known(alloc, Kind::Text, payload))
}

/// The record of the text of a part.
fn text_record(alloc: Global, matches: &ArgMatches<'_>) -> Result<Record, Fault>
    ensures { MakesSaid usage_error.Words MakesText (text_said (rows_of (found_of matches.now))) result }
{
    let Some(text) = option_text(matches, "text") else {
        return Err(Fault::Usage(UsageError::Words));
    };
    let language = word_or(matches, "language", "en");
    let encoding = if flag_given(matches, "utf16") {
        Encoding::Utf16
    } else {
        Encoding::Utf8
    };
    make_text(alloc, encoding, language, text)
}

/// The record of a URI.
pub(crate) fn make_uri(alloc: Global, uri: &str) -> Result<Record, Fault>
    ensures { MakesUri uri.now result }
{
    let uri = Uri::new(alloc, uri)?;
    let payload = uri.encode(alloc)?;
    Ok(well_known(alloc, Kind::Uri, payload))
}

/// The record of the URI of a part.
fn uri_record(alloc: Global, matches: &ArgMatches<'_>) -> Result<Record, Fault>
    ensures { MakesSaid usage_error.Words MakesUri (uri_said (rows_of (found_of matches.now))) result }
{
    match option_text(matches, "uri") {
        Some(uri) => make_uri(alloc, uri),
        None => Err(Fault::Usage(UsageError::Words)),
    }
}

/// The record of the parts that a part gives, with this payload.
fn given_record(alloc: Global, matches: &ArgMatches<'_>, payload: &[u8]) -> Result<Record, Fault>
    ensures { MakesSaid usage_error.Tnf MakesItem (item_said (rows_of (found_of matches.now)) payload.now) result }
{
    let Some(name) = option_text(matches, "tnf") else {
        return Err(Fault::Usage(UsageError::Tnf));
    };
    let Some(tnf) = tnf_named(name) else {
        return Err(Fault::Usage(UsageError::Tnf));
    };
    let kind = word_or(matches, "type", "");
    let id = word_or(matches, "id", "");
    make_item(alloc, tnf, kind.as_bytes(), id.as_bytes(), payload)
}

/// The media type that a part gives.
fn media_type_said<'a>(matches: &ArgMatches<'a>) -> Option<&'a str>
    ensures { option_map (λ kind. kind.now) result ≡ media_type (rows_of (found_of matches.now)) }
{
    media_type(option_text(matches, "type")?)
}

/// The record of the media type of a part, with this payload.
fn media_record(alloc: Global, matches: &ArgMatches<'_>, payload: &[u8]) -> Result<Record, Fault>
    ensures { MakesSaid usage_error.MediaType MakesItem (media_said (rows_of (found_of matches.now)) payload.now)
        result }
{
    match media_type_said(matches) {
        Some(kind) => {
            let id = word_or(matches, "id", "");
            make_item(alloc, Tnf::Media, kind.as_bytes(), id.as_bytes(), payload)
        }
        None => Err(Fault::Usage(UsageError::MediaType)),
    }
}

/// The external type that a part gives.
fn external_type_said<'a>(matches: &ArgMatches<'a>) -> Option<&'a str>
    ensures { option_map (λ kind. kind.now) result ≡ external_type (rows_of (found_of matches.now)) }
{
    external_type(option_text(matches, "type")?)
}

/// The record of the external type of a part, with this payload.
fn external_record(alloc: Global, matches: &ArgMatches<'_>, payload: &[u8]) -> Result<Record, Fault>
    ensures { MakesSaid usage_error.ExternalType MakesItem
        (external_said (rows_of (found_of matches.now)) payload.now) result }
{
    match external_type_said(matches) {
        Some(kind) => {
            let id = word_or(matches, "id", "");
            make_item(
                alloc,
                Tnf::External,
                kind.as_bytes(),
                id.as_bytes(),
                payload,
            )
        }
        None => Err(Fault::Usage(UsageError::ExternalType)),
    }
}

/// The package that a part gives.
fn package_said<'a>(matches: &ArgMatches<'a>) -> Option<&'a str>
    ensures { option_map (λ name. name.now) result ≡ package_said (rows_of (found_of matches.now)) }
{
    let name = option_text(matches, "package")?;
    if name.len() > 0 { Some(name) } else { None }
}

/// The record of the application of a part.
fn app_record(alloc: Global, matches: &ArgMatches<'_>) -> Result<Record, Fault>
    ensures { MakesSaid usage_error.Package MakesItem (app_said (rows_of (found_of matches.now))) result }
{
    match package_said(matches) {
        Some(package) => {
            let id = word_or(matches, "id", "");
            make_item(
                alloc,
                Tnf::External,
                b"android.com:pkg",
                id.as_bytes(),
                package.as_bytes(),
            )
        }
        None => Err(Fault::Usage(UsageError::Package)),
    }
}

/// The record with the id that a part gives; the same record where it gives none.
fn named(
    alloc: Global,
    matches: &ArgMatches<'_>,
    bare: Result<Record, Fault>,
) -> Result<Record, Fault>
    ensures { IsNamed (first_of (codes "id") (rows_of (found_of matches.now))) bare result }
{
    let Some(id) = option_text(matches, "id") else {
        return bare;
    };
    let bare = bare?;
    make_item(
        alloc,
        bare.tnf(),
        bare.kind(),
        id.as_bytes(),
        bare.payload(),
    )
}

/// Returns the record that a part requests, with this payload, whatever that is.
fn asked_record(alloc: Global, said: &ParsedPart<'_>, payload: &[u8]) -> Result<Record, Fault>
    ensures { MakesBy (subject_named (asked_part said.now).0) (asked_part said.now).1 payload.now result }
{
    match subject_named(said.name) {
        Some(Subject::Text) => named(alloc, &said.matches, text_record(alloc, &said.matches)),
        Some(Subject::Uri) => named(alloc, &said.matches, uri_record(alloc, &said.matches)),
        Some(Subject::Poster) => {
            named(
                alloc,
                &said.matches,
                poster_record(alloc, &said.matches, payload),
            )
        }
        Some(Subject::Handover) => {
            named(alloc, &said.matches, handover_record(alloc, &said.matches))
        }
        Some(Subject::Record) => given_record(alloc, &said.matches, payload),
        Some(Subject::Media) => media_record(alloc, &said.matches, payload),
        Some(Subject::External) => external_record(alloc, &said.matches, payload),
        Some(Subject::App) => app_record(alloc, &said.matches),
        Some(Subject::Carrier) => carrier_record(alloc, &said.matches, payload),
        None => Err(Fault::Usage(UsageError::Words)),
    }
}

/// Whether a part requests a record whose payload isn't checked.
fn is_unchecked(said: &ParsedPart<'_>) -> bool
    ensures { result ≡ is_unchecked (asked_part said.now) }
{
    flag_given(&said.matches, "unchecked")
}

/// The record, where nothing of it is forbidden.
fn allowed(alloc: Global, item: Record) -> Result<Record, Fault>
    requires { IsOfItsType item }
    ensures { IsAllowed item result }
{
    match bar_of(alloc, &item)? {
        None => Ok(item),
        Some(usage_error) => Err(Fault::Usage(usage_error)),
    }
}

/// The record, where its payload is one of its type for a strict reader and may be written.
fn checked(alloc: Global, item: Record) -> Result<Record, Fault>
    ensures { Checked item result }
{
    let kind = Kind::of(item.tnf(), item.kind());
    match refusal_of::<Typed>(kind, MOST_RECORDS, Profile::Strict, item.payload()) {
        None => allowed(alloc, item),
        Some(refusal) => Err(Fault::Refused(Refused::BadPayload(refusal))),
    }
}

/// Returns the record that a part requests, with this payload, if that is one of its type or isn't checked.
pub(crate) fn make_record(
    alloc: Global,
    said: &ParsedPart<'_>,
    payload: &[u8],
) -> Result<Record, Fault>
    ensures { Makes (asked_part said.now) payload.now result }
{
    let item = asked_record(alloc, said, payload)?;
    if is_unchecked(said) {
        return Ok(item);
    }
    checked(alloc, item)
}

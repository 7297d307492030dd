//! The record of a smart poster.
ghost use Rattle.std.specs.Prelude.{◌≡◌, codes};
ghost use Rattle.clap.specs.Words.{found_of, rows_of};
ghost use Rattle.ndef_cli_make.specs.Contents.{MakesContent, MakesPosterRecord, go_together, icon_said, poster_contents};
ghost use Rattle.ndef_cli_make.specs.Options.{is_said};
ghost use Rattle.ndef_cli_make.specs.Posters.{MakesNested, action_octet, action_said, size_said, title_said};
ghost use Rattle.ndef_cli_make.specs.Records.{AreAnsweredBy, MakesSaid, MakesItem, MakesText};
ghost use Rattle.ndef_cli_make.specs.declared.usage_error.UsageError.TheVariants as usage_error;

use crate::contents::{Property, make_contents, words_for};
use crate::options::{cut_at_equals, is_said, media_type, number_in};
use crate::records::{make_item, make_known, make_text, well_known};
use crate::{Fault, Refused, UsageError};
use clap::ArgMatches;
use ndef_lang::Kind;
use ndef_types::{Encoding, SmartPoster};
use ndef_value::{Message, MessageError, Record, Tnf};
use std::alloc::Global;

/// The record of a title.
pub(crate) fn make_title(alloc: Global, word: &str) -> Result<Record, Fault>
    ensures { MakesSaid usage_error.Title MakesText (title_said word.now) result }
{
    match cut_at_equals(word) {
        Some((language, text)) => make_text(alloc, Encoding::Utf8, language, text),
        None => Err(Fault::Usage(UsageError::Title)),
    }
}

/// The octet of an action.
fn action_octet(name: &str) -> Option<u8>
    ensures { result ≡ action_octet name.now }
{
    match name {
        "do" => Some(0),
        "save" => Some(1),
        "open" => Some(2),
        _ => None,
    }
}

/// The record of an action.
pub(crate) fn make_action(alloc: Global, name: &str) -> Result<Record, Fault>
    ensures { MakesSaid usage_error.Action MakesItem (action_said name.now) result }
{
    match action_octet(name) {
        Some(octet) => make_known(alloc, Kind::Action, &[octet]),
        None => Err(Fault::Usage(UsageError::Action)),
    }
}

/// The record of a size.
pub(crate) fn make_size(alloc: Global, word: &str) -> Result<Record, Fault>
    ensures { MakesSaid usage_error.Size MakesItem (size_said word.now) result }
{
    match number_in(word) {
        Some(size) => make_known(alloc, Kind::Size, &size.to_be_bytes()),
        None => Err(Fault::Usage(UsageError::Size)),
    }
}

/// The record of an icon of this media type, with this payload.
pub(crate) fn make_icon(alloc: Global, word: &str, payload: &[u8]) -> Result<Record, Fault>
    ensures { MakesSaid usage_error.IconType MakesItem (icon_said word.now payload.now) result }
{
    match media_type(word) {
        Some(kind) => make_item(alloc, Tnf::Media, kind.as_bytes(), b"", payload),
        None => Err(Fault::Usage(UsageError::IconType)),
    }
}

/// Whether an icon and its type go together: both are given, or neither.
fn has_whole_icon(matches: &ArgMatches<'_>) -> bool
    ensures { result ≡ go_together (is_said (codes "icon") (rows_of (found_of matches.now)))
        (is_said (codes "icon-type") (rows_of (found_of matches.now))) }
{
    if is_said(matches, "icon") {
        is_said(matches, "icon-type")
    } else {
        !is_said(matches, "icon-type")
    }
}

/// The records within the poster of a part, whose icon has this payload.
fn contents(alloc: Global, matches: &ArgMatches<'_>, payload: &[u8]) -> Result<Vec<Record>, Fault>
    ensures { AreAnsweredBy (MakesContent payload.now) (poster_contents (rows_of (found_of matches.now))) result }
{
    let options = [
        words_for(Property::Uri, "uri"),
        words_for(Property::Title, "title"),
        words_for(Property::Action, "action"),
        words_for(Property::Size, "size"),
        words_for(Property::Media, "media"),
        words_for(Property::Icon, "icon-type"),
    ];
    make_contents(alloc, matches, options.as_slice(), payload)
}

/// The record of the poster of this message.
fn make_poster(alloc: Global, message: Message) -> Result<Record, Fault>
    ensures { MakesNested message result }
{
    match SmartPoster::new(message) {
        Ok(poster) => {
            let payload = poster.encode(alloc)?;
            Ok(well_known(alloc, Kind::SmartPoster, payload))
        }
        Err(_) => Err(Fault::Refused(Refused::NoPoster)),
    }
}

/// The record of the poster of these records.
fn make_nested(alloc: Global, records: Vec<Record>) -> Result<Record, Fault>
    ensures { MakesNested records.items result }
{
    match Message::new(records) {
        Ok(message) => make_poster(alloc, message),
        Err(MessageError::NoRecords(_)) => Err(Fault::Refused(Refused::NoPoster)),
        Err(MessageError::TooMany(_)) => Err(Fault::Refused(Refused::TooManyRecords)),
    }
}

/// The record of the poster of a part, whose icon has this payload.
pub(crate) fn poster_record(
    alloc: Global,
    matches: &ArgMatches<'_>,
    payload: &[u8],
) -> Result<Record, Fault>
    ensures { MakesPosterRecord (rows_of (found_of matches.now)) payload.now result }
{
    if !has_whole_icon(matches) {
        return Err(Fault::Usage(UsageError::Icon));
    }
    let records = contents(alloc, matches, payload)?;
    make_nested(alloc, records)
}

//! The records within a poster or a handover, one for each word.
ghost use Rattle.std.specs.Prelude.{◌≡◌, map};
ghost use Rattle.clap.specs.Words.{found_of, rows_of};
ghost use Rattle.ndef_cli_make.specs.Contents.{MakesContent, OnMade, contents_by, option_of, words_as};
ghost use Rattle.ndef_cli_make.specs.Records.{AreAnsweredBy};

use crate::Fault;
use crate::handover::{make_alternative, make_collision, make_error};
use crate::poster::{make_action, make_icon, make_size, make_title};
use crate::records::{make_known, make_uri};
use clap::ArgMatches;
use ndef_lang::Kind;
use ndef_value::Record;
use std::alloc::Global;

/// The property that a record of a poster (RTD Smart Poster 1.0) or of a handover (Connection Handover 1.2) has.
#[derive(Clone, Copy)]
pub(crate) enum Property {
    /// The URI of a poster.
    Uri,
    /// A title in a language.
    Title,
    /// The recommended action.
    Action,
    /// The size of the object to which the URI refers.
    Size,
    /// Its media type.
    Media,
    /// The icon, by its media type.
    Icon,
    /// The collision resolution of a handover request.
    Collision,
    /// An alternative carrier.
    Carrier,
    /// The error of a handover select.
    Error,
}

/// An option whose words say a property.
#[derive(Clone, Copy)]
pub(crate) struct PropertyOption<'a> {
    pub(crate) property: Property,
    pub(crate) id: &'a str,
}

/// The option of this name, whose words say this property.
pub(crate) fn words_for(property: Property, id: &str) -> PropertyOption<'_>
    ensures { option_of result ≡ (property, id.now) }
{
    PropertyOption { property, id }
}

/// Makes the record of a property that a word gives; the payload is that of an icon.
fn make_content(
    alloc: Global,
    property: Property,
    word: &str,
    payload: &[u8],
) -> Result<Record, Fault>
    ensures { MakesContent payload.now (property, word.now) result }
{
    match property {
        Property::Uri => make_uri(alloc, word),
        Property::Title => make_title(alloc, word),
        Property::Action => make_action(alloc, word),
        Property::Size => make_size(alloc, word),
        Property::Media => make_known(alloc, Kind::MediaType, word.as_bytes()),
        Property::Icon => make_icon(alloc, word, payload),
        Property::Collision => make_collision(alloc, word),
        Property::Carrier => make_alternative(alloc, word),
        Property::Error => make_error(alloc, word),
    }
}

/// Appends the records of words, each of which gives this property.
fn push_texts(
    alloc: Global,
    records: &mut Vec<Record>,
    property: Property,
    texts: &[&str],
    payload: &[u8],
) -> Result<(), Fault>
    ensures { OnMade payload.now (map (λ text. (property, text.now)) texts.now)
        records.old.items records.new.items result }
{
    for text in texts {
        records.push(make_content(alloc, property, *text, payload)?)?;
    }
    Ok(())
}

/// Appends the records of the words of an option.
fn push_words(
    alloc: Global,
    records: &mut Vec<Record>,
    matches: &ArgMatches<'_>,
    wanted: PropertyOption<'_>,
    payload: &[u8],
) -> Result<(), Fault>
    ensures { OnMade payload.now (words_as wanted.entry.property wanted.entry.id.now (rows_of (found_of matches.now)))
        records.old.items records.new.items result }
{
    match matches.get_raw(wanted.id) {
        Some(texts) => push_texts(alloc, records, wanted.property, texts, payload),
        None => Ok(()),
    }
}

/// The records of the words of these options, one option after another; the payload is that of an icon.
pub(crate) fn make_contents(
    alloc: Global,
    matches: &ArgMatches<'_>,
    options: &[PropertyOption<'_>],
    payload: &[u8],
) -> Result<Vec<Record>, Fault>
    ensures { AreAnsweredBy (MakesContent payload.now)
        (contents_by (map option_of options.now) (rows_of (found_of matches.now))) result }
{
    let mut records = Vec::new(alloc);
    for option in options {
        push_words(alloc, &mut records, matches, *option, payload)?;
    }
    Ok(records)
}

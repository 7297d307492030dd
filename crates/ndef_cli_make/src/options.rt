//! The options of a part.
ghost use Rattle.std.specs.Prelude.{◌≡◌, ◌<◌, option_map, IfSome};
ghost use Rattle.clap.specs.Words.{found_of, rows_of};
ghost use Rattle.ndef_cli.specs.Options.{number_in};
ghost use Rattle.ndef_cli_make.specs.Options.{cut_at, is_colon, is_equals, is_said, is_slash, number_below};
ghost use Rattle.ndef_cli_make.specs.Options.{has_both, joined_at};
ghost use Rattle.ndef_cli_make.specs.Options.{subject_named, tnf_named, word_or};

use clap::ArgMatches;
use ndef_cli::option_text;
use ndef_value::Tnf;

/// The subject of a part.
#[derive(Clone, Copy)]
pub(crate) enum Subject {
    /// A Text record (RTD Text 1.0).
    Text,
    /// A URI record (RTD URI 1.0).
    Uri,
    /// A Smart Poster record (RTD Smart Poster 1.0).
    Poster,
    /// A Handover Request or Handover Select record (Connection Handover 1.2).
    Handover,
    /// A record of given parts.
    Record,
    /// A record of a media type (NDEF 1.0, TNF 2).
    Media,
    /// A record of an external type (NDEF 1.0, TNF 4).
    External,
    /// A record that names the package of an Android application.
    App,
    /// A Handover Carrier record (Connection Handover 1.2).
    Carrier,
}

/// The word of an option, or another one where it isn't given.
pub(crate) fn word_or<'a>(matches: &ArgMatches<'a>, id: &str, other: &'a str) -> &'a str
    ensures { result.now ≡ word_or id.now other.now (rows_of (found_of matches.now)) }
{
    match option_text(matches, id) {
        Some(word) => word,
        None => other,
    }
}

/// Whether an option is given.
pub(crate) fn is_said(matches: &ArgMatches<'_>, id: &str) -> bool
    ensures { result ≡ is_said id.now (rows_of (found_of matches.now)) }
{
    match option_text(matches, id) {
        Some(_) => true,
        None => false,
    }
}

/// The subject of this name.
pub(crate) fn subject_named(name: &str) -> Option<Subject>
    ensures { result ≡ subject_named name.now }
{
    match name {
        "text" => Some(Subject::Text),
        "uri" => Some(Subject::Uri),
        "poster" => Some(Subject::Poster),
        "handover" => Some(Subject::Handover),
        "record" => Some(Subject::Record),
        "media" => Some(Subject::Media),
        "external" => Some(Subject::External),
        "app" => Some(Subject::App),
        "carrier" => Some(Subject::Carrier),
        _ => None,
    }
}

/// The type name format of this number.
pub(crate) fn tnf_named(name: &str) -> Option<Tnf>
    ensures { result ≡ tnf_named name.now }
{
    match name {
        "0" => Some(Tnf::Empty),
        "1" => Some(Tnf::WellKnown),
        "2" => Some(Tnf::Media),
        "3" => Some(Tnf::AbsoluteUri),
        "4" => Some(Tnf::External),
        "5" => Some(Tnf::Unknown),
        _ => None,
    }
}

/// Returns the text before the first equals sign of a word, and the text after it.
pub(crate) fn cut_at_equals(word: &str) -> Option<(&str, &str)>
    ensures { option_map (λ cut. (cut.0.now, cut.1.now)) result ≡ cut_at is_equals word.now }
{
    word.split_once('=')
}

/// Returns the text before the first colon of a word, and the text after it.
pub(crate) fn cut_at_colon(word: &str) -> Option<(&str, &str)>
    ensures { option_map (λ cut. (cut.0.now, cut.1.now)) result ≡ cut_at is_colon word.now }
{
    word.split_once(':')
}

/// Returns the text before the first slash of a word, and the text after it.
fn cut_at_slash(word: &str) -> Option<(&str, &str)>
    ensures { option_map (λ cut. (cut.0.now, cut.1.now)) result ≡ cut_at is_slash word.now }
{
    word.split_once('/')
}

/// Whether a cut word has something before the cut and something after it.
fn has_both(cut: Option<(&str, &str)>) -> bool
    ensures { result ≡ has_both (option_map (λ cut. (cut.0.now, cut.1.now)) cut.entry) }
{
    match cut {
        Some((front, rest)) => !front.is_empty() && !rest.is_empty(),
        None => false,
    }
}

/// A media type: a type, a slash and a subtype (RFC 2046).
pub(crate) fn media_type(word: &str) -> Option<&str>
    ensures { option_map (λ kind. kind.now) result ≡ joined_at is_slash word.now }
{
    if has_both(cut_at_slash(word)) {
        Some(word)
    } else {
        None
    }
}

/// An external type: a domain, a colon and a name (NDEF 1.0, TNF 4).
pub(crate) fn external_type(word: &str) -> Option<&str>
    ensures { option_map (λ kind. kind.now) result ≡ joined_at is_colon word.now }
{
    if has_both(cut_at_colon(word)) {
        Some(word)
    } else {
        None
    }
}

/// Returns the number that a word denotes.
pub(crate) fn number_in(word: &str) -> Option<u32>
    ensures { result ≡ number_in word.now }
{
    match word.parse::<u32>() {
        Ok(number) => Some(number),
        Err(_) => None,
    }
}

/// The same, where it is below this one.
pub(crate) fn number_below(bound: u32, word: &str) -> Option<u32>
    ensures value { result ≡ number_below bound word.now }
    ensures bound { IfSome result (λ number. number < bound) }
{
    let number = number_in(word)?;
    if number < bound { Some(number) } else { None }
}

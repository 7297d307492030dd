//! The word of a carrier of a handover (Connection Handover 1.2, Alternative Carrier record).
ghost use Rattle.std.specs.Prelude.{◌≡◌, ◌∷◌, [], option_map, MatchOption};
ghost use Rattle.std.specs.List.{list_all, slice_split};
ghost use Rattle.ndef_cli_make.specs.CarrierWords.{is_setting, link_by_keys, link_in_order, link_read, link_said, only};
ghost use Rattle.ndef_cli_make.specs.CarrierWords.{power_named, references_left, value_of, values_left, values_of};
ghost use Rattle.ndef_cli_make.specs.Options.{is_comma};

use crate::options::cut_at_equals;
use ndef_cli::cut_at;
use ndef_types::Power;

/// References that are left of a word.
#[derive(Clone, Copy)]
pub(crate) enum References<'a> {
    /// Those that commas separate.
    InOrder(Option<&'a [u8]>),
    /// One, and the values of the key `aux`.
    ByKeys(&'a [u8], Option<&'a [u8]>),
    /// The values of the key `aux`.
    Auxiliary(Option<&'a [u8]>),
}

/// The meaning of the word of a carrier: a power state and references, of which the first is the carrier's.
#[derive(Clone, Copy)]
pub(crate) struct Linked<'a> {
    pub(crate) power: Power,
    pub(crate) references: References<'a>,
}

/// The power state of this name.
fn power_named(name: &[u8]) -> Option<Power>
    ensures { result ≡ power_named name.now }
{
    if name == b"inactive".as_slice() {
        Some(Power::Inactive)
    } else if name == b"active".as_slice() {
        Some(Power::Active)
    } else if name == b"activating".as_slice() {
        Some(Power::Activating)
    } else if name == b"unknown".as_slice() {
        Some(Power::Unknown)
    } else {
        None
    }
}

/// The value of a setting, if it begins with this key.
fn value_of<'a>(key: &[u8], setting: &'a [u8]) -> Option<&'a [u8]>
    ensures { option_map (λ value. value.now) result ≡ value_of key.now setting.now }
{
    setting.strip_prefix(key)
}

/// Whether a setting has one of the keys.
fn is_setting(setting: &[u8]) -> bool
    ensures { result ≡ is_setting setting.now }
{
    value_of(b"power=", setting).is_some()
        || value_of(b"ref=", setting).is_some()
        || value_of(b"aux=", setting).is_some()
}

/// Whether each setting has one of the keys; commas separate them.
fn are_settings(text: &[u8]) -> bool
    ensures { result ≡ list_all is_setting (slice_split is_comma text.now) }
{
    let (mut setting, mut rest) = cut_at(text, b',');
    while is_setting(setting) {
        let Some(more) = rest else {
            return true;
        };
        (setting, rest) = cut_at(more, b',');
    }
    false
}

/// The first value of a key in the rest of a word, and what is left after it.
fn next_value<'a>(key: &[u8], text: Option<&'a [u8]>) -> Option<(&'a [u8], Option<&'a [u8]>)>
    ensures { MatchOption result (values_left key.now text.entry ≡ [])
        (λ taken. values_left key.now text.entry ≡ taken.0.now ∷ values_left key.now taken.1) }
{
    let mut rest = text;
    while let Some(settings) = rest {
        let (setting, others) = cut_at(settings, b',');
        if let Some(value) = value_of(key, setting) {
            return Some((value, others));
        }
        rest = others;
    }
    None
}

/// The value of a key, where it has one and no other.
fn only_value<'a>(key: &[u8], text: &'a [u8]) -> Option<&'a [u8]>
    ensures { option_map (λ value. value.now) result ≡ only (values_of key.now text.now) }
{
    let (value, rest) = next_value(key, Some(text))?;
    match next_value(key, rest) {
        Some(_) => None,
        None => Some(value),
    }
}

impl<'a> References<'a> {
    /// The first of them, and those after it.
    pub(crate) fn next(self) -> Option<(&'a [u8], References<'a>)>
        ensures { MatchOption result (references_left self.entry ≡ [])
            (λ taken. references_left self.entry ≡ taken.0.now ∷ references_left taken.1) }
    {
        match self {
            References::InOrder(Some(text)) => {
                let (reference, rest) = cut_at(text, b',');
                Some((reference, References::InOrder(rest)))
            }
            References::InOrder(None) => None,
            References::ByKeys(reference, rest) => Some((reference, References::Auxiliary(rest))),
            References::Auxiliary(text) => {
                let (reference, rest) = next_value(b"aux=", text)?;
                Some((reference, References::Auxiliary(rest)))
            }
        }
    }
}

/// A power state, an equals sign, and references between commas.
fn link_in_order(word: &str) -> Option<Linked<'_>>
    ensures { option_map link_read result ≡ link_in_order word.now }
{
    let (name, references) = cut_at_equals(word)?;
    Some(Linked {
        power: power_named(name.as_bytes())?,
        references: References::InOrder(Some(references.as_bytes())),
    })
}

/// Settings in any order: one power state, one reference and any number of auxiliary references.
fn link_by_keys(word: &[u8]) -> Option<Linked<'_>>
    ensures { option_map link_read result ≡ link_by_keys word.now }
{
    if !are_settings(word) {
        return None;
    }
    let power = power_named(only_value(b"power=", word)?)?;
    let reference = only_value(b"ref=", word)?;
    Some(Linked {
        power,
        references: References::ByKeys(reference, Some(word)),
    })
}

/// Returns the carrier that a word denotes.
pub(crate) fn link_said(word: &str) -> Option<Linked<'_>>
    ensures { option_map link_read result ≡ link_said word.now }
{
    match link_in_order(word) {
        Some(linked) => Some(linked),
        None => link_by_keys(word.as_bytes()),
    }
}

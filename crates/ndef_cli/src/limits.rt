//! The limits that options give.
ghost use Rattle.std.specs.Prelude.{◌≡◌, ◌≤◌, ◌<◌, option_and_then, IfSome};
ghost use Rattle.clap.specs.Words.{one_of, rows_of, found_of};
ghost use Rattle.ndef_cli.specs.LimitOptions.{given_number, chosen_limits, number_or, profile_named, chosen_profile, within};
ghost use Rattle.ndef_cli.specs.Options.{number_in};

use crate::option_text;
use clap::ArgMatches;
use ndef_value::{Limits, MOST_PAYLOAD, MOST_PIECES, MOST_RECORDS, Profile};

/// The number of an option, as clap has read it, where it is given.
fn read(matches: &ArgMatches<'_>, id: &str) -> Option<u32>
    ensures { result ≡ option_and_then number_in (one_of id.now (rows_of (found_of matches.now))) }
{
    matches.get_one::<u32>(id)
}

/// The number, if it is from 1 to `most`.
fn limited(number: u32, most: u32) -> Option<u32>
    ensures value { result ≡ within most number }
    ensures range { IfSome result (λ n. (1 ≤ n) × (n ≤ most)) }
{
    if 0 < number && number <= most {
        Some(number)
    } else {
        None
    }
}

/// The number of an option that is given, if it is from 1 to `most`.
pub fn number_given(matches: &ArgMatches<'_>, id: &str, most: u32) -> Option<u32>
    ensures value { result ≡ given_number id.now most (rows_of (found_of matches.now)) }
    ensures range { IfSome result (λ n. (1 ≤ n) × (n ≤ most)) }
{
    let number = read(matches, id)?;
    limited(number, most)
}

/// The number of an option, or the usual one where it is not given.
fn number(matches: &ArgMatches<'_>, id: &str, most: u32, usual: u32) -> Option<u32>
    requires some { 1 ≤ usual }
    requires most { usual ≤ most }
    ensures value { result ≡ number_or id.now most usual (rows_of (found_of matches.now)) }
    ensures range { IfSome result (λ n. (1 ≤ n) × (n ≤ most)) }
{
    match option_text(matches, id) {
        Some(_) => number_given(matches, id, most),
        None => Some(usual),
    }
}

/// The profile of this name.
fn profile_named(name: &str) -> Option<Profile>
    ensures { result ≡ profile_named name.now }
{
    match name {
        "strict" => Some(Profile::Strict),
        "standard" => Some(Profile::Standard),
        _ => None,
    }
}

/// The profile of `--profile`, or the strict one where it is not given.
fn profile_given(matches: &ArgMatches<'_>) -> Option<Profile>
    ensures { result ≡ chosen_profile (rows_of (found_of matches.now)) }
{
    match option_text(matches, "profile") {
        Some(name) => profile_named(name),
        None => Some(Profile::Strict),
    }
}

/// The limits that the options give; None if a number is out of its range, or the profile isn't known.
pub fn limits_given(matches: &ArgMatches<'_>) -> Option<Limits>
    ensures { result ≡ chosen_limits (rows_of (found_of matches.now)) }
{
    let usual = Limits::usual();
    let payload = number(matches, "payload", MOST_PAYLOAD, usual.payload())?;
    let records = number(matches, "records", MOST_RECORDS, usual.records())?;
    let pieces = number(matches, "pieces", MOST_PIECES, usual.pieces())?;
    let profile = profile_given(matches)?;
    let Ok(limits) = Limits::new(payload, records, pieces) else {
        return None;
    };
    Some(limits.with(profile))
}

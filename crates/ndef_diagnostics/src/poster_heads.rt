//! The expectation in a head of a smart poster before which no URI has come.
ghost use Rattle.std.specs.Prelude.{◌≡◌, ◌<◌, ◌^◌};
ghost use Rattle.ndef_diagnostics.specs.PosterHeads.{before_uri, has_no_payload, is_uncut, least_uri, may_be_uri};
ghost use Rattle.ndef_diagnostics.specs.PosterHeads.{of_last_uri, of_rest, of_uri};

use crate::begun::{
    head_length, id_length, is_length_whole, is_size_known, least_record, octet_at, payload_length,
};
use crate::{Expected, Whose};
use ndef_format::header::{END, is_set, tnf_number};

/// Whether PAYLOAD_LENGTH has come, and is 0.
fn has_no_payload(octets: &[u8]) -> bool
    ensures { result ≡ has_no_payload octets.now }
{
    is_length_whole(octets) && payload_length(octets) == 0
}

/// Whether a record that begins with these octets may be a URI.
fn may_be_uri(octets: &[u8]) -> bool
    ensures { result ≡ may_be_uri octets.now }
{
    tnf_number(octet_at(octets, 0)) == 1
        && (octets.len() < 2 || octet_at(octets, 1) == 1)
        && !has_no_payload(octets)
}

/// The least length of a URI record that begins with these octets.
fn least_uri(octets: &[u8]) -> u64
    ensures value { result ≡ least_uri octets.now }
    ensures small { result < 2 ^ 33 }
{
    let front = head_length(octets) + 1 + usize::from(id_length(octets));
    front as u64 + payload_length(octets).max(1)
}

/// Whether no octet of PAYLOAD_LENGTH has come, or all have.
fn is_uncut(octets: &[u8]) -> bool
    ensures { result ≡ is_uncut octets.now }
{
    octets.len() <= 2 || is_length_whole(octets)
}

/// The last record of a poster has to be its URI.
fn of_last_uri(left: u64, octets: &[u8]) -> Expected
    ensures { result ≡ of_last_uri left octets.now }
{
    if has_no_payload(octets) {
        return Expected::EmptyUri;
    }
    let least = least_uri(octets);
    if left < least && is_uncut(octets) {
        Expected::Size(Whose::LastUri, least, left)
    } else {
        Expected::Nothing
    }
}

/// Returns the expectation if a record of this size isn't the URI of a poster, and one that is has to follow.
fn of_rest(left: u64, size: u64) -> Expected
    ensures { result ≡ of_rest left size }
{
    let rest = left.saturating_sub(size);
    if rest < 5 {
        Expected::Size(Whose::NextUri, 5, rest)
    } else {
        Expected::Nothing
    }
}

/// The same, after a head.
fn before_uri(left: u64, octets: &[u8]) -> Expected
    ensures { result ≡ before_uri left octets.now }
{
    if is_size_known(octets) && !may_be_uri(octets) {
        of_rest(left, least_record(octets))
    } else {
        Expected::Nothing
    }
}

/// A poster has a URI.
pub(crate) fn of_uri(left: u64, octets: &[u8]) -> Expected
    ensures { result ≡ of_uri left octets.now }
{
    if is_set(END, octet_at(octets, 0)) {
        of_last_uri(left, octets)
    } else {
        before_uri(left, octets)
    }
}

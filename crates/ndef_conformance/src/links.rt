//! Messages and the carriers that their handovers name. conformance/README.md describes the columns.
use ndef_lang::Opaque;
use ndef_message::{SliceSource, read_message, view};
use ndef_tests::case::is_in;
use ndef_tests::lines::{bytes_of, fields};
use ndef_types::{Link, Links, Power, carriers_as, carriers_view};
use ndef_value::{Limits, Profile};
use std::alloc::Global;

/// The number of a power state.
pub(super) fn number_of(power: Power) -> u64 {
    match power {
        Power::Inactive => 0,
        Power::Active => 1,
        Power::Activating => 2,
        Power::Unknown => 3,
    }
}

/// Whether a link is the one of a text, `POWER REFERENCE RECORD`.
fn is_link(alloc: Global, text: &str, link: &Link) -> Option<bool> {
    let mut words = text.split_whitespace();
    let power = words.next()?.parse::<u64>().ok()?;
    let reference = bytes_of(alloc, words.next()?)?;
    let index = match words.next()? {
        "none" => None,
        number => Some(number.parse::<usize>().ok()?.checked_sub(1)?),
    };
    let same = number_of(link.ac.power()) == power && link.index == index;
    Some(same && link.ac.reference().as_slice() == reference.as_slice() && words.next().is_none())
}

/// Whether the links are those of a text, with commas between.
fn are_links(alloc: Global, text: &str, links: &Links) -> Option<bool> {
    if text == "none" {
        return Some(links.is_empty());
    }
    let mut texts = text.split(',');
    for link in links {
        if !is_link(alloc, texts.next()?, link)? {
            return Some(false);
        }
    }
    Some(texts.next().is_none())
}

/// Whether the message of a line, and its view, have the links of the line in a profile.
fn are_linked_in(alloc: Global, line: &str, profile: Profile) -> Option<bool> {
    let [_, _, _, _, _, bytes, links, ..] = fields(line);
    let (bytes, limits) = (bytes_of(alloc, bytes)?, Limits::usual().with(profile));
    let mut source = SliceSource::whole(bytes.as_slice());
    let read = read_message::<Opaque, _>(alloc, &mut source, limits).ok()?;
    let viewed = view::<Opaque>(bytes.as_slice(), limits).ok()?;
    let whole = carriers_as(alloc, &read.message, profile).ok()?;
    let seen = carriers_view(alloc, &viewed).ok()?;
    Some(are_links(alloc, links, &whole)? && are_links(alloc, links, &seen)?)
}

/// Whether the message of a line has its links in each profile that it names; nothing where the line can't be read.
pub(super) fn are_linked(alloc: Global, line: &str) -> Option<bool> {
    let [_, _, _, _, profiles, ..] = fields(line);
    let mut reported = false;
    for profile in [Profile::Strict, Profile::Standard] {
        if is_in(profiles, profile) {
            reported = true;
            if !are_linked_in(alloc, line, profile)? {
                return Some(false);
            }
        }
    }
    Some(reported)
}

//! The record of a handover request or select.
ghost use Rattle.std.specs.Prelude.{◌≡◌, ◌<◌, [], length, nat_lt, IfSome};
ghost use Rattle.clap.specs.Words.{found_of, rows_of};
ghost use Rattle.ndef_cli_make.specs.CarrierWords.{references_left};
ghost use Rattle.ndef_cli_make.specs.Contents.{MakesContent, MakesHandoverSaid, handover_contents};
ghost use Rattle.ndef_cli_make.specs.Handovers.{ChecksReferences, AreNames, FitReferences, AreShort, AsksError};
ghost use Rattle.ndef_cli_make.specs.Handovers.{IsSelected, MakesAcRecord, MakesAlternative, MakesError, MakesHandoverOf};
ghost use Rattle.ndef_cli_make.specs.Handovers.{MakesRequestRecord, MakesSelectRecord, ac_of, ac_said, are_short};
ghost use Rattle.ndef_cli_make.specs.Handovers.{collision_said, goes_with, handover_said, minor_named, side_named};
ghost use Rattle.ndef_cli_make.specs.declared.usage_error.UsageError.TheVariants as usage_error;
ghost use Rattle.ndef_cli_make.specs.Records.{AreAnsweredBy, MakesSaid, MakesItem};

use crate::carrier_word::{Linked, References, link_said};
use crate::contents::{Property, make_contents, words_for};
use crate::octets::octets_in;
use crate::options::{cut_at_colon, is_said, number_below, word_or};
use crate::records::{make_known, well_known};
use crate::{Fault, Refused, UsageError};
use clap::ArgMatches;
use ndef_cli::option_text;
use ndef_lang::Kind;
use ndef_types::{Ac, HandoverError, Power, Request, Select};
use ndef_value::{Bytes, Message, MessageError, Name, Record};
use std::alloc::Global;

/// The side of a handover record (Connection Handover 1.2).
#[derive(Clone, Copy)]
pub(crate) enum Side {
    /// A request.
    Request,
    /// A select.
    Select,
}

/// A request or a select, and its minor version, 0 to 15 (Connection Handover 1.2, version octet).
#[derive(Clone, Copy)]
pub(crate) struct Handover {
    side: Side,
    minor: u8,
}

/// Whether each reference has at most 255 bytes.
fn are_short(references: References<'_>) -> bool
    ensures { result ≡ are_short (references_left references.entry) }
{
    let mut rest = references;
    while let Some((reference, more)) = rest.next() {
        if reference.len() > 255 {
            return false;
        }
        rest = more;
    }
    true
}

/// Whether there are at most 256 references.
fn are_few(references: References<'_>) -> bool
    ensures { result ≡ nat_lt (length (references_left references.entry)) 257 }
{
    let mut rest = references;
    let mut room = 256u16;
    while let Some((_, more)) = rest.next() {
        if room == 0 {
            return false;
        }
        room -= 1;
        rest = more;
    }
    true
}

/// Checks the references of a carrier: none is too long, and at most 255 are auxiliary.
fn check_references(references: References<'_>) -> Result<(), Fault>
    ensures { ChecksReferences (references_left references.entry) result }
{
    if !are_short(references) {
        return Err(Fault::Refused(Refused::PartTooLong));
    }
    if !are_few(references) {
        return Err(Fault::Refused(Refused::TooManyReferences));
    }
    Ok(())
}

/// The names of references.
fn make_names(alloc: Global, references: References<'_>) -> Result<Vec<Name>, Fault>
    requires { AreShort (references_left references) }
    ensures { AreNames (references_left references.entry) result }
{
    let mut names = Vec::new(alloc);
    let mut rest = references;
    while let Some((reference, more)) = rest.next() {
        names.push(Name::from_slice(alloc, reference)?)?;
        rest = more;
    }
    Ok(names)
}

/// The record of an alternative carrier of these very parts.
fn make_ac(
    alloc: Global,
    power: Power,
    reference: Name,
    auxiliary: Vec<Name>,
) -> Result<Record, Fault>
    ensures { MakesAcRecord
        (record { power = power; reference = reference; auxiliary = auxiliary.items; rest = [] }) result }
{
    match Ac::new(power, reference, auxiliary, Bytes::new(alloc)) {
        Ok(ac) => {
            let payload = ac.encode(alloc)?;
            Ok(well_known(alloc, Kind::Alternative, payload))
        }
        Err(_) => Err(Fault::Refused(Refused::TooManyReferences)),
    }
}

/// The record of an alternative carrier with these references, of which the first is the carrier's.
fn make_linked(alloc: Global, linked: Linked<'_>) -> Result<Record, Fault>
    requires { FitReferences (references_left linked.references) }
    ensures { MakesSaid usage_error.Carrier MakesAlternative
        (ac_of linked.entry.power (references_left linked.entry.references)) result }
{
    let Some((reference, auxiliary)) = linked.references.next() else {
        return Err(Fault::Usage(UsageError::Carrier));
    };
    let reference = Name::from_slice(alloc, reference)?;
    let auxiliary = make_names(alloc, auxiliary)?;
    make_ac(alloc, linked.power, reference, auxiliary)
}

/// The record of the alternative carrier of a word.
pub(crate) fn make_alternative(alloc: Global, word: &str) -> Result<Record, Fault>
    ensures { MakesSaid usage_error.Carrier MakesAlternative (ac_said word.now) result }
{
    let Some(linked) = link_said(word) else {
        return Err(Fault::Usage(UsageError::Carrier));
    };
    check_references(linked.references)?;
    make_linked(alloc, linked)
}

/// The record of an error with this reason and this data.
fn make_reason(alloc: Global, reason: u8, detail: &[u8]) -> Result<Record, Fault>
    ensures { MakesError (record { reason = reason; detail = detail.now }) result }
{
    let error = HandoverError::new(alloc, reason, detail)?;
    let payload = error.encode(alloc)?;
    Ok(well_known(alloc, Kind::Error, payload))
}

/// The record of the error of a word.
pub(crate) fn make_error(alloc: Global, word: &str) -> Result<Record, Fault>
    ensures { AsksError word.now result }
{
    let Some((reason, digits)) = cut_at_colon(word) else {
        return Err(Fault::Usage(UsageError::Reason));
    };
    let Some(reason) = number_below(256, reason) else {
        return Err(Fault::Usage(UsageError::Reason));
    };
    let detail = octets_in(alloc, UsageError::Reason, digits)?;
    make_reason(alloc, reason as u8, detail.as_slice())
}

/// The record of the collision resolution of a word.
pub(crate) fn make_collision(alloc: Global, word: &str) -> Result<Record, Fault>
    ensures { MakesSaid usage_error.Collision MakesItem (collision_said word.now) result }
{
    match number_below(65536, word) {
        Some(number) => make_known(alloc, Kind::Collision, &(number as u16).to_be_bytes()),
        None => Err(Fault::Usage(UsageError::Collision)),
    }
}

/// The handover of this name.
fn side_named(name: &str) -> Option<Side>
    ensures { result ≡ side_named name.now }
{
    match name {
        "request" => Some(Side::Request),
        "select" => Some(Side::Select),
        _ => None,
    }
}

/// The minor version of this name.
fn minor_named(name: &str) -> Option<u8>
    ensures value { result ≡ minor_named name.now }
    ensures bound { IfSome result (λ minor. minor < 16) }
{
    match name {
        "1.0" => Some(0),
        "1.1" => Some(1),
        "1.2" => Some(2),
        "1.3" => Some(3),
        "1.4" => Some(4),
        "1.5" => Some(5),
        "1.6" => Some(6),
        "1.7" => Some(7),
        "1.8" => Some(8),
        "1.9" => Some(9),
        "1.10" => Some(10),
        "1.11" => Some(11),
        "1.12" => Some(12),
        "1.13" => Some(13),
        "1.14" => Some(14),
        "1.15" => Some(15),
        _ => None,
    }
}

/// Whether the options of a part go with its side.
fn goes_with(side: Side, matches: &ArgMatches<'_>) -> bool
    ensures { result ≡ goes_with side (rows_of (found_of matches.now)) }
{
    match side {
        Side::Request => is_said(matches, "collision") && !is_said(matches, "error"),
        Side::Select => !is_said(matches, "collision"),
    }
}

/// Returns the handover that a part describes.
fn handover_said(matches: &ArgMatches<'_>) -> Option<Handover>
    ensures value { result ≡ handover_said (rows_of (found_of matches.now)) }
    ensures bound { IfSome result (λ handover. handover.minor < 16) }
{
    let side = side_named(option_text(matches, "kind")?)?;
    if !goes_with(side, matches) {
        return None;
    }
    let minor = minor_named(word_or(matches, "version", "1.2"))?;
    Some(Handover { side, minor })
}

/// The records within the handover of a part.
fn contents(alloc: Global, matches: &ArgMatches<'_>) -> Result<Vec<Record>, Fault>
    ensures { AreAnsweredBy (MakesContent []) (handover_contents (rows_of (found_of matches.now))) result }
{
    let options = [
        words_for(Property::Collision, "collision"),
        words_for(Property::Carrier, "carrier"),
        words_for(Property::Error, "error"),
    ];
    make_contents(alloc, matches, options.as_slice(), b"")
}

/// The record of a request of these records.
fn make_request(alloc: Global, minor: u8, records: Vec<Record>) -> Result<Record, Fault>
    requires { minor < 16 }
    ensures { MakesRequestRecord minor records.items result }
{
    let message = match Message::new(records) {
        Ok(message) => message,
        Err(MessageError::NoRecords(_)) => return Err(Fault::Refused(Refused::NoHandover)),
        Err(MessageError::TooMany(_)) => return Err(Fault::Refused(Refused::TooManyRecords)),
    };
    match Request::new(minor, message) {
        Ok(request) => {
            let payload = request.encode(alloc)?;
            Ok(well_known(alloc, Kind::Request, payload))
        }
        Err(_) => Err(Fault::Refused(Refused::NoHandover)),
    }
}

/// The message of a select, where it has records.
fn selected(records: Vec<Record>) -> Result<Option<Message>, Fault>
    ensures { IsSelected records.items result }
{
    match Message::new(records) {
        Ok(message) => Ok(Some(message)),
        Err(MessageError::NoRecords(_)) => Ok(None),
        Err(MessageError::TooMany(_)) => Err(Fault::Refused(Refused::TooManyRecords)),
    }
}

/// The record of a select of these records.
fn make_select(alloc: Global, minor: u8, records: Vec<Record>) -> Result<Record, Fault>
    requires { minor < 16 }
    ensures { MakesSelectRecord minor records.items result }
{
    match Select::new(minor, selected(records)?) {
        Ok(select) => {
            let payload = select.encode(alloc)?;
            Ok(well_known(alloc, Kind::Select, payload))
        }
        Err(_) => Err(Fault::Refused(Refused::NoHandover)),
    }
}

/// The record of a handover of these records.
fn make_handover(alloc: Global, handover: Handover, records: Vec<Record>) -> Result<Record, Fault>
    requires { handover.minor < 16 }
    ensures { MakesHandoverOf handover records.items result }
{
    match handover.side {
        Side::Request => make_request(alloc, handover.minor, records),
        Side::Select => make_select(alloc, handover.minor, records),
    }
}

/// The record of the handover of a part.
pub(crate) fn handover_record(alloc: Global, matches: &ArgMatches<'_>) -> Result<Record, Fault>
    ensures { MakesHandoverSaid (rows_of (found_of matches.now)) result }
{
    let Some(handover) = handover_said(matches) else {
        return Err(Fault::Usage(UsageError::Handover));
    };
    let records = contents(alloc, matches)?;
    make_handover(alloc, handover, records)
}

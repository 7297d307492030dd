//! The record of a handover carrier.
ghost use Rattle.std.specs.Prelude.{◌≡◌, ◌<◌, IfSome};
ghost use Rattle.clap.specs.Words.{found_of, rows_of};
ghost use Rattle.ndef_cli_make.specs.Carriers.{MakesCarrier, WritesData, carrier_said, format_named};
ghost use Rattle.ndef_cli_make.specs.Options.{id_said};
ghost use Rattle.ndef_cli_make.specs.Records.{MakesSaid};
ghost use Rattle.ndef_cli_make.specs.declared.usage_error.UsageError.TheVariants as usage_error;

use crate::options::word_or;
use crate::records::make_item;
use crate::{Fault, UsageError};
use clap::ArgMatches;
use ndef_cli::option_text;
use ndef_types::Carrier;
use ndef_value::{Bytes, Name, Record, Tnf};
use std::alloc::Global;

/// The carrier type format of this number.
fn format_named(name: &str) -> Option<u8>
    ensures value { result ≡ format_named name.now }
    ensures bound { IfSome result (λ format. format < 8) }
{
    match name {
        "0" => Some(0),
        "1" => Some(1),
        "2" => Some(2),
        "3" => Some(3),
        "4" => Some(4),
        "5" => Some(5),
        "6" => Some(6),
        "7" => Some(7),
        _ => None,
    }
}

/// The payload of a carrier.
fn write_data(alloc: Global, format: u8, kind: &str, carried: &[u8]) -> Result<Bytes, Fault>
    requires { format < 8 }
    ensures { WritesData (record { format = format; kind = kind.now; carried = carried.now }) result }
{
    let kind = Name::from_slice(alloc, kind.as_bytes())?;
    let carried = Bytes::from_slice(alloc, carried)?;
    let carrier = Carrier::new(format, kind, carried);
    Ok(carrier.encode(alloc)?)
}

/// The record of the carrier of a part, whose data is its payload.
pub(crate) fn carrier_record(
    alloc: Global,
    matches: &ArgMatches<'_>,
    payload: &[u8],
) -> Result<Record, Fault>
    ensures { MakesSaid usage_error.Format (MakesCarrier (id_said (rows_of (found_of matches.now))))
        (carrier_said (rows_of (found_of matches.now)) payload.now) result }
{
    let Some(name) = option_text(matches, "format") else {
        return Err(Fault::Usage(UsageError::Format));
    };
    let Some(format) = format_named(name) else {
        return Err(Fault::Usage(UsageError::Format));
    };
    let kind = word_or(matches, "type", "");
    let id = word_or(matches, "id", "");
    let carrier = write_data(alloc, format, kind, payload)?;
    make_item(
        alloc,
        Tnf::WellKnown,
        b"Hc",
        id.as_bytes(),
        carrier.as_slice(),
    )
}

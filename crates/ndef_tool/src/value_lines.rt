//! The output for texts, URIs and handover carriers.
ghost use Rattle.std.specs.Prelude.{◌≡◌, ◌++◌, OnOk};
ghost use Rattle.ndef_format.specs.Handovers.{IsCarrier};
ghost use Rattle.ndef_format.specs.Texts.{IsText};
ghost use Rattle.ndef_format.specs.Uris.{IsUri};
ghost use Rattle.ndef_format.specs.declared.kind.Kind.TheVariants as kinds;
ghost use Rattle.ndef_tool.specs.Showing.{Adds, PrintsValue, encoding_name, reported_carrier, reported_text, reported_uri};

use crate::quoting::push_named;
use ndef_cli::push_counted;
use ndef_types::{Carrier, CarrierParts, Encoding, Text, TextParts, Uri, UriParts};
use ndef_value::{Bytes, NoMemory, Profile};
use std::alloc::Global;

/// The name of an encoding.
fn encoding_name(encoding: Encoding) -> &'static [u8]
    ensures { result.now ≡ encoding_name encoding }
{
    match encoding {
        Encoding::Utf8 => b"utf-8",
        Encoding::Utf16 => b"utf-16",
    }
}

/// Appends the encoding, the language code and the text.
fn push_reported_text(line: &mut Bytes, text: &Text) -> Result<(), NoMemory>
    ensures { OnOk result (line.new ≡ line.old ++ reported_text text.now) }
{
    line.extend(b" text ")?;
    line.extend(encoding_name(text.encoding()))?;
    push_named(line, b" ", text.language().as_bytes())?;
    push_named(line, b" ", text.text().as_bytes())
}

/// Appends the output for the payload of a text record.
pub fn push_text(
    alloc: Global,
    line: &mut Bytes,
    profile: Profile,
    payload: &[u8],
) -> Result<(), NoMemory>
    requires { IsText payload.now }
    ensures { OnOk result (Adds line.old line.new (PrintsValue kinds.Text profile payload.now)) }
{
    let text = TextParts::new(payload).to_value(alloc)?;
    push_reported_text(line, &text)
}

/// Appends the URI.
fn push_reported_uri(line: &mut Bytes, uri: &Uri) -> Result<(), NoMemory>
    ensures { OnOk result (line.new ≡ line.old ++ reported_uri uri.now) }
{
    push_named(line, b" uri ", uri.text().as_bytes())
}

/// Appends the output for the payload of a URI record.
pub fn push_uri(
    alloc: Global,
    line: &mut Bytes,
    profile: Profile,
    payload: &[u8],
) -> Result<(), NoMemory>
    requires { IsUri profile payload.now }
    ensures { OnOk result (Adds line.old line.new (PrintsValue kinds.Uri profile payload.now)) }
{
    let uri = UriParts::new(payload).to_value(alloc)?;
    push_reported_uri(line, &uri)
}

/// Appends the format and the type of a handover carrier, and its number of octets of data.
fn push_reported_carrier(line: &mut Bytes, carrier: &Carrier) -> Result<(), NoMemory>
    ensures { OnOk result (line.new ≡ line.old ++ reported_carrier carrier.now) }
{
    push_counted(line, b" carrier format ", u64::from(carrier.format()))?;
    push_named(line, b" type ", carrier.kind().as_slice())?;
    push_counted(line, b" data ", carrier.carried().len() as u64)
}

/// Appends the output for the payload of a handover carrier record.
pub fn push_carrier(
    alloc: Global,
    line: &mut Bytes,
    profile: Profile,
    payload: &[u8],
) -> Result<(), NoMemory>
    requires { IsCarrier payload.now }
    ensures { OnOk result (Adds line.old line.new (PrintsValue kinds.Carrier profile payload.now)) }
{
    let carrier = CarrierParts::new(payload).to_value(alloc)?;
    push_reported_carrier(line, &carrier)
}

//! The bytes of hexadecimal digits.
ghost use Rattle.std.specs.Prelude.{◌≡◌};
ghost use Rattle.std.specs.List.{list_all};
ghost use Rattle.hex.specs.Hex.{is_hex_digit};
ghost use Rattle.ndef_cli_make.specs.Octets.{SaysOctets};

use crate::{Fault, UsageError};
use ndef_value::Bytes;
use std::alloc::Global;

/// Whether all of these are hexadecimal digits.
fn are_digits(digits: &[u8]) -> bool
    ensures { result ≡ list_all is_hex_digit digits.now }
{
    digits.iter().all(|digit| digit.is_ascii_hexdigit())
}

/// The bytes of hexadecimal digits; where they are none, these words are wrong.
pub(crate) fn octets_in(
    alloc: Global,
    usage_error: UsageError,
    digits: &str,
) -> Result<Bytes, Fault>
    ensures { SaysOctets usage_error digits.now result }
{
    let digits = digits.as_bytes();
    if digits.len() % 2 != 0 || !are_digits(digits) {
        return Err(Fault::Usage(usage_error));
    }
    match hex::decode(alloc, digits) {
        Ok(octets) => Ok(Bytes::from(octets)),
        Err(_) => Err(Fault::Memory),
    }
}

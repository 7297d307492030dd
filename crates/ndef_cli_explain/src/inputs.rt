//! The sources of the bytes of inputs.
ghost use Rattle.std.specs.Prelude.{◌≡◌, ℕ, List, Ok, Result, IfErr, IfOk, length};
ghost use Rattle.ndef_message.specs.Inputs.{bytes_of};
ghost use Rattle.ndef_message.specs.declared.input.InputError.{InputError as ReadError};
ghost use Rattle.ndef_cli.specs.declared.outcome.Outcome.TheVariants.{Memory};
ghost use Rattle.ndef_diagnostics.specs.Dumps.{dump_of};
ghost use Rattle.ndef_cli_explain.specs.Inputs.{AreInputOctets, FitsUnread, StandsFor, unread_of};
ghost use Rattle.ndef_cli_explain.specs.declared.inputs.Unread.TheVariants.{Ends};

use ndef_cli::{HexFault, Outcome};
use ndef_diagnostics::{DumpFault, read_dump};
use ndef_message::InputError;
use ndef_value::NoMemory;
use std::alloc::Global;

/// The most bytes of an input.
pub const MOST: usize = 16777216;

/// The reason why there are no bytes of an input.
#[derive(Clone, Copy)]
pub(crate) enum Unread {
    /// Its bytes can't be read, or its hexadecimal digits denote no bytes.
    Ends(Outcome),
    /// The line of this number has no place and colon, in a dump of which the first has.
    NoPlace(u64),
    /// The line of this number is `*`, and no line can be repeated in its place.
    Repeated(u64),
    /// It is a dump of words.
    Words,
}

impl From<NoMemory> for Unread {
    ghost from_gives = { λ _ unread. unread ≡ Ends Memory };

    fn from(_: NoMemory) -> Unread {
        Unread::Ends(Outcome::Memory)
    }
}

/// The reason that the fault of a text is.
fn unread_of(fault: DumpFault) -> Unread
    ensures { result ≡ unread_of fault }
{
    match fault {
        DumpFault::Odd => Unread::Ends(Outcome::Hex(HexFault::Odd)),
        DumpFault::BadDigit(place) => Unread::Ends(Outcome::Hex(HexFault::BadDigit(place))),
        DumpFault::NoPlace(line) => Unread::NoPlace(line),
        DumpFault::Repeated(line) => Unread::Repeated(line),
        DumpFault::TooLong => Unread::Ends(Outcome::TooLong),
        DumpFault::Words => Unread::Words,
    }
}

/// Returns the bytes that a text spells, of which this is the number.
fn spelled(alloc: Global, text: &[u8], count: usize) -> Result<Vec<u8>, NoMemory>
    requires { (octets : List ℕ) × (dump_of text.now ≡ Ok octets) × (length octets ≡ count) }
    ensures { IfOk result (λ octets. dump_of text.now ≡ Ok octets.items) }
{
    let mut octets = vec![in alloc; 0; count]?;
    let _ = read_dump(text, octets.as_mut_slice());
    Ok(octets)
}

/// Returns the bytes that a text spells. Each fault of the text comes before a lack of memory.
#[tactic(auto, using(crate::proofs::Dumps::dump_empty))]
fn decode(alloc: Global, text: &[u8]) -> Result<Vec<u8>, Unread>
    ensures octets { StandsFor text.now (bytes_of result) }
    ensures room { IfErr result FitsUnread }
{
    match read_dump(text, &mut []) {
        Ok(0) => Ok(Vec::new(alloc)),
        Ok(count) => match spelled(alloc, text, count as usize) {
            Ok(octets) => Ok(octets),
            Err(_) => Err(Unread::Ends(Outcome::Memory)),
        },
        Err(fault) => Err(unread_of(fault)),
    }
}

/// Returns the bytes that were read, or with `hex` the bytes that they spell as a text.
pub(crate) fn octets_of(
    alloc: Global,
    hex: bool,
    read: Result<Vec<u8>, InputError>,
) -> Result<Vec<u8>, Unread>
    ensures octets { AreInputOctets hex (bytes_of read) (bytes_of result) }
    ensures room { IfErr result FitsUnread }
{
    match read {
        Ok(bytes) => {
            if hex {
                decode(alloc, bytes.as_slice())
            } else {
                Ok(bytes)
            }
        }
        Err(error) => Err(Unread::Ends(Outcome::from(error))),
    }
}

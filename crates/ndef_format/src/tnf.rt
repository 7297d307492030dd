//! The type name format of a record.
ghost use Rattle.std.specs.Prelude.{◌≡◌, ◌≤◌, Some};
ghost use Rattle.ndef_format.specs.Shown.{IsTnfOf, tnf_name, tnf_text};
ghost use Rattle.ndef_format.specs.Records.{code};

use std::fmt;
use thiserror::Error;

/// The type name format: the way in which the type of a record is to be read (NDEF 1.0, TNF).
#[derive(Clone, Copy, Debug, PartialEq, Eq, Hash)]
pub enum Tnf {
    /// A record with no type, id or payload.
    Empty,
    /// A well-known type, which the NFC Forum defines (RTD 1.0).
    WellKnown,
    /// A media type (RFC 2046).
    Media,
    /// An absolute URI (RFC 3986) names the type.
    AbsoluteUri,
    /// An external type: of somebody else's, named as the NFC Forum prescribes (RTD 1.0).
    External,
    /// A payload of unknown type.
    Unknown,
    /// A middle or terminating piece of a chunked record: the type is that of its initial piece. No
    /// `Record` has it.
    Unchanged,
}

impl Tnf {
    /// The number on the wire (NDEF 1.0, TNF), 0 to 6.
    pub fn code(self) -> u8
        ensures value { result ≡ code self }
        ensures bound { result ≤ 6 }
    {
        match self {
            Tnf::Empty => 0,
            Tnf::WellKnown => 1,
            Tnf::Media => 2,
            Tnf::AbsoluteUri => 3,
            Tnf::External => 4,
            Tnf::Unknown => 5,
            Tnf::Unchanged => 6,
        }
    }

    /// The name, as it is printed.
    fn name(self) -> &'static str
        ensures { result.now ≡ tnf_name self }
    {
        match self {
            Tnf::Empty => "Empty",
            Tnf::WellKnown => "WellKnown",
            Tnf::Media => "Media",
            Tnf::AbsoluteUri => "AbsoluteUri",
            Tnf::External => "External",
            Tnf::Unknown => "Unknown",
            Tnf::Unchanged => "Unchanged",
        }
    }
}

/// The number on the wire and the name, as `1 WellKnown`.
impl fmt::Display for Tnf {
    ghost output = { λ tnf. Some (tnf_text tnf) };

    fn fmt<W: fmt::Write>(&self, f: &mut fmt::Formatter<W>) -> fmt::Result {
        let number = self.code();
        let name = self.name();
        write!(f, "{number} {name}")
    }
}

/// The number of no type name format: 7 is reserved, and the field has three bits.
#[derive(Clone, Copy, Debug, Drop, PartialEq, Eq, Hash, Error)]
#[error("no type name format has the number {0}")]
pub struct TnfError(pub u8);

/// The type name format of a number on the wire, 0 to 6; else `TnfError` with the number.
impl TryFrom<u8> for Tnf {
    type Error = TnfError;

    ghost try_from_gives = { IsTnfOf };

    fn try_from(number: u8) -> Result<Tnf, TnfError> {
        match number {
            0 => Ok(Tnf::Empty),
            1 => Ok(Tnf::WellKnown),
            2 => Ok(Tnf::Media),
            3 => Ok(Tnf::AbsoluteUri),
            4 => Ok(Tnf::External),
            5 => Ok(Tnf::Unknown),
            6 => Ok(Tnf::Unchanged),
            _ => Err(TnfError(number)),
        }
    }
}

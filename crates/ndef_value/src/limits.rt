//! The greatest size of a message, and the profile of its reader.
ghost use Rattle.std.specs.Prelude.{◌≡◌, IfOk, IsOk, ◌↔◌};
ghost use Rattle.ndef_format.specs.Limits.{LimitValues, AreInRange, strict_limits, usual_limits};

use crate::Profile;
use std::marker::Model;
use thiserror::Error;

/// The most bytes of a payload, its pieces joined (NDEF 1.0, PAYLOAD_LENGTH).
pub const MOST_PAYLOAD: u32 = 4294967295;

/// The most records of a message, a nested one too.
pub const MOST_RECORDS: u32 = 65535;

/// The most pieces of a record.
pub const MOST_PIECES: u32 = 65535;

/// The limits of a message that is read: the bytes of a payload, its pieces joined, 1 to 4294967295; the records of
/// a message, a nested one too, 1 to 65535; the pieces of a record, 1 to 65535; and how reserved values are read. NDEF
/// 1.0 sets no limit but that of its 32-bit lengths.
#[derive(Clone, Copy, Debug, PartialEq, Eq, Hash)]
pub struct Limits {
    payload: u32,
    records: u32,
    pieces: u32,
    profile: Profile,
}

impl Model for Limits {
    ghost use Rattle.ndef_format.specs.Limits.{LimitValues, AreInRange};

    ghost Value = { LimitValues };

    ghost view = { λ l. record {
      payload = l.payload;
      records = l.records;
      pieces = l.pieces;
      profile = l.profile;
    } };

    ghost invariant = { λ l. AreInRange (record {
      payload = l.payload;
      records = l.records;
      pieces = l.pieces;
      profile = l.profile;
    }) };

    ghost inverse = { λ v. record {
      payload = v.payload;
      records = v.records;
      pieces = v.pieces;
      profile = v.profile;
    } };
}

/// A limit is out of its range. Nothing was made.
#[derive(Clone, Copy, Debug, Drop, PartialEq, Eq, Hash, Error)]
#[error("a limit out of its range")]
pub struct OutOfRange;

impl Limits {
    /// Strict limits: 1 to 4294967295 bytes of a payload, 1 to 65535 records of a message and 1 to
    /// 65535 pieces of a record; else `OutOfRange`.
    pub fn new(payload: u32, records: u32, pieces: u32) -> Result<Limits, OutOfRange>
        ensures ok { IfOk result (λ limits. limits ≡ strict_limits payload records pieces) }
        ensures accepts { IsOk result ↔ AreInRange (strict_limits payload records pieces) }
    {
        let records_fit = 1 <= records && records <= MOST_RECORDS;
        let pieces_fit = 1 <= pieces && pieces <= MOST_PIECES;
        if payload == 0 || !records_fit || !pieces_fit {
            return Err(OutOfRange);
        }
        Ok(Limits {
            payload,
            records,
            pieces,
            profile: Profile::Strict,
        })
    }

    /// Strict limits for usual tags: 1048576 bytes, 1024 records and 4096 pieces.
    pub fn usual() -> Limits
        ensures { result ≡ usual_limits }
    {
        Limits {
            payload: 1048576,
            records: 1024,
            pieces: 4096,
            profile: Profile::Strict,
        }
    }

    /// The same limits under another profile.
    pub fn with(self, profile: Profile) -> Limits
        ensures { result ≡ record self { profile = profile } }
    {
        Limits { profile, ..self }
    }

    /// The greatest number of bytes of a payload, its pieces joined, 1 to 4294967295.
    pub fn payload(&self) -> u32
        ensures value { result ≡ self.now.payload }
        ensures range { AreInRange self.now }
    {
        self.payload
    }

    /// The greatest number of records of a message, a nested one too, 1 to 65535.
    pub fn records(&self) -> u32
        ensures value { result ≡ self.now.records }
        ensures range { AreInRange self.now }
    {
        self.records
    }

    /// The greatest number of pieces of a record, 1 to 65535.
    pub fn pieces(&self) -> u32
        ensures value { result ≡ self.now.pieces }
        ensures range { AreInRange self.now }
    {
        self.pieces
    }

    /// The way in which reserved values are read.
    pub fn profile(&self) -> Profile
        ensures value { result ≡ self.now.profile }
        ensures range { AreInRange self.now }
    {
        self.profile
    }
}

/// The usual limits.
impl Default for Limits {
    ghost is_default = { λ limits. limits ≡ usual_limits };

    fn default() -> Limits {
        Limits::usual()
    }
}

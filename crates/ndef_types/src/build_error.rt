//! The reason why a message within a payload isn't made.
ghost use Rattle.std.specs.Prelude.{◌≡◌};
ghost use Rattle.ndef_types.specs.Building.{encode_fault, name_fault, text_fault};
ghost use Rattle.ndef_types.specs.declared.build_error.BuildError.TheVariants as errors;

use crate::{EncodeError, TextError};
use ndef_value::{NameError, NoMemory};
use std::alloc::{AllocError, AllocFailed};
use thiserror::Error;

/// The reason why a message within a payload isn't made.
#[derive(Clone, Copy, Debug, Drop, PartialEq, Eq, Hash, Error)]
pub enum BuildError {
    /// A carrier reference has more than 255 bytes, a language code more than 63, or a payload more than 4294967295.
    #[error("a part that is too long")]
    TooLong,
    /// A language code isn't ASCII (RTD Text 1.0).
    #[error("a language code that is not ASCII")]
    NotAscii,
    /// There are no records, where a smart poster or a request needs one, or more than 65535.
    #[error("no records, or more than 65535")]
    RecordCount,
    /// The record at this place, counted from 0, is the first that is wrong: its payload isn't one of its kind, or it
    /// is a second URI of a smart poster. Of a request it is 0 also where the first record isn't a collision
    /// resolution; of a smart poster it is the number of records where only the URI is missing.
    #[error("record {0} is wrong")]
    Wrong(usize),
    /// An allocation failed.
    #[error("no memory")]
    NoMemory,
}

impl From<NameError> for BuildError {
    ghost from_gives = { λ fault error. error ≡ name_fault fault };

    fn from(fault: NameError) -> BuildError {
        match fault {
            NameError::TooLong => BuildError::TooLong,
            NameError::NoMemory => BuildError::NoMemory,
        }
    }
}

impl From<EncodeError> for BuildError {
    ghost from_gives = { λ fault error. error ≡ encode_fault fault };

    fn from(fault: EncodeError) -> BuildError {
        match fault {
            EncodeError::TooLong => BuildError::TooLong,
            EncodeError::NoMemory => BuildError::NoMemory,
        }
    }
}

impl From<TextError> for BuildError {
    ghost from_gives = { λ fault error. error ≡ text_fault fault };

    fn from(fault: TextError) -> BuildError {
        match fault {
            TextError::TooLong => BuildError::TooLong,
            TextError::NotAscii => BuildError::NotAscii,
            TextError::NoMemory => BuildError::NoMemory,
        }
    }
}

impl From<NoMemory> for BuildError {
    ghost from_gives = { λ _ error. error ≡ errors.NoMemory };

    fn from(_: NoMemory) -> BuildError {
        BuildError::NoMemory
    }
}

impl From<AllocError> for BuildError {
    ghost from_gives = { λ _ error. error ≡ errors.NoMemory };

    fn from(_: AllocError) -> BuildError {
        BuildError::NoMemory
    }
}

/// Drops the value that wasn't stored.
impl<T: Drop> From<AllocFailed<T>> for BuildError {
    ghost from_gives = { λ _ error. error ≡ errors.NoMemory };

    fn from(_: AllocFailed<T>) -> BuildError {
        BuildError::NoMemory
    }
}

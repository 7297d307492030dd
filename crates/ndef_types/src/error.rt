//! The reason why a payload isn't decoded, or a value isn't encoded.
ghost use Rattle.std.specs.Prelude.{◌≡◌};
ghost use Rattle.ndef_types.specs.declared.error.DecodeError.TheVariants as decode_errors;
ghost use Rattle.ndef_types.specs.declared.error.EncodeError.TheVariants as encode_errors;

use ndef_value::{NoMemory, Refusal};
use thiserror::Error;

/// The reason why no value was decoded, in the order in which the reasons are tried.
#[derive(Clone, Copy, Debug, Drop, PartialEq, Eq, Hash, Error)]
pub enum DecodeError {
    /// The payload isn't in the set of its type, or has more than 4294967295 bytes. The place is in the
    /// payload: the first byte after which nothing of its length is in the set, or 0 with `DoesNotFit`
    /// where nothing of its length is.
    #[error(transparent)]
    Refused(Refusal),
    /// An allocation failed.
    #[error("no memory")]
    NoMemory,
}

impl From<Refusal> for DecodeError {
    ghost from_gives = { λ refusal error. error ≡ decode_errors.Refused refusal };

    fn from(refusal: Refusal) -> DecodeError {
        DecodeError::Refused(refusal)
    }
}

impl From<NoMemory> for DecodeError {
    ghost from_gives = { λ _ error. error ≡ decode_errors.NoMemory };

    fn from(_: NoMemory) -> DecodeError {
        DecodeError::NoMemory
    }
}

/// The reason why no payload was made, in the order in which the reasons are tried.
#[derive(Clone, Copy, Debug, Drop, PartialEq, Eq, Hash, Error)]
pub enum EncodeError {
    /// It would have more than 4294967295 bytes, the most that PAYLOAD_LENGTH can hold (NDEF 1.0).
    #[error("a payload of more than 4294967295 bytes")]
    TooLong,
    /// An allocation failed.
    #[error("no memory")]
    NoMemory,
}

impl From<NoMemory> for EncodeError {
    ghost from_gives = { λ _ error. error ≡ encode_errors.NoMemory };

    fn from(_: NoMemory) -> EncodeError {
        EncodeError::NoMemory
    }
}

//! All that a source gives.
ghost use Rattle.std.specs.Prelude.{◌≡◌};
ghost use Rattle.ndef_message.specs.Inputs.{bytes_of, IsWholeInput};
ghost use Rattle.ndef_message.specs.States.{source_state};
ghost use Rattle.ndef_message.specs.declared.input.InputError.TheVariants as errors;

use crate::{Source, SourceFault};
use std::alloc::{AllocError, Global};
use thiserror::Error;

/// The reason why a source wasn't read to its end.
#[derive(Clone, Copy, Debug, Drop, PartialEq, Eq, Hash, Error)]
pub enum InputError {
    /// The source failed, and fails from then on.
    #[error("reading failed")]
    ReadFault,
    /// More bytes come than were requested; as many as were requested were taken.
    #[error("the input is too long")]
    TooLong,
    /// An allocation failed for a byte that comes next. Fewer bytes than were requested were taken.
    #[error("no memory")]
    NoMemory,
}

impl From<SourceFault> for InputError {
    ghost from_gives = { λ _ error. error ≡ errors.ReadFault };

    fn from(_: SourceFault) -> InputError {
        InputError::ReadFault
    }
}

impl From<AllocError> for InputError {
    ghost from_gives = { λ _ error. error ≡ errors.NoMemory };

    fn from(_: AllocError) -> InputError {
        InputError::NoMemory
    }
}

/// Reads a source to its end, where it has at most `most` bytes.
pub fn read_all<S: Source>(
    alloc: Global,
    source: &mut S,
    most: usize,
) -> Result<Vec<u8>, InputError>
    ensures { IsWholeInput most (source_state S.Source source.old) (source_state S.Source source.new)
        (S.has_failed source.new) (bytes_of result) }
{
    let mut input = Vec::new(alloc);
    loop {
        let bytes = source.fill()?;
        if bytes.is_empty() {
            return Ok(input);
        }
        let count = bytes.len().min(most - input.len());
        if count == 0 {
            return Err(InputError::TooLong);
        }
        input.extend_from_slice(&bytes[..count])?;
        source.take(count);
    }
}

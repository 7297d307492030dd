//! The outcomes of a run of the command.
ghost use Rattle.std.specs.Prelude.{◌≡◌};
ghost use Rattle.ndef_cli.specs.Outcomes.{input_outcome};
ghost use Rattle.ndef_cli.specs.declared.outcome.Outcome.TheVariants.{Memory, Reading};

use ndef_message::{InputError, SourceFault};
use ndef_value::{NoMemory, Refusal};

/// A fault of hexadecimal digits.
#[derive(Clone, Copy, Debug, PartialEq, Eq)]
pub enum HexFault {
    /// Their number is odd.
    Odd,
    /// At this place, counted without white space, there is no digit.
    BadDigit(u64),
}

/// The reason why no further message is handled.
#[derive(Clone, Copy, Debug, PartialEq, Eq)]
pub enum Outcome {
    /// The input is at its end.
    Clean,
    /// The next bytes are no message; the place counts from the first of them.
    Refused(Refusal),
    /// The input isn't hexadecimal text.
    Hex(HexFault),
    /// The source failed.
    Reading,
    /// The sink failed.
    Writing,
    /// An allocation failed.
    Memory,
    /// Input is left after as many messages as a run handles.
    TooMany,
    /// The hexadecimal text is longer than what a run reads.
    TooLong,
}

impl From<NoMemory> for Outcome {
    ghost from_gives = { λ _ outcome. outcome ≡ Memory };

    fn from(_fault: NoMemory) -> Outcome {
        Outcome::Memory
    }
}

impl From<SourceFault> for Outcome {
    ghost from_gives = { λ _ outcome. outcome ≡ Reading };

    fn from(_fault: SourceFault) -> Outcome {
        Outcome::Reading
    }
}

impl From<InputError> for Outcome {
    ghost from_gives = { λ error outcome. outcome ≡ input_outcome error };

    fn from(error: InputError) -> Outcome {
        match error {
            InputError::ReadFault => Outcome::Reading,
            InputError::TooLong => Outcome::TooLong,
            InputError::NoMemory => Outcome::Memory,
        }
    }
}

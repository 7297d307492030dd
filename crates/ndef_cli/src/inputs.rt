//! Inputs by their names.
ghost use Rattle.std.specs.Prelude.{ℕ, List, Result};
ghost use Rattle.ndef_message.specs.Inputs.{bytes_of};
ghost use Rattle.ndef_message.specs.declared.input.InputError.{InputError as ReadError};

use ndef_message::InputError;
use std::alloc::Global;

/// Gives inputs by their names.
pub trait Inputs {
    /// The results that an input of a name may give, and the inputs that are left after it.
    ghost gives: { Self → List ℕ → Result (List ℕ) ReadError → Self → Type 0 };

    /// The bytes of the input of this name. Standard input has the name `-`.
    fn read(&mut self, alloc: Global, name: &str) -> Result<Vec<u8>, InputError>
        ensures { gives self.old name.now (bytes_of result) self.new };
}

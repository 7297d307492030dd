//! Properties of the message that is made.
ghost use Rattle.ndef_cli_make.specs.Reading.{MadeIsRead};

use ndef_cli::Inputs;
use ndef_lang::RecordLanguage;
use ndef_message::{reading_gives_back, short_is_canonical};
use ndef_nest::{Typed, strict_contents_are_read, typed_payloads};

/// The written message is read back: `read_message` with `Typed` gives the records of the message in the file, if one
/// is named, but for those that the words change, and then those that they add, whatever follows them, if its limits
/// admit them and no part requests an unchecked record.
pub fn made_is_read<I: Inputs>()
    ensures { MadeIsRead I.gives ⟦<Typed as RecordLanguage>⟧.payloads ⟦<Typed as RecordLanguage>⟧.reasons }
{
    typed_payloads();
    strict_contents_are_read();
    short_is_canonical();
    reading_gives_back::<Typed>();
}

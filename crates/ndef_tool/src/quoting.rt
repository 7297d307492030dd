//! Bytes between quotation marks, after a word.
ghost use Rattle.std.specs.Prelude.{◌≡◌, ◌++◌, OnOk};
ghost use Rattle.ndef_cli.specs.Quoting.{quoted};

use ndef_cli::push_quoted;
use ndef_value::{Bytes, NoMemory};

/// Appends a word, and the bytes after it between quotation marks.
pub fn push_named(line: &mut Bytes, word: &[u8], bytes: &[u8]) -> Result<(), NoMemory>
    ensures { OnOk result (line.new ≡ line.old ++ (word.now ++ quoted bytes.now)) }
{
    line.extend(word)?;
    push_quoted(line, bytes)
}

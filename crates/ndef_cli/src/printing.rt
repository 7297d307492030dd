//! A text that a program prints.
ghost use Rattle.ndef_message.specs.States.{sink_state};
ghost use Rattle.ndef_cli.specs.Outputs.{Prints};

use crate::Status;
use ndef_message::{Sink, send};

/// Writes a text. The status is the given one, or `Fault` if writing fails; a front of the text is written then.
/// Nothing is written where the sink had failed before, and the status is `Fault` then too, unless there was nothing to
/// write.
pub fn print<K: Sink>(text: &[u8], status: Status, sink: &mut K) -> Status
    ensures { Prints text.now status (sink_state K.Sink sink.old) (sink_state K.Sink sink.new) result }
{
    match send(0, text, sink) {
        Ok(_) => status,
        Err(_) => Status::Fault,
    }
}

//! The command, over any source and sink.
ghost use Rattle.std.specs.Prelude.{◌≡◌, false, true, map, string_bytes};
ghost use Rattle.ndef_cli.specs.Outcomes.{status_of};
ghost use Rattle.ndef_tool.specs.Output.{outcome_line};
ghost use Rattle.ndef_cli.specs.Statuses.{EndsCommand};
ghost use Rattle.ndef_tool.specs.Runs.{IsSilent, RunsNdef};
ghost use Rattle.ndef_tool.specs.Streams.{streams};

use crate::choice::choose;
use crate::printing::outcome_line;
use crate::session::handle;
use ndef_cli::{ArgsError, Outcome, Status};
use ndef_message::{Sink, Source, WriteFault, send};
use std::alloc::Global;

/// The output if the words don't parse.
const USAGE: &[u8] =
    b"usage: ndef show|check|encode [--hex] [--payload N] [--records N] [--pieces N] \
    [--form short|long] [--chunk N] [--profile strict|standard]\n";

/// The status of an ending.
fn status_of(outcome: Outcome) -> Status
    ensures { result ≡ status_of outcome }
{
    match outcome {
        Outcome::Clean => Status::Clean,
        Outcome::Refused(_) | Outcome::Hex(_) => Status::Refused,
        Outcome::Reading
        | Outcome::Writing
        | Outcome::Memory
        | Outcome::TooMany
        | Outcome::TooLong => Status::Fault,
    }
}

/// The status, unless the last line couldn't be written.
fn end(written: Result<u64, WriteFault>, status: Status) -> Status
    ensures { EndsCommand written status result }
{
    match written {
        Ok(_) => status,
        Err(_) => Status::Fault,
    }
}

/// Does what the words request, of which the first is the program's name.
///
/// The messages of the source, or with `--hex` those of the bytes that its text denotes, are
/// handled one after another to their end, at most 10000 of them: all the output for one is made
/// before its first byte is written. After a writing fault the status is `Fault`, and a front of the
/// output is written; nothing of it where the sink had failed before, and the status is `Fault` then too,
/// unless there was nothing to write.
pub fn run<S: Source, K: Sink>(
    alloc: Global,
    words: &[String],
    source: &mut S,
    sink: &mut K,
) -> Status
    ensures runs { K.has_failed sink.old ≡ false
        → RunsNdef (map string_bytes words.now) (streams S.Source K.Sink source.old sink.old)
        (streams S.Source K.Sink source.new sink.new) result }
    ensures silent { K.has_failed sink.old ≡ true
        → IsSilent (map string_bytes words.now) (streams S.Source K.Sink source.old sink.old)
        (streams S.Source K.Sink source.new sink.new) result }
{
    match choose(alloc, words) {
        Err(ArgsError::NoMemory) => Status::Fault,
        Err(ArgsError::Usage) => end(send(0, USAGE, sink), Status::Usage),
        Ok(choice) => {
            let session = handle(alloc, &choice, source, sink);
            let line = outcome_line(choice.action, session.at, session.outcome);
            end(send(0, line.as_slice(), sink), status_of(session.outcome))
        }
    }
}

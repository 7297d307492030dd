//! The status that a process ends with.
ghost use Rattle.std.specs.Prelude.{◌≡◌, is_err};
ghost use Rattle.std.specs.Process.{exit_status};
ghost use Rattle.ndef_cli.specs.Statuses.{number_of_status, status_after, worse};

use std::io;
use std::process::ExitCode;

/// The status that a process ends with.
#[derive(Clone, Copy, Debug, PartialEq, Eq)]
pub enum Status {
    /// All of it was done.
    Clean = 0,
    /// The input is refused, or what the words request can't be written.
    Refused = 1,
    /// The words don't parse.
    Usage = 2,
    /// Reading or writing failed, memory ran out, or the input is more than a run handles.
    Fault = 3,
}

/// The worse of the statuses of two inputs.
pub fn worse(one: Status, other: Status) -> Status
    ensures { result ≡ worse one other }
{
    match (one, other) {
        (Status::Fault, _) | (_, Status::Clean) => one,
        (_, _) => other,
    }
}

/// The status as the process ends with it.
pub fn exit_code(status: Status) -> ExitCode
    ensures { exit_status result ≡ number_of_status status }
{
    ExitCode::from(status as u8)
}

/// The same of a run whose output is flushed at last: `Fault` where that failed.
pub fn exit_code_after(status: Status, flushed: io::Result<()>) -> ExitCode
    ensures { exit_status result ≡ number_of_status (status_after (is_err flushed) status) }
{
    match flushed {
        Ok(()) => exit_code(status),
        Err(_) => exit_code(Status::Fault),
    }
}

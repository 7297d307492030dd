//! The names of the statuses that calls return.
ghost use Rattle.std.specs.Prelude.{◌≡◌, ◌≢◌, ◌<◌, ◌≤◌, ◌↔◌, IfSome, IsSome};
ghost use Rattle.ndef_c.specs.Statuses.{GivesStatusName, status_number, name_of_status};

use crate::buffer::give;
use crate::status::{BAD_ARGUMENT, BUFFER_TOO_SMALL, END, MORE, OK, REFUSED};

/// A status that a call returns.
#[derive(Clone, Copy)]
enum Status {
    Ok,
    Refused,
    BufferTooSmall,
    BadArgument,
    End,
    More,
}

/// The status with a number.
fn status_of(number: u32) -> Option<Status>
    ensures reported { IfSome result (λ s. status_number s ≡ number) }
    ensures some { IsSome result ↔ (number ≤ MORE) }
{
    let status = match number {
        OK => Status::Ok,
        REFUSED => Status::Refused,
        BUFFER_TOO_SMALL => Status::BufferTooSmall,
        BAD_ARGUMENT => Status::BadArgument,
        END => Status::End,
        MORE => Status::More,
        _ => return None,
    };
    Some(status)
}

/// The name of a status.
fn text_of(status: Status) -> &'static str
    ensures value { result.now ≡ name_of_status status }
{
    match status {
        Status::Ok => "Ok",
        Status::Refused => "Refused",
        Status::BufferTooSmall => "BufferTooSmall",
        Status::BadArgument => "BadArgument",
        Status::End => "End",
        Status::More => "More",
    }
}

/// Writes the name of the status with a number, in ASCII and with no NUL after it, to the buffer.
#[unsafe(no_mangle)]
pub extern "C" fn ndef_status_name(status: u32, buffer: &mut [u8], count: &mut usize) -> u32
    ensures bad { result ≡ BAD_ARGUMENT ↔ (MORE < status) }
    ensures kept { result ≡ BAD_ARGUMENT → (buffer.new ≡ buffer.old) × (count.new ≡ count.old) }
    ensures name { result ≢ BAD_ARGUMENT → GivesStatusName status buffer.old buffer.new count.new result }
{
    let Some(status) = status_of(status) else {
        return BAD_ARGUMENT;
    };
    give(text_of(status).as_bytes(), buffer, count)
}

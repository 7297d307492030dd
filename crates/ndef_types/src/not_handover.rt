//! The reason why a message isn't one of a handover.

use ndef_value::Message;
use thiserror::Error;

/// The message isn't one of a handover request or select, and is handed back.
#[derive(Debug, Drop, Error)]
#[error("no handover: record {index}")]
pub struct NotHandover {
    /// The message.
    pub message: Message,
    /// The first record with a payload that isn't one of its kind; of a request 0 also where the first
    /// record isn't a collision resolution.
    pub index: usize,
}

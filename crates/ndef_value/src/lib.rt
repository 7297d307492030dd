//! The values of an NDEF message (NFC Forum, NDEF 1.0): names, records, messages and limits.
//!
//! The files:
//!
//! - `record.rt`, `message.rt`, `name.rt`, `bytes.rt`: records, messages, names and byte strings.
//! - `limits.rt`: the greatest size of a message. `no_memory.rt`: the error if memory is used up.
//! - `laws.rt`: properties of the bytes of messages. The crate ndef_format defines these.
#![tactic(auto)]

mod bytes;
mod laws;
mod limits;
mod message;
mod name;
mod no_memory;
mod record;

pub use bytes::Bytes;
pub use laws::{
    canonical_is_a_spelling, canonical_is_shortest, messages_are_bounded, one_meaning,
    ranks_are_apart,
};
pub use limits::{Limits, MOST_PAYLOAD, MOST_PIECES, MOST_RECORDS, OutOfRange};
pub use message::{Message, MessageError};
pub use name::{Name, NameError};
pub use ndef_format::{Profile, Reason, Refusal, Tnf, TnfError};
pub use no_memory::NoMemory;
pub use record::{Record, RecordError};

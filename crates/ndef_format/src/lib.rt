//! The format of NDEF messages (NFC Forum, NDEF 1.0): the types that describe bytes, and in `specs/` the definitions of
//! messages, payloads and refusals.
//!
//! The files:
//!
//! - `specs/Lib.antt`: the definitions, in the order in which they can be read.
//! - `tnf.rt`, `kind.rt`, `table.rt`: type name formats, kinds of payloads, nested messages.
//! - `header.rt`: the bits of the header octet of a piece.
//! - `profile.rt`: the two ways to read reserved values. `spot.rt`: the position of a piece.
//! - `reason.rt`, `refusal.rt`: the reason and the place of a refusal. `sentence.rt`, `specs/Sentences.antt`: the
//!   meaning of each reason.
#![tactic(auto)]

pub mod header;
mod kind;
mod profile;
mod reason;
mod refusal;
mod sentence;
mod spot;
mod table;
mod tnf;

pub use kind::Kind;
pub use profile::Profile;
pub use reason::Reason;
pub use refusal::Refusal;
pub use spot::Spot;
pub use table::Table;
pub use tnf::{Tnf, TnfError};

//! The program `ndef-make`: the words describe the records of a message, and the message is
//! written.
//!
//! The files:
//!
//! - `running.rt`, `specs/Runs.antt`: one run. `making.rt`, `specs/Making.antt`: the message.
//! - `editing.rt`, `specs/Editing.antt`: the records of a message that parts leave out, replace or add. `edited.rt`,
//!   `specs/Edited.antt`: the message that is edited. `specs/Outcomes.antt`: both ways to make a message.
//! - `pages.rt`, `specs/Pages.antt`: the texts of `--help` and `--version`; `kind_pages.rt`, `specs/KindPages.antt`:
//!   the text of `--help` about a kind of record.
//! - `parts.rt`, `command.rt`, `options.rt`, `specs/Asked.antt`: the words, by clap.
//! - `records.rt`, `poster.rt`, `carrier.rt`, `handover.rt`, `specs/Records.antt`, `specs/Posters.antt`,
//!   `specs/Carriers.antt`, `specs/Handovers.antt`: the record of a part; `contents.rt`, `specs/Contents.antt`: the
//!   records within a poster or a handover.
//! - `carrier_word.rt`, `specs/CarrierWords.antt`: the word of a carrier of a handover.
//! - `references.rt`, `specs/References.antt`: that each reference of a handover has a record.
//! - `not_writable.rt`, `specs/MayBeWritten.antt`: the records that the standards forbid to write.
//! - `specs/Checking.antt`: the payloads that are written. `laws.rt`, `specs/Reading.antt`: the message, read back.
//! - `inputs.rt`, `specs/Inputs.antt`: the payload of a part, from digits or an input. `octets.rt`,
//!   `specs/Octets.antt`: the octets that digits denote.
//! - `size_check.rt`, `specs/SizeChecks.antt`: the output for a message, and whether it fits in a tag.
//! - `usage_error.rt`, `specs/UsageErrors.antt`: the usage errors of words.
//! - `fault.rt`, `specs/Faults.antt`: the reasons why there is no message, the line for each, and the status.
//! - `system.rt`: a run over the files and the standard streams of the system.
#![tactic(auto)]

mod carrier;
mod carrier_word;
mod command;
mod contents;
mod edited;
mod editing;
mod fault;
mod handover;
mod inputs;
mod kind_pages;
mod laws;
mod making;
mod not_writable;
mod octets;
mod options;
mod pages;
mod parts;
mod poster;
mod records;
mod references;
mod running;
mod size_check;
mod system;
mod usage_error;

pub use fault::{Fault, Refused};
pub use inputs::{MOST, read_input};
pub use laws::made_is_read;
pub use making::{OutputFormat, Written, make};
pub use parts::args_fault;
pub use running::run;
pub use system::run_on;
pub use usage_error::UsageError;

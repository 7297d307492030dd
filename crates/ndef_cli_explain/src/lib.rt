//! The program `ndef-explain`: it prints the field of each byte of an input, and the meaning of the field.
//!
//! The files:
//!
//! - `running.rt`, `specs/Running.antt`: one run. `system.rt`: a run over the files and the standard streams of the
//!   system.
//! - `command.rt`, `choice.rt`: the words, by clap. `pages.rt`: the pages about the program itself.
//! - `inputs.rt`: the bytes of an input, also those that a dump spells. `faults.rt`: inputs without
//!   bytes.
//! - `raw.rt`: bytes that are written as they are. `numbered.rt`: a record by its number.
//! - `sending.rt`, `specs/Reporting.antt`: the output for an input, written message by message. `reporting.rt`: how it
//!   is explained. `explaining.rt`, `explained.rt`: where its messages stop, and what is past that.
//! - `output.rt`, `style.rt`, `coloring.rt`: lines or JSON, plain or in colour. `cells.rt`: octets in digits.
//!   `json_strings.rt`: strings in JSON.
//! - `messages.rt`, `payloads.rt`, `fields.rt`: the lines and objects of messages, joined payloads and fields.
//!   `meaning.rt`, `wording.rt`, `codes.rt`: what the octets of a field mean, in words.
//! - `record_objects.rt`, `references.rt`: the values of payloads in JSON, and the records that handovers name.
//! - `remark_lists.rt`: the remarks on records. `advice.rt`: hints and warnings. `shell.rt`: the commands
//!   of hints.
//! - `refusals.rt`, `said_refusal.rt`, `refused_record.rt`: a refusal, its description, and the record in which it is.
//! - `recovery.rt`, `recovery_place.rt`: the input past a record that is refused.
//!
//! The crates json and serde_json are used by contracts and definitions only: they state the objects and the strings
//! that `output.rt` and `json_strings.rt` print.
#![tactic(auto)]

mod advice;
mod cells;
mod choice;
mod codes;
mod coloring;
mod command;
mod explained;
mod explaining;
mod faults;
mod fields;
mod inputs;
mod json_strings;
mod meaning;
mod messages;
mod numbered;
mod output;
mod pages;
mod payloads;
mod raw;
mod record_objects;
mod recovery;
mod recovery_place;
mod references;
mod refusals;
mod refused_record;
mod remark_lists;
mod reporting;
mod running;
mod said_refusal;
mod sending;
mod shell;
mod style;
mod system;
mod wording;

pub use choice::args_fault;
pub use inputs::MOST;
pub use running::run;
pub use system::run_on;

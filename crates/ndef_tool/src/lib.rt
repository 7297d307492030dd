//! The command `ndef`: the words choose the action, messages come from a source, and the output
//! goes to a sink.
//!
//! The files:
//!
//! - `running.rt`, `specs/Runs.antt`: one run. `session.rt`: the messages of the input. `reading.rt`:
//!   the next one.
//! - `choice.rt`, `command.rt`: the words, by clap. `hexadecimal.rt`: hexadecimal input.
//! - `block.rt`, `printing.rt`, `specs/Output.antt`: the output.
//! - `showing.rt`: the lines of records. `value_lines.rt`, `poster_lines.rt`, `handover_lines.rt`: of
//!   their payloads.
//! - `nested.rt`: the records of the messages in payloads.
//! - `linking.rt`: the lines of links. `quoting.rt`: parts of lines.
//! - `kinds.rt`: the kind of a record. `laws.rt`: that the output is one text.
//! - `system.rt`: a run over the files and the standard streams of the system. `operands.rt`: the files that the words
//!   name. `pages.rt`: the pages about the program itself.
#![tactic(auto)]

mod block;
mod choice;
mod command;
mod handover_lines;
mod hexadecimal;
mod kinds;
mod laws;
mod linking;
mod nested;
mod operands;
mod pages;
mod poster_lines;
mod printing;
mod quoting;
mod reading;
mod running;
mod session;
mod showing;
mod system;
mod value_lines;

pub use choice::{Action, Choice, args_fault, choose};
pub use hexadecimal::read_hexadecimal;
pub use running::run;
pub use session::{Session, handle};
pub use system::run_on;

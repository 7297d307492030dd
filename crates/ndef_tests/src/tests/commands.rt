//! The output of the commands `ndef` and `ndef-make`, their statuses, and memory, readers and writers
//! that fail on the way.
mod cases;
mod command;
mod faults;
mod made_memory;
mod making;
mod run_memory;
mod runs;
mod shown_memory;

//! Tests of properties that no contract states, and parts shared with ndef_conformance: case lines, samples, slow and
//! failing streams, and memory that is used up. It serves tests alone, so that its functions have no contracts.
//!
//! The files:
//!
//! - `tests.rt`: the tests. `case.rt`, `lines.rt`, `records.rt`: cases as lines of text. `samples.rt`: messages.
//! - `comparing.rt`, `memory.rt`, `streams.rt`: values compared, memory used up, slow and failing streams.
#![tactic(auto)]

pub mod case;
pub mod comparing;
pub mod lines;
pub mod memory;
pub mod records;
pub mod samples;
pub mod streams;
#[cfg(test)]
mod tests;

//! Worked rows, printed text, and memory, readers and writers that fail.
mod commands;
mod messages;
mod values;

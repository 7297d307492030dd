//! Messages as values, their heads, payloads, checkers, decoders, readers, encoders, sources and sinks.
mod checking;
mod encoding;
mod faults;
mod growing;
mod growths;
mod heads;
mod lengths;
mod memory;
mod nested_payloads;
mod payloads;
mod plain_values;
mod reading;
mod sources;

//! Runs of the command, a module for each subcommand.
mod checks;
mod encodes;
mod shows;

//! The parts that the programs share.
//!
//! - `line.rt`: a short text, made with no memory. `hexadecimal.rt`: lines of hexadecimal digits.
//! - `command.rt`, `specs/CommandLine.antt`: steps of a command line, by clap.
//! - `cutting.rt`, `specs/CutLaws.antt`: a text, cut at a byte.
//! - `options.rt`, `specs/Options.antt`, `specs/OptionLaws.antt`: the values of its options.
//! - `pages.rt`, `specs/Pages.antt`: the page about the program that its words request.
//! - `args.rt`, `specs/Args.antt`: the words of a command line, as bytes and as texts.
//! - `quoting.rt`, `specs/Quoting.antt`: bytes between quotation marks.
//! - `status.rt`, `specs/Statuses.antt`: the status with which a process ends.
//! - `reading_options.rt`, `limits.rt`, `specs/LimitOptions.antt`: the options of a command that reads messages.
//! - `args_error.rt`: the reasons why words don't parse.
//! - `outcome.rt`, `outcome_lines.rt`, `specs/Outcomes.antt`: the outcomes of a run, and the line of an outcome.
//! - `inputs.rt`, `specs/Inputs.antt`: inputs by their names. `files.rt`: the files of the system. `causes.rt`,
//!   `specs/Causes.antt`: the reasons why a file can't be read.
//! - `decimals.rt`: numbers in lines. `printing.rt`, `specs/Outputs.antt`: the bytes that are written to a sink.
#![tactic(auto)]

mod args;
mod args_error;
mod causes;
mod command;
mod cutting;
mod decimals;
mod files;
mod hexadecimal;
mod inputs;
mod limits;
mod line;
mod options;
mod outcome;
mod outcome_lines;
mod pages;
mod printing;
mod quoting;
mod reading_options;
mod status;

pub use args::{ArgsFault, non_utf8_arg, read_args, tell_words, texts, word_line};
pub use args_error::ArgsError;
pub use causes::{Reader, cause_line, open_file, tell_cause};
pub use command::{add_arg, add_subcommand, flag, hex_command, word_option};
pub use cutting::cut_at;
pub use decimals::{push_counted, push_number};
pub use files::Files;
pub use hexadecimal::hexadecimal_line;
pub use inputs::Inputs;
pub use limits::{limits_given, number_given};
pub use line::{ArrayLine, Line, ROOM};
pub use options::{flag_given, hex_given, option_text};
pub use outcome::{HexFault, Outcome};
pub use outcome_lines::{outcome_text, push_refusal, text_line};
pub use pages::{Page, page_asked};
pub use printing::print;
pub use quoting::{digits_of, push_quoted, push_quoted_bytes};
pub use reading_options::{reading_command, wide_option};
pub use status::{Status, exit_code, exit_code_after, worse};

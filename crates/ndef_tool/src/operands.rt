//! The words of a command line: its options, and the files that it names.
use std::alloc::{AllocError, Global};

/// The words of a command line.
#[derive(Drop)]
pub(crate) struct Operands {
    /// The program's name, the subcommand and the options, as they come.
    pub(crate) options: Vec<String>,
    /// The names of files.
    pub(crate) files: Vec<String>,
}

/// Whether a word is an option whose value is the next word. All options but `--hex` have one.
fn has_value(word: &str) -> bool {
    word.starts_with("--") && word != "--hex" && !word.contains('=')
}

/// Whether a word isn't an option.
fn is_operand(word: &str) -> bool {
    word == "-" || !word.starts_with('-')
}

/// The options and the files of these words, of which the first two are the program's name and the subcommand. After
/// the subcommand files and options come in any order, and after `--` files alone.
pub(crate) fn split_words(alloc: Global, words: Vec<String>) -> Result<Operands, AllocError> {
    let mut options = Vec::new(alloc);
    let mut files = Vec::new(alloc);
    let mut is_value = false;
    let mut are_files = false;
    for word in words {
        if are_files || (options.len() >= 2 && !is_value && is_operand(word.as_str())) {
            files.push(word)?;
        } else if word.as_str() == "--" && !is_value {
            are_files = true;
        } else {
            is_value = !is_value && has_value(word.as_str());
            options.push(word)?;
        }
    }
    Ok(Operands { options, files })
}

//! The reason why words don't parse.

use thiserror::Error;

/// The reason why the words don't parse.
#[derive(Clone, Copy, Debug, Drop, PartialEq, Eq, Error)]
pub enum ArgsError {
    /// They don't parse.
    #[error("the words don't parse")]
    Usage,
    /// An allocation failed while they were read.
    #[error("no memory")]
    NoMemory,
}

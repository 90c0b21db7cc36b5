//! Why words ask nothing.

use std::alloc::{AllocError, AllocFailed};
use thiserror::Error;

/// Why the words ask nothing.
#[derive(Clone, Copy, Debug, PartialEq, Eq, Error)]
pub enum WordsFault {
    #[error("these words are no command; tee_store --help lists the commands")]
    NoCommand,
    #[error("there is no such option; tee_store --help lists the options")]
    NoOption,
    #[error("an option lacks the word behind it")]
    NoValue,
    #[error("--app takes a UUID")]
    NoUuid,
    #[error("an identifier has 1 to 64 bytes")]
    NoIdentifier,
    #[error("a word is no UTF-8 text")]
    NoText,
    #[error("memory ran out")]
    NoMemory,
}

impl From<AllocError> for WordsFault {
    fn from(_: AllocError) -> WordsFault {
        WordsFault::NoMemory
    }
}

impl<T: Drop> From<AllocFailed<T>> for WordsFault {
    fn from(_: AllocFailed<T>) -> WordsFault {
        WordsFault::NoMemory
    }
}

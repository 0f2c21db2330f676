//! Faults of word tables.
use thiserror::Error;

/// Why a table of words can't be made.
#[derive(Clone, Copy, Debug, Drop, PartialEq, Eq, Error)]
pub enum WordsFault {
    /// There are no words.
    #[error("W1 NoWords")]
    NoWords,
    /// There are more than [`MAX_WORDS`](crate::MAX_WORDS) words.
    #[error("W2 TooMany")]
    TooMany,
    /// The part at this place, from 0, is not a word.
    #[error("W3 BadWord {0}")]
    BadWord(usize),
    /// Out of memory.
    #[error("W0 OutOfMemory")]
    OutOfMemory,
}

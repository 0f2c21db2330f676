//! Why running stages give no outcome.
use thiserror::Error;

/// Why running stages gave no outcome.
#[derive(Clone, Copy, Debug, PartialEq, Eq, Error)]
pub enum StageFault {
    /// Memory was refused for a ring, or for a slice of the outcome.
    #[error("F0 OutOfMemory")]
    OutOfMemory,
    /// A thread was refused.
    #[error("F1 SpawnRefused")]
    SpawnRefused,
}

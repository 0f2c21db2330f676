//! Faults of moves.
use thiserror::Error;

/// Why a move was not made.
#[derive(Clone, Copy, Debug, PartialEq, Eq, Error)]
pub enum StepFault {
    /// The network can't make it now.
    #[error("N1 NotPossible")]
    NotPossible,
    /// Out of memory for the slice of a chunk.
    #[error("N0 OutOfMemory")]
    OutOfMemory,
}

//! Why a wait for an address failed.
use thiserror::Error;
use tox_text::VisibleName;

/// Why a wait ended without a connect that was accepted.
#[derive(Clone, Copy, Debug, PartialEq, Eq, Error)]
pub enum WaitFault<'a> {
    #[error("L0 OutOfMemory")]
    OutOfMemory,
    /// A thread that looks up the name was refused.
    #[error("F1 SpawnRefused")]
    SpawnRefused,
    /// No connect was accepted in time.
    #[error("P8 NotReady {}", VisibleName(.0))]
    NotReady(&'a str),
    /// This is no address.
    #[error("P9 BadAddress {}", VisibleName(.0))]
    BadAddress(&'a str),
}

//! Why nothing is served.
use thiserror::Error;
use tox_text::VisibleName;

/// Why nothing is served. No connection was taken.
#[derive(Clone, Copy, Debug, PartialEq, Eq, Error)]
pub enum ServeFault<'a> {
    /// The address of the proxy of this name couldn't be listened at, by the system's number for why. None: its host wasn't found.
    #[error("P4 ListenRefused {}", VisibleName(.0))]
    ListenRefused(&'a str, Option<i32>),
    /// The address for probes couldn't be listened at.
    #[error("P4 ListenRefused --ready")]
    ReadyRefused(Option<i32>),
    /// A thread was refused.
    #[error("F1 SpawnRefused")]
    SpawnRefused,
    #[error("F0 OutOfMemory")]
    OutOfMemory,
}

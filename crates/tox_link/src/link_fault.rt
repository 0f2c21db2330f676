//! Why a link broke off.
ghost use Rattle.std.specs.Prelude.{◌≡◌};
ghost use Rattle.tox_link.specs.Reports.{written_before};

use thiserror::Error;

/// Why a link broke off, each with how many bytes were written before.
#[derive(Clone, Copy, Debug, PartialEq, Eq, Error)]
pub enum LinkFault {
    /// Memory was refused, also for a note.
    #[error("F0 OutOfMemory {0}")]
    OutOfMemory(u64),
    /// The reader's thread was refused.
    #[error("F1 SpawnRefused {0}")]
    SpawnRefused(u64),
    /// A write failed, or took nothing.
    #[error("K2 WriteFault {0}")]
    WriteFault(u64),
}

impl LinkFault {
    /// How many bytes were written.
    pub fn written(&self) -> u64
        ensures { result ≡ written_before self.now }
    {
        match self {
            LinkFault::OutOfMemory(written)
            | LinkFault::SpawnRefused(written)
            | LinkFault::WriteFault(written) => *written,
        }
    }
}

//! Why a populate file is refused.
ghost use Rattle.std.specs.Prelude.{◌≡◌};
ghost use Rattle.tox_config.specs.declared.fault.ConfigFault.TheVariants.{OutOfMemory};

use std::alloc::{AllocError, AllocFailed};
use thiserror::Error;

/// Why a populate file is refused. A place counts the members of the array from 0.
#[derive(Clone, Copy, Debug, PartialEq, Eq, Error)]
pub enum ConfigFault {
    /// The bytes are no JSON text in UTF-8, or nest deeper than 127.
    #[error("C1 NotJson")]
    NotJson,
    #[error("C2 NotArray")]
    NotArray,
    #[error("C3 NotObject {0}")]
    NotObject(usize),
    /// The name is no text of 1 to 255 bytes.
    #[error("C4 Name {0}")]
    Name(usize),
    /// `listen` is no address, and neither absent, null nor empty.
    #[error("C5 Listen {0}")]
    Listen(usize),
    /// `upstream` is absent or no address.
    #[error("C6 Upstream {0}")]
    Upstream(usize),
    /// The member `enabled` is neither true, false nor null.
    #[error("C7 Enabled {0}")]
    Enabled(usize),
    /// The object at this place has the 65th name.
    #[error("C8 TooMany {0}")]
    TooMany(usize),
    /// Out of memory. It may stand in place of a later fault.
    #[error("C0 OutOfMemory")]
    OutOfMemory,
}

impl From<AllocError> for ConfigFault {
    ghost from_gives = { λ _ fault. fault ≡ OutOfMemory };

    fn from(_refused: AllocError) -> ConfigFault {
        ConfigFault::OutOfMemory
    }
}

impl<T: Drop> From<AllocFailed<T>> for ConfigFault {
    ghost from_gives = { λ _ fault. fault ≡ OutOfMemory };

    fn from(_refused: AllocFailed<T>) -> ConfigFault {
        ConfigFault::OutOfMemory
    }
}

//! Why a script is refused.
ghost use Rattle.std.specs.Prelude.{◌≡◌};
ghost use Rattle.tox_script.specs.declared.fault.ScriptFault.TheVariants.{OutOfMemory};

use std::alloc::{AllocError, AllocFailed};
use thiserror::Error;
use tox_defs::ToxicFault;

/// A field of one of a script's tables that isn't as it must be.
#[derive(Clone, Copy, Debug, PartialEq, Eq, Error)]
pub enum Field {
    /// The document's version: 1 or 2.
    #[error("version")]
    Version,
    /// The lanes of the chains of a document of version 2: 16 or 32.
    #[error("lanes")]
    Lanes,
    /// The document's rules: an array of tables.
    #[error("rule")]
    Rule,
    /// A rule's proxy: a text of 1 to 255 bytes.
    #[error("proxy")]
    Proxy,
    /// A rule's first connection: 1 to 1,000,000.
    #[error("first")]
    First,
    /// A rule's last connection: from its first to 1,000,000.
    #[error("last")]
    Last,
    /// A rule's toxics: an array of tables.
    #[error("toxic")]
    Toxic,
    /// A toxic's name: a text of 1 to 64 bytes without ASCII's control characters.
    #[error("name")]
    Name,
    /// A toxic's type: a text.
    #[error("type")]
    Type,
    /// A toxic's stream: `upstream` or `downstream`.
    #[error("stream")]
    Stream,
    /// A toxic's attributes: a table.
    #[error("attributes")]
    Attributes,
    /// A key that such a table may not have.
    #[error("unknown")]
    Unknown,
}

/// A place in a script: the number of a rule, and of a toxic in it, each from 1. The document itself has 0 as its rule,
/// and a rule itself has 0 as its toxic.
#[derive(Clone, Copy, Debug, PartialEq, Eq)]
pub struct Location {
    pub rule: usize,
    pub toxic: usize,
}

/// Why a script is refused, and where.
#[derive(Clone, Copy, Debug, PartialEq, Eq, Error)]
pub enum ScriptFault {
    /// The bytes are no TOML document in UTF-8.
    #[error("S1 NotToml")]
    NotToml,
    /// A field of a table is not as it must be.
    #[error("S2 Field {} {} {}", .0.rule, .0.toxic, .1)]
    Field(Location, Field),
    /// There is no such toxic.
    #[error("{} {} {}", .1, .0.rule, .0.toxic)]
    Toxic(Location, ToxicFault),
    /// An earlier toxic of the rule has the same name.
    #[error("S8 DoubleName {} {}", .0.rule, .0.toxic)]
    DoubleName(Location),
    /// The chain of the toxic's stream is full.
    #[error("S9 TooManyToxics {} {}", .0.rule, .0.toxic)]
    TooManyToxics(Location),
    /// A script that is to be migrated has version 2.
    #[error("M1 AlreadyVersion2")]
    AlreadyVersion2,
    /// Out of memory. It may stand in place of a later fault.
    #[error("S0 OutOfMemory")]
    OutOfMemory,
}

impl From<AllocError> for ScriptFault {
    ghost from_gives = { λ _ fault. fault ≡ OutOfMemory };

    fn from(_refused: AllocError) -> ScriptFault {
        ScriptFault::OutOfMemory
    }
}

impl<T: Drop> From<AllocFailed<T>> for ScriptFault {
    ghost from_gives = { λ _ fault. fault ≡ OutOfMemory };

    fn from(_refused: AllocFailed<T>) -> ScriptFault {
        ScriptFault::OutOfMemory
    }
}

//! Why a command line sets nothing up.
ghost use Rattle.std.specs.Prelude.{◌≡◌};
ghost use Rattle.tox_inline.specs.declared.fault.InlineFault.TheVariants.{Config, OutOfMemory, Script, Toxics};

use std::alloc::AllocFailed;
use thiserror::Error;
use tox_config::ConfigFault;
use tox_runs::ToxicsFault;
use tox_script::ScriptFault;

/// Why a command line sets nothing up.
#[derive(Clone, Copy, Debug, PartialEq, Eq, Error)]
pub enum InlineFault {
    /// An address is refused, as that of the first proxy of a populate file.
    #[error("{0}")]
    Config(ConfigFault),
    /// A toxic is refused, by its number over both streams.
    #[error("{0}")]
    Toxics(ToxicsFault),
    /// The script that stands for the toxics is refused, which only happens out of memory.
    #[error("{0}")]
    Script(ScriptFault),
    #[error("P0 OutOfMemory")]
    OutOfMemory,
}

impl From<ConfigFault> for InlineFault {
    ghost from_gives = { λ cause fault. fault ≡ Config cause };

    fn from(fault: ConfigFault) -> InlineFault {
        InlineFault::Config(fault)
    }
}

impl From<ToxicsFault> for InlineFault {
    ghost from_gives = { λ cause fault. fault ≡ Toxics cause };

    fn from(fault: ToxicsFault) -> InlineFault {
        InlineFault::Toxics(fault)
    }
}

impl From<ScriptFault> for InlineFault {
    ghost from_gives = { λ cause fault. fault ≡ Script cause };

    fn from(fault: ScriptFault) -> InlineFault {
        InlineFault::Script(fault)
    }
}

impl<T: Drop> From<AllocFailed<T>> for InlineFault {
    ghost from_gives = { λ _ fault. fault ≡ OutOfMemory };

    fn from(_refused: AllocFailed<T>) -> InlineFault {
        InlineFault::OutOfMemory
    }
}

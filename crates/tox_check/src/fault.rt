//! Why a check was not answered, or found something.
ghost use Rattle.std.specs.Prelude.{◌≡◌};

use thiserror::Error;
use tox_runs::SetupFault;

/// Why a check failed.
#[derive(Clone, Copy, Debug, PartialEq, Eq, Error)]
pub enum CheckFault<'a> {
    /// A file was not read, or is refused.
    #[error("{0}")]
    Setup(SetupFault<'a>),
    #[error("L0 OutOfMemory")]
    OutOfMemory,
    /// A write failed, or took nothing.
    #[error("L4 WriteFault")]
    WriteFault,
    /// So many warnings were printed, and a warning is a fault.
    #[error("V1 Warned {0}")]
    Warned(u64),
}

impl<'a> From<SetupFault<'a>> for CheckFault<'a> {
    ghost use Rattle.tox_check.specs.declared.fault.CheckFault.TheVariants as check;

    ghost from_gives = { λ cause fault. fault ≡ check.Setup cause };

    fn from(fault: SetupFault<'a>) -> CheckFault<'a> {
        CheckFault::Setup(fault)
    }
}

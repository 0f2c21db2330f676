//! Why a page wasn't printed whole.
use std::alloc::AllocError;
use thiserror::Error;
use tox_time::EndFault;

/// Why a page wasn't printed whole.
#[derive(Clone, Copy, Debug, PartialEq, Eq, Error)]
pub enum PageFault {
    #[error("L0 OutOfMemory")]
    OutOfMemory,
    /// A write failed, or took nothing.
    #[error("L4 WriteFault")]
    WriteFault,
}

impl From<AllocError> for PageFault {
    ghost use Rattle.std.specs.Prelude.{◌≡◌};
    ghost use Rattle.tox_draw.specs.declared.pages.fault.PageFault.TheVariants.{OutOfMemory};

    ghost from_gives = { λ _ fault. fault ≡ OutOfMemory };

    fn from(_error: AllocError) -> Self {
        PageFault::OutOfMemory
    }
}

impl From<EndFault> for PageFault {
    ghost use Rattle.std.specs.Prelude.{◌≡◌};
    ghost use Rattle.tox_draw.specs.declared.pages.fault.PageFault.TheVariants.{WriteFault};

    ghost from_gives = { λ _ fault. fault ≡ WriteFault };

    fn from(_error: EndFault) -> Self {
        PageFault::WriteFault
    }
}

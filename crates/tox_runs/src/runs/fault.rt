//! Why a run failed.
use crate::runs::whole_input::InputFault;
use thiserror::Error;
use tox_stages::StageFault;
use tox_text::DryFault;

/// Why a run of stages failed.
#[derive(Clone, Copy, Debug, PartialEq, Eq, Error)]
pub enum StagesFault {
    /// As a dry run does.
    #[error("{0}")]
    Dry(DryFault),
    /// The stages gave no outcome.
    #[error("{0}")]
    Stages(StageFault),
}

impl From<InputFault> for DryFault {
    ghost use Rattle.std.specs.Prelude.{◌≡◌};
    ghost use Rattle.tox_runs.specs.runs.Reading.{dry_fault};

    ghost from_gives = { λ cause fault. fault ≡ dry_fault cause };

    fn from(fault: InputFault) -> DryFault {
        match fault {
            InputFault::OutOfMemory => DryFault::OutOfMemory,
            InputFault::TooLong => DryFault::TooLong,
            InputFault::ReadFault => DryFault::ReadFault,
        }
    }
}

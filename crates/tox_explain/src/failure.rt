//! Why a command failed, as a value.
use std::io;
use thiserror::Error;
use tox_config::ConfigFault;
use tox_proxy::{
    CheckFault, DryFault, FileFault, InlineFault, PageFault, PickFault, PrintMigratedFault,
    PrintPickFault, ReplayFault, ServeFault, SetupFault, StagesFault, ToxicsFault, VisibleName,
    WaitFault, WriteFault,
};
use tox_script::ScriptFault;
use tox_stages::StageFault;
use tox_words::WordsFault;

/// Why a command failed: each fault of the program, with the system's reason. Printed, it is the fault's line.
#[derive(Clone, Copy, Debug, Error)]
pub enum Failure<'a> {
    #[error("{0}")]
    Toxics(ToxicsFault),
    #[error("{0}")]
    Words(WordsFault),
    #[error("{0}")]
    Config(ConfigFault),
    #[error("{0}")]
    Script(ScriptFault),
    #[error("{0}")]
    Dry(DryFault),
    #[error("{0}")]
    Stage(StageFault),
    /// A file, and why the system refused it.
    #[error("{0}")]
    File(FileFault<'a>, Option<io::Error>),
    /// A log, and why the system refused its file.
    #[error("{0}")]
    Log(ReplayFault<'a>, Option<io::Error>),
    #[error("{0}")]
    Serve(ServeFault<'a>),
    #[error("{0}")]
    Wait(WaitFault<'a>),
    #[error("P3 UnknownProxy {}", VisibleName(.0))]
    UnknownProxy(&'a str),
    #[error("P5 BadStream")]
    BadStream,
    /// The folder of this name isn't taken for logs.
    #[error("P6 LogRefused {}", VisibleName(.0))]
    LogRefused(&'a str, FolderRefusal),
    /// The folder of this name isn't taken for files, or doesn't take them.
    #[error("P7 FilesRefused {}", VisibleName(.0))]
    FilesRefused(&'a str, FolderRefusal),
    /// `check --strict` printed so many warnings.
    #[error("V1 Warned {0}")]
    Warned(u64),
}

/// Why a folder isn't taken.
#[derive(Clone, Copy, Debug, Error)]
pub enum FolderRefusal {
    #[error("{0}")]
    Failed(io::Error),
    #[error("it isn't empty")]
    NotEmpty,
}

impl<'a> Failure<'a> {
    /// The same, with the reason that the system gave for a file.
    pub fn because(self, reason: Option<io::Error>) -> Failure<'a> {
        match self {
            Failure::File(fault, _) => Failure::File(fault, reason),
            Failure::Log(fault, _) => Failure::Log(fault, reason),
            other => other,
        }
    }
}

impl From<io::Error> for FolderRefusal {
    fn from(error: io::Error) -> FolderRefusal {
        FolderRefusal::Failed(error)
    }
}

impl<'a> From<WriteFault> for Failure<'a> {
    fn from(_fault: WriteFault) -> Failure<'a> {
        Failure::Dry(DryFault::WriteFault)
    }
}

impl<'a> From<StagesFault> for Failure<'a> {
    fn from(fault: StagesFault) -> Failure<'a> {
        match fault {
            StagesFault::Dry(fault) => Failure::Dry(fault),
            StagesFault::Stages(fault) => Failure::Stage(fault),
        }
    }
}

impl<'a> From<PageFault> for Failure<'a> {
    fn from(fault: PageFault) -> Failure<'a> {
        match fault {
            PageFault::OutOfMemory => Failure::Dry(DryFault::OutOfMemory),
            PageFault::WriteFault => Failure::Dry(DryFault::WriteFault),
        }
    }
}

impl<'a> From<ReplayFault<'a>> for Failure<'a> {
    fn from(fault: ReplayFault<'a>) -> Failure<'a> {
        Failure::Log(fault, None)
    }
}

impl<'a> From<FileFault<'a>> for Failure<'a> {
    fn from(fault: FileFault<'a>) -> Failure<'a> {
        Failure::File(fault, None)
    }
}

impl<'a> From<SetupFault<'a>> for Failure<'a> {
    fn from(fault: SetupFault<'a>) -> Failure<'a> {
        match fault {
            SetupFault::ConfigFile(fault) => Failure::File(fault, None),
            SetupFault::Config(fault) => Failure::Config(fault),
            SetupFault::ScriptFile(fault) => Failure::File(fault, None),
            SetupFault::Script(fault) => Failure::Script(fault),
        }
    }
}

impl<'a> From<CheckFault<'a>> for Failure<'a> {
    fn from(fault: CheckFault<'a>) -> Failure<'a> {
        match fault {
            CheckFault::Setup(fault) => Failure::from(fault),
            CheckFault::OutOfMemory => Failure::Dry(DryFault::OutOfMemory),
            CheckFault::WriteFault => Failure::Dry(DryFault::WriteFault),
            CheckFault::Warned(count) => Failure::Warned(count),
        }
    }
}

impl<'a> From<PickFault<'a>> for Failure<'a> {
    fn from(fault: PickFault<'a>) -> Failure<'a> {
        match fault {
            PickFault::BadStream => Failure::BadStream,
            PickFault::Setup(fault) => Failure::from(fault),
            PickFault::UnknownProxy(name) => Failure::UnknownProxy(name),
            PickFault::Print(PrintPickFault::OutOfMemory) => {
                Failure::Words(WordsFault::OutOfMemory)
            }
            PickFault::Print(PrintPickFault::WriteFault) => Failure::Dry(DryFault::WriteFault),
        }
    }
}

impl<'a> From<PrintMigratedFault> for Failure<'a> {
    fn from(fault: PrintMigratedFault) -> Failure<'a> {
        match fault {
            PrintMigratedFault::Script(fault) => Failure::Script(fault),
            PrintMigratedFault::WriteFault => Failure::Dry(DryFault::WriteFault),
        }
    }
}

impl<'a> From<InlineFault> for Failure<'a> {
    fn from(fault: InlineFault) -> Failure<'a> {
        match fault {
            InlineFault::Config(fault) => Failure::Config(fault),
            InlineFault::Toxics(fault) => Failure::Toxics(fault),
            InlineFault::Script(fault) => Failure::Script(fault),
            InlineFault::OutOfMemory => Failure::File(FileFault::OutOfMemory, None),
        }
    }
}

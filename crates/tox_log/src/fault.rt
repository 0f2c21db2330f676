//! Why a log can't be judged.
ghost use Rattle.std.specs.Prelude.{◌≡◌};
ghost use Rattle.tox_log.specs.FaultText.{ends_replay, fault_in};

use std::alloc::AllocError;
use std::error::Error;
use std::fmt;
use tox_text::VisibleName;
use tox_time::EndFault;

/// Why a log can't be judged. A line is named by its number from 1.
#[derive(Clone, Copy, Debug, PartialEq, Eq)]
pub enum LogFault {
    OutOfMemory,
    /// A read failed.
    ReadFault,
    /// This line isn't of the form, or may not stand there.
    BadLine(u64),
    /// This line is a piece that comes while 1024 pieces wait.
    TooDeep(u64),
}

impl From<AllocError> for LogFault {
    ghost use Rattle.std.specs.Prelude.{◌≡◌};
    ghost use Rattle.tox_log.specs.declared.fault.LogFault.TheVariants.{OutOfMemory};

    ghost from_gives = { λ _ fault. fault ≡ OutOfMemory };

    fn from(_error: AllocError) -> Self {
        LogFault::OutOfMemory
    }
}

impl From<EndFault> for LogFault {
    ghost use Rattle.std.specs.Prelude.{◌≡◌};
    ghost use Rattle.tox_log.specs.declared.fault.LogFault.TheVariants.{ReadFault};

    ghost from_gives = { λ _ fault. fault ≡ ReadFault };

    fn from(_error: EndFault) -> Self {
        LogFault::ReadFault
    }
}

/// Why a replay failed, with the name of the log's file.
#[derive(Clone, Copy, Debug, PartialEq, Eq)]
pub enum ReplayFault<'a> {
    OutOfMemory,
    /// A write failed, or took nothing.
    WriteFault,
    /// The file of this name couldn't be opened, or a read of it failed.
    Unreadable(&'a str),
    /// This line of the file isn't of the form, or may not stand there.
    BadLog(&'a str, u64),
    /// This line of the file is a piece that comes while 1024 pieces wait.
    LogTooDeep(&'a str, u64),
    /// So many logs are unfaithful.
    NotFaithful(u64),
}

impl fmt::Display for ReplayFault<'_> {
    ghost use Rattle.std.specs.Prelude.{Some};
    ghost use Rattle.tox_log.specs.FaultText.{replay_fault_text};

    ghost output = { λ fault. Some (replay_fault_text fault) };

    fn fmt<W: fmt::Write>(&self, f: &mut fmt::Formatter<W>) -> fmt::Result {
        match self {
            ReplayFault::OutOfMemory => f.write_str("L0 OutOfMemory"),
            ReplayFault::WriteFault => f.write_str("L4 WriteFault"),
            ReplayFault::Unreadable(name) => write!(f, "P1 FileFault {}", VisibleName(name)),
            ReplayFault::BadLog(name, line) => write!(f, "G1 BadLog {} {line}", VisibleName(name)),
            ReplayFault::LogTooDeep(name, line) => write!(
                f,
                "G2 LogTooDeep {} {line}",
                VisibleName(name)
            ),
            ReplayFault::NotFaithful(count) => write!(f, "G3 NotFaithful {count}"),
        }
    }
}

impl Error for ReplayFault<'_> {}

impl<'a> ReplayFault<'a> {
    /// The fault of the log in the file of this name.
    pub fn of(name: &'a str, fault: &LogFault) -> ReplayFault<'a>
        ensures { result ≡ fault_in name.entry fault.now }
    {
        match fault {
            LogFault::OutOfMemory => ReplayFault::OutOfMemory,
            LogFault::ReadFault => ReplayFault::Unreadable(name),
            LogFault::BadLine(line) => ReplayFault::BadLog(name, *line),
            LogFault::TooDeep(line) => ReplayFault::LogTooDeep(name, *line),
        }
    }

    /// Whether it ends a replay of several logs.
    pub fn ends(&self) -> bool
        ensures { result ≡ ends_replay self.now }
    {
        matches!(self, ReplayFault::OutOfMemory | ReplayFault::WriteFault)
    }
}

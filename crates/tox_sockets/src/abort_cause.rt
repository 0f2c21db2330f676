//! Why a link is aborted.
ghost use Rattle.std.specs.Prelude.{◌≡◌, Some};

/// Why a link is ended from inside before its streams have ended.
#[derive(Clone, Copy, Debug, PartialEq, Eq)]
pub enum AbortCause {
    /// The run was told to stop.
    Stopped,
    /// Memory was refused to one of its streams.
    Memory,
    /// A thread was refused to one of them.
    Thread,
}

/// The code of a link that isn't aborted.
pub(crate) const NOT_ABORTED: u32 = 0;

const STOPPED: u32 = 1;

const MEMORY: u32 = 2;

const THREAD: u32 = 3;

impl AbortCause {
    ghost use Rattle.tox_sockets.specs.AbortCodes.{abort_code};

    /// Its code, by which an atomic number holds it.
    pub(crate) fn code(self) -> u32
        ensures { result ≡ abort_code self }
    {
        match self {
            AbortCause::Stopped => STOPPED,
            AbortCause::Memory => MEMORY,
            AbortCause::Thread => THREAD,
        }
    }

    /// The cause of a code. None for a link that isn't aborted.
    pub(crate) fn of_code(code: u32) -> Option<AbortCause>
        ensures { (cause : AbortCause) → code ≡ abort_code cause → result ≡ Some cause }
    {
        match code {
            STOPPED => Some(AbortCause::Stopped),
            MEMORY => Some(AbortCause::Memory),
            THREAD => Some(AbortCause::Thread),
            _ => None,
        }
    }
}

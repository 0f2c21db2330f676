//! Why a link broke, as it is reported on standard error.
use crate::link::end::{Carried, StreamEnd};
use std::fmt;
use std::io::ErrorKind;
use tox_log::BreakCause;

/// Why a link broke.
#[derive(Clone, Copy, Debug, PartialEq, Eq)]
pub(crate) enum BreakReason {
    /// The name of its upstream has no address.
    Name,
    /// Its upstream wasn't reached, for this reason.
    Upstream(ErrorKind),
    /// Its client left before the upstream was reached.
    Client,
    Memory,
    Thread,
    /// A write failed.
    Write,
    /// The program is told to end.
    Stopped,
}

impl BreakReason {
    /// How many kinds of reasons are reported apart.
    pub(crate) const KINDS: usize = 8;

    /// Why a link broke of which both directions have ended so. None if it didn't, or was stopped.
    pub(crate) fn of(up: &Carried, down: &Carried) -> Option<BreakReason> {
        let up = reason_of(&up.end);
        let down = reason_of(&down.end);
        match (up, down) {
            (Some(BreakReason::Write), Some(_)) => down,
            (None, _) => down,
            _ => up,
        }
    }

    /// The kind of the reason, among those that are reported apart. None: it isn't reported.
    pub(crate) fn kind(self) -> Option<usize> {
        match self {
            BreakReason::Name => Some(0),
            BreakReason::Upstream(ErrorKind::ConnectionRefused) => Some(1),
            BreakReason::Upstream(ErrorKind::TimedOut) => Some(2),
            BreakReason::Upstream(_) => Some(3),
            BreakReason::Client => Some(4),
            BreakReason::Memory => Some(5),
            BreakReason::Thread => Some(6),
            BreakReason::Write => Some(7),
            BreakReason::Stopped => None,
        }
    }

    /// The cause that the log of a link has.
    pub(crate) fn cause(self) -> BreakCause {
        match self {
            BreakReason::Name | BreakReason::Upstream(_) | BreakReason::Client => {
                BreakCause::Upstream
            }
            BreakReason::Memory => BreakCause::Memory,
            BreakReason::Thread => BreakCause::Thread,
            BreakReason::Write => BreakCause::Write,
            BreakReason::Stopped => BreakCause::Stopped,
        }
    }

    /// Writes the reason, with the address of the upstream where it is about that.
    pub(crate) fn write<W: fmt::Write>(
        self,
        f: &mut fmt::Formatter<W>,
        upstream: &str,
    ) -> fmt::Result {
        match self {
            BreakReason::Name => write!(f, "upstream {upstream}: name not found"),
            BreakReason::Upstream(kind) => write!(f, "upstream {upstream}: {kind}"),
            BreakReason::Client => {
                write!(
                    f,
                    "upstream {upstream}: the client left before it was reached"
                )
            }
            BreakReason::Memory => f.write_str("out of memory"),
            BreakReason::Thread => f.write_str("a thread was refused"),
            BreakReason::Write => f.write_str("a write failed"),
            BreakReason::Stopped => f.write_str("the program was told to end"),
        }
    }
}

/// Why a stream broke, unless it was stopped.
fn reason_of(end: &StreamEnd) -> Option<BreakReason> {
    match end {
        StreamEnd::Broken(BreakCause::Write) => Some(BreakReason::Write),
        StreamEnd::Broken(BreakCause::Memory) => Some(BreakReason::Memory),
        StreamEnd::Broken(BreakCause::Thread) => Some(BreakReason::Thread),
        StreamEnd::Broken(_) | StreamEnd::Ended(..) => None,
    }
}

//! What follows a failed accept.
ghost use Rattle.std.specs.Prelude.{◌≡◌};
ghost use Rattle.std.specs.IoError.{error_kind, raw_os_error};
ghost use Rattle.tox_serve.specs.proxy.Accepting.{is_lack_of, next_of, next_of_code};

use std::io;
use std::io::ErrorKind;

/// The system's codes of a momentary lack: of descriptors in this process, in the system, of buffers, and of streams.
const LACKS: [i32; 4] = [24, 23, 105, 63];

/// The system's codes of a connection that broke before it was accepted: refused by a rule of the firewall, no network,
/// a protocol error, no such option, not supported, timed out, and a host that is down.
const BROKE: [i32; 7] = [1, 64, 71, 92, 95, 110, 112];

/// How long nothing that takes a descriptor is tried after a momentary lack, in milliseconds.
pub(crate) const ACCEPT_REST: u64 = 10;

/// What to do after a failed `accept`.
#[derive(Clone, Copy, PartialEq, Eq)]
pub(crate) enum Next {
    TryAgain,
    Rest,
    GiveUp,
}

/// Tries again after a connection that was gone, an interrupted call and a momentary lack.
pub(crate) fn after(error: &io::Error) -> Next
    ensures { result ≡ next_of (error_kind error.now) (raw_os_error error.now) }
{
    match error.kind() {
        ErrorKind::Interrupted
        | ErrorKind::ConnectionAborted
        | ErrorKind::ConnectionReset
        | ErrorKind::HostUnreachable
        | ErrorKind::NetworkUnreachable
        | ErrorKind::NetworkDown => Next::TryAgain,
        // Another process that shares the listener may have set it not to wait. Trying again without a rest would spin.
        ErrorKind::OutOfMemory | ErrorKind::WouldBlock => Next::Rest,
        _ => after_code(error.raw_os_error()),
    }
}

fn after_code(code: Option<i32>) -> Next
    ensures { result ≡ next_of_code code }
{
    match code {
        Some(code) if BROKE.contains(&code) => Next::TryAgain,
        Some(code) if LACKS.contains(&code) => Next::Rest,
        _ => Next::GiveUp,
    }
}

/// Whether a call failed for a momentary lack of descriptors, of buffers or of streams.
pub(crate) fn is_lack(error: &io::Error) -> bool
    ensures { result ≡ is_lack_of (raw_os_error error.now) }
{
    match error.raw_os_error() {
        Some(code) => LACKS.contains(&code),
        None => false,
    }
}

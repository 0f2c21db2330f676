//! The signals that tell a process to stop, as `/proc/self/status` shows them.
ghost use Rattle.std.specs.Prelude.{◌≡◌, ◌≤◌, ◌<◌};
ghost use Rattle.tox_serve.specs.Signals.{bytes_behind, has_bit, has_signal, is_pending_and_blocked, tells_to_stop};

/// SIGHUP, SIGINT and SIGTERM.
const HANG_UP: usize = 1;

const INTERRUPT: usize = 2;

const TERMINATE: usize = 15;

/// Whether a process with this status is told to stop: SIGHUP, SIGINT or SIGTERM waits, is blocked and isn't ignored.
pub fn tells_to_stop(status: &[u8]) -> bool
    ensures { result ≡ tells_to_stop status.now }
{
    is_pending_and_blocked(status, HANG_UP)
        || is_pending_and_blocked(status, INTERRUPT)
        || is_pending_and_blocked(status, TERMINATE)
}

/// Whether a signal waits, is blocked and isn't ignored.
fn is_pending_and_blocked(status: &[u8], signal: usize) -> bool
    requires { (1 ≤ signal) × (signal ≤ 64) }
    ensures { result ≡ is_pending_and_blocked status.now signal }
{
    (has_signal(status, b"\nShdPnd:\t", signal) || has_signal(status, b"\nSigPnd:\t", signal))
        && has_signal(status, b"\nSigBlk:\t", signal)
        && !has_signal(status, b"\nSigIgn:\t", signal)
}

/// Whether the set behind this name has a signal. A set is 16 hexadecimal digits, the last of which has the signals 1 to 4.
fn has_signal(status: &[u8], name: &[u8], signal: usize) -> bool
    requires { (1 ≤ signal) × (signal ≤ 64) }
    ensures { result ≡ has_signal status.now name.now signal }
{
    let place = signal - 1;
    match bytes_behind(status, name).get(15 - place / 4) {
        Some(digit) => has_bit(*digit, place % 4),
        None => false,
    }
}

/// Whether a hexadecimal digit has a bit.
fn has_bit(digit: u8, bit: usize) -> bool
    requires { bit < 4 }
    ensures { result ≡ has_bit digit bit }
{
    match (digit as char).to_digit(16) {
        Some(value) => (value >> bit) % 2 == 1,
        None => false,
    }
}

/// The bytes behind the first place where a name stands. None where it doesn't.
fn bytes_behind<'a>(text: &'a [u8], name: &[u8]) -> &'a [u8]
    ensures { result.now ≡ bytes_behind name.now text.now }
{
    let mut rest = text;
    while let Some((_, next)) = rest.split_first() {
        if rest.starts_with(name) {
            return &rest[name.len()..];
        }
        rest = next;
    }
    rest
}

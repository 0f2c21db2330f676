//! How long a worker waits for events.
ghost use Rattle.std.specs.Prelude.{◌≡◌, ◌*◌, ◌/◌, option_map};
ghost use Rattle.std.specs.Duration.{as_nanos};
ghost use Rattle.tox_serve.specs.workers.Waits.{earlier_of};

use std::thread;
use std::time::{Clock, Duration};

/// How many microseconds a millisecond has.
pub(crate) const MILLI: u64 = 1_000;

/// The longest rest before an instant that a wait for events can't meet, in microseconds.
const NAP: u64 = 100;

/// A wait for events lasts whole milliseconds: those of a wait of so many microseconds.
pub(crate) fn whole_millis(wait: Option<u64>) -> Option<Duration>
    ensures { option_map as_nanos result
        ≡ option_map (λ micros. micros / 1000 * 1000000) wait }
{
    match wait {
        Some(micros) => Some(Duration::from_millis(micros / MILLI)),
        None => None,
    }
}

/// Rests where an instant is less than a millisecond away.
pub(crate) fn nap<R: Clock>(rt: &R, wait: Option<u64>) {
    match wait {
        Some(micros) if micros > 0 && micros < MILLI => {
            thread::sleep(rt, Duration::from_micros(micros.min(NAP)));
        }
        _ => {}
    }
}

/// The earlier of two instants, if there is one.
pub(crate) fn earlier(one: Option<u64>, other: Option<u64>) -> Option<u64>
    ensures { result ≡ earlier_of one other }
{
    match (one, other) {
        (Some(one), Some(other)) => Some(one.min(other)),
        (Some(one), None) => Some(one),
        (None, other) => other,
    }
}

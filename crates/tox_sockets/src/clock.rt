//! The clock of a served link.
ghost use Rattle.std.specs.Prelude.{◌≡◌, ◌-◌, ◌/◌, None, min};
ghost use Rattle.std.specs.Time.{instant_nanos};
ghost use Rattle.tox_time.specs.Time.{IsInstant, plus};

use std::thread;
use std::time::{Clock, Duration, Instant};
use tox_link::Clock as LinkClock;
use tox_time::Micros;

/// The longest rest, in microseconds.
const MAX_REST: u64 = 1_000;

/// When a link started, if the monotonic clock of the runtime could be read.
#[derive(Clone, Copy)]
pub struct LinkStart {
    instant: Option<Instant>,
}

impl LinkStart {
    /// The link starts now.
    pub fn now<R: Clock>(rt: &R) -> LinkStart {
        LinkStart {
            instant: Instant::now(rt).ok(),
        }
    }

    /// The time since then. None passes where the clock can't be read.
    pub fn elapsed<R: Clock>(&self, rt: &R) -> Micros
        ensures { self.now.instant ≡ None → result ≡ 0 }
    {
        let Some(start) = self.instant else {
            return Micros::ZERO;
        };
        let Ok(now) = Instant::now(rt) else {
            return Micros::ZERO;
        };
        micros_between(start, now)
    }
}

/// The time since a link's start. It stands still where the clock can't be read.
#[derive(Clone, Copy)]
pub struct SinceStart<'r, R> {
    rt: &'r R,
    start: LinkStart,
}

impl<'r, R: Clock> SinceStart<'r, R> {
    /// The time since this start.
    pub fn new(rt: &'r R, start: LinkStart) -> SinceStart<'r, R>
        ensures { result.start ≡ start }
    {
        SinceStart { rt, start }
    }
}

/// The whole microseconds from a link's start to now.
fn micros_between(start: Instant, now: Instant) -> Micros
    ensures { result ≡ plus 0 ((instant_nanos now - instant_nanos start) / 1000) }
{
    let elapsed = now.duration_since(start).as_micros();
    Micros::ZERO.after(u64::try_from(elapsed).unwrap_or(u64::MAX))
}

/// How long to sleep before an instant, in microseconds: at most 1,000.
fn rest_before(now: Micros, until: Micros) -> u64
    ensures { result ≡ min (until - now) 1000 }
{
    until.get().saturating_sub(now.get()).min(MAX_REST)
}

impl<'r, R: Clock> LinkClock for SinceStart<'r, R> {
    ghost reported = { λ clock instant. IsInstant instant };

    fn now(&self) -> Micros {
        self.start.elapsed(self.rt)
    }

    /// Sleeps until that instant, at most 1,000 microseconds.
    fn rest(&self, until: Micros) {
        let micros = rest_before(self.now(), until);
        if micros > 0 {
            thread::sleep(self.rt, Duration::from_micros(micros));
        }
    }

    ghost instants = { λ clock instant reported. reported };
}

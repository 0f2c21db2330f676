//! The clock of a link.
ghost use Rattle.std.specs.Prelude.{◌≡◌, ℕ, ◌≤◌, ◌⊎◌};
ghost use Rattle.tox_time.specs.Time.{IsInstant};

use tox_time::Micros;

/// A clock that counts from a link's start.
pub trait Clock {
    /// That this clock read this instant. Only `now` says so.
    ghost reported: { Self → ℕ → Type 0 };

    /// The present instant.
    fn now(&self) -> Micros
        ensures { reported self.now result };

    /// Waits for a while, at most until this instant. Promises nothing.
    fn rest(&self, until: Micros);

    /// Its readings are instants: at most 10^15 microseconds.
    ghost instants: { (clock : Self) (t : ℕ) → reported clock t → IsInstant t };
}

/// The greatest reading so far, `latest` or the present instant.
pub(crate) fn reading<C: Clock>(clock: &C, latest: Micros) -> Micros
    requires { (latest ≡ 0) ⊎ C.reported clock.now latest }
    ensures reported { C.reported clock.now result }
    ensures later { latest ≤ result }
    ensures bound { IsInstant result }
{
    latest.later(clock.now())
}

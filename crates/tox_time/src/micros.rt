//! Instants and lengths of time.
ghost use Rattle.std.specs.Prelude.{◌≡◌, ℕ, ◌+◌, ◌*◌, ◌^◌, ◌≤◌, ◌↔◌, min, max, IsSome, IfSome};
ghost use Rattle.tox_time.specs.declared.micros.TheConstants.{HORIZON};
ghost use Rattle.tox_time.specs.Time.{horizon, plus, micros_of};

use std::marker::Model;

/// The last instant: 10^15 microseconds (some 31 years) from a link's start.
pub const HORIZON: u64 = 1_000_000_000_000_000;

/// An instant, or a length of time, in whole microseconds from a link's start: 0 to [`HORIZON`].
#[derive(Clone, Copy, Debug, Default, PartialEq, Eq, PartialOrd, Ord, Hash)]
pub struct Micros {
    micros: u64,
}

impl Model for Micros {
    ghost Value = { ℕ };

    ghost view = { λ m. m.micros };

    ghost invariant = { λ m. m.micros ≤ horizon };

    ghost inverse = { λ n. record { micros = n } };
}

impl Micros {
    /// The link's start.
    pub const ZERO: Micros = Micros { micros: 0 };

    /// The instant of this number, or None above the horizon.
    pub fn new(micros: u64) -> Option<Micros>
        ensures valid { IsSome result ↔ (micros ≤ horizon) }
        ensures value { IfSome result (λ t. t ≡ micros) }
        ensures constant { HORIZON ≡ horizon }
    {
        if micros <= HORIZON {
            Some(Micros { micros })
        } else {
            None
        }
    }

    /// A number of milliseconds, stopping at the horizon.
    pub fn from_millis(millis: u64) -> Micros
        ensures value { result ≡ micros_of millis }
        ensures bound { result ≤ horizon }
    {
        Micros {
            micros: millis.saturating_mul(1000).min(HORIZON),
        }
    }

    /// The sum, stopping at the horizon.
    pub fn plus(self, wait: Micros) -> Micros
        ensures value { result ≡ plus self wait }
        ensures bound { result ≤ horizon }
    {
        Micros {
            micros: (self.micros + wait.micros).min(HORIZON),
        }
    }

    /// The instant `micros` microseconds later, stopping at the horizon.
    pub fn after(self, micros: u64) -> Micros
        ensures value { result ≡ plus self micros }
        ensures bound { result ≤ horizon }
    {
        Micros {
            micros: self.micros.saturating_add(micros).min(HORIZON),
        }
    }

    /// The later of two instants.
    pub fn later(self, other: Micros) -> Micros
        ensures value { result ≡ max self other }
        ensures bound { result ≤ horizon }
    {
        if self.micros < other.micros {
            other
        } else {
            self
        }
    }

    /// The number of microseconds.
    pub fn get(self) -> u64
        ensures value { result ≡ self }
        ensures bound { result ≤ horizon }
    {
        self.micros
    }
}

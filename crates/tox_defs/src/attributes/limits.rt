//! Ranges of attributes.
ghost use Rattle.std.specs.Prelude.{◌≡◌};
ghost use Rattle.tox_defs.specs.toxics.Ranges.{is_in};

use tox_time::MAX_BYTES;

/// The values that an attribute may have: `least..=most`.
#[derive(Clone, Copy)]
pub struct Limits {
    pub least: u64,
    pub most: u64,
}

/// Up to an hour, in milliseconds.
pub(crate) const UP_TO_HOUR: Limits = Limits {
    least: 0,
    most: 3_600_000,
};

/// One to a million: a rate in KB/s, or an average size in bytes.
pub(crate) const ONE_TO_MILLION: Limits = Limits {
    least: 1,
    most: 1_000_000,
};

/// Up to as many bytes as a link may carry.
pub(crate) const UP_TO_MAX_BYTES: Limits = Limits {
    least: 0,
    most: MAX_BYTES,
};

/// Any number.
pub(crate) const ANY_VALUE: Limits = Limits {
    least: 0,
    most: u64::MAX,
};

impl Limits {
    /// Whether a value is in the range.
    pub fn has(&self, value: u64) -> bool
        ensures { result ≡ is_in self.now value }
    {
        self.least <= value && value <= self.most
    }
}

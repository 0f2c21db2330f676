//! The toxics with their attributes.
ghost use Rattle.std.specs.Prelude.{◌≡◌, ◌≤◌, length};
ghost use Rattle.tox_defs.specs.DescriptionInside.{description_view};
ghost use Rattle.tox_defs.specs.Toxic.{checked, is_varied_too_much, with_values};
ghost use Rattle.tox_defs.specs.toxics.{meaning_of};

use crate::attributes::description::Description;
use crate::toxics::{bandwidth, latency, limit_data, reset_peer, slicer, slow_close, timeout};

/// A fault that a link can meet, with the attributes of Toxiproxy's toxic of the same name.
///
/// Times are in milliseconds, except a slicer's `delay` in microseconds. Sizes are in bytes. [`Toxic::attributes`] has each
/// range. A chunk that comes before `from`, or at or past `until` (0: never), leaves whole and in order, and the toxic doesn't
/// count it.
/// A timeout with `from` or `after` above 0, or a reset_peer with `after`, begins later: until then all passes.
#[derive(Clone, Copy, Debug, PartialEq, Eq)]
pub enum Toxic {
    /// Delays all data by `latency` plus or minus `jitter`.
    Latency {
        latency: u32,
        jitter: u32,
        until: u32,
        from: u32,
    },
    /// Limits a connection to `rate` KB/s (1 KB is 1000 bytes).
    Bandwidth {
        rate: u32,
        until: u32,
        from: u32,
    },
    /// Delays the closing by `delay`.
    SlowClose {
        delay: u32,
    },
    /// Drops all data and closes after `timeout`. With 0 it never closes. It begins at `from`, or once `after` bytes have
    /// passed, if that is sooner.
    Timeout {
        timeout: u32,
        from: u32,
        after: u64,
    },
    /// Resets the connection `timeout` after its start. With `after` it does so once that many bytes have passed, and not
    /// before.
    ResetPeer {
        timeout: u32,
        after: u64,
    },
    /// Cuts data into pieces near `average_size`, varied by `size_variation` (below it), with `delay` microseconds before each.
    Slicer {
        average_size: u32,
        size_variation: u32,
        delay: u64,
        until: u32,
        from: u32,
    },
    /// Closes the connection once `bytes` have passed.
    LimitData {
        bytes: u64,
    },
}

impl Toxic {
    /// A toxic of each type, with zeros.
    pub const EACH_TYPE: [Toxic; 7] = [
        Toxic::Latency {
            latency: 0,
            jitter: 0,
            until: 0,
            from: 0,
        },
        Toxic::Bandwidth {
            rate: 0,
            until: 0,
            from: 0,
        },
        Toxic::SlowClose { delay: 0 },
        Toxic::Timeout {
            timeout: 0,
            from: 0,
            after: 0,
        },
        Toxic::ResetPeer {
            timeout: 0,
            after: 0,
        },
        Toxic::Slicer {
            average_size: 0,
            size_variation: 0,
            delay: 0,
            until: 0,
            from: 0,
        },
        Toxic::LimitData { bytes: 0 },
    ];

    /// The name of the type, and the attributes.
    pub(crate) fn description(&self) -> Description
        ensures described { description_view result ≡ (meaning_of self.now).description }
        ensures few { length result.attributes.now ≤ 5 }
    {
        match *self {
            Toxic::Latency {
                latency,
                jitter,
                until,
                from,
            } => latency::description(latency, jitter, until, from),
            Toxic::Bandwidth { rate, until, from } => bandwidth::description(rate, until, from),
            Toxic::SlowClose { delay } => slow_close::description(delay),
            Toxic::Timeout {
                timeout,
                from,
                after,
            } => timeout::description(timeout, from, after),
            Toxic::ResetPeer { timeout, after } => reset_peer::description(timeout, after),
            Toxic::Slicer {
                average_size,
                size_variation,
                delay,
                until,
                from,
            } => slicer::description(average_size, size_variation, delay, until, from),
            Toxic::LimitData { bytes } => limit_data::description(bytes),
        }
    }

    /// The toxic of the same type with these values of its attributes, or with the greatest of an attribute's type in place of
    /// a larger one, which is as much out of range.
    pub(crate) fn saturated(&self, values: &[u64]) -> Toxic
        ensures { checked result ≡ checked (with_values self.now values.now) }
    {
        match self {
            Toxic::Latency { .. } => latency::from_values(values),
            Toxic::Bandwidth { .. } => bandwidth::from_values(values),
            Toxic::SlowClose { .. } => slow_close::from_values(values),
            Toxic::Timeout { .. } => timeout::from_values(values),
            Toxic::ResetPeer { .. } => reset_peer::from_values(values),
            Toxic::Slicer { .. } => slicer::from_values(values),
            Toxic::LimitData { .. } => limit_data::from_values(values),
        }
    }

    /// Whether sizes vary by their average or more.
    pub(crate) fn is_varied_too_much(&self) -> bool
        ensures { result ≡ is_varied_too_much self.now }
    {
        match *self {
            Toxic::Slicer {
                average_size,
                size_variation,
                ..
            } => slicer::is_varied_too_much(average_size, size_variation),
            _ => false,
        }
    }
}

//! The end of a time limit.
use std::time::{Clock, Duration, Instant};

/// The instant at which a time limit ends. None where the clock couldn't be read: then no time is left.
#[derive(Clone, Copy)]
pub(crate) struct Deadline {
    at: Option<Instant>,
}

impl Deadline {
    /// So many milliseconds from now.
    pub(crate) fn after<R: Clock>(rt: &R, millis: u32) -> Deadline {
        let limit = Duration::from_millis(u64::from(millis));
        let at = match Instant::now(rt) {
            Ok(now) => now.checked_add(limit),
            Err(_) => None,
        };
        Deadline { at }
    }

    /// The milliseconds that are left, rounded up. 0 once none is.
    pub(crate) fn left_millis<R: Clock>(self, rt: &R) -> i32 {
        let left = self.left(rt);
        if left.is_zero() {
            return 0;
        }
        i32::try_from(left.as_millis())
            .unwrap_or(i32::MAX)
            .saturating_add(1)
    }

    /// The time that is left.
    pub(crate) fn left<R: Clock>(self, rt: &R) -> Duration {
        match (self.at, Instant::now(rt)) {
            (Some(at), Ok(now)) => at.duration_since(now),
            _ => Duration::ZERO,
        }
    }
}

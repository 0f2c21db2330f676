//! An instant at which something is due.
use std::time::{Clock, Duration, Instant};

/// The instant so many milliseconds from now. None without a clock.
pub fn after(rt: &impl Clock, millis: u64) -> Option<Instant> {
    Instant::now(rt)
        .ok()?
        .checked_add(Duration::from_millis(millis))
}

/// Whether an instant has come. False without a clock.
pub fn is_over(rt: &impl Clock, due: Instant) -> bool {
    match Instant::now(rt) {
        Ok(now) => due <= now,
        Err(_) => false,
    }
}

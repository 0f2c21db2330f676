//! Waiting for another thread: yields at first, then sleeps until it is woken.
ghost use Rattle.std.specs.Prelude.{◌≡◌, ◌+◌, ◌<◌, ◌≤◌};

use std::sync::Wait;
use std::thread;
use std::thread::Parker;

/// How often a thread yields before it sleeps.
const MAX_YIELDS: u32 = 64;

/// One turn of a wait: a yield, or after 64 of them a sleep on `parker`.
///
/// A sleep returns at once if `parker` was unparked since the last one. So a thread that checks its condition after each
/// turn misses no wake-up, provided that the other thread unparks after it has changed the condition.
pub fn pause<R: Wait>(rt: &R, parker: &Parker, yields: &mut u32)
    ensures counted { yields.old < 64 → yields.new ≡ yields.old + 1 }
    ensures asleep { 64 ≤ yields.old → yields.new ≡ yields.old }
{
    if *yields < MAX_YIELDS {
        *yields += 1;
        thread::yield_now();
    } else {
        parker.park(rt);
    }
}

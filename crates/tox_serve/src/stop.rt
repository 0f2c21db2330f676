//! What tells a run of `serve_with` to end.
use std::sync::atomic::{AtomicU64, Ordering};
use std::sync::{Condvar, Mutex, Wait};

/// Tells runs of [`serve_with`](crate::serve_with) to end: all that were given it, also those that start later.
#[derive(Drop)]
pub struct Stop {
    requested: Mutex<bool>,
    /// Notified once `requested` is set, and when a run may have ended by itself.
    changed: Condvar,
}

impl Stop {
    /// Nothing is requested yet.
    pub fn new() -> Stop {
        Stop {
            requested: Mutex::new(false),
            changed: Condvar::new(),
        }
    }

    /// Tells the runs to end. A second call changes nothing.
    pub fn request<R: Wait>(&self, rt: &R) {
        *self.requested.lock(rt) = true;
        self.changed.notify_all();
    }

    /// Whether the runs are told to end.
    pub fn is_requested<R: Wait>(&self, rt: &R) -> bool {
        *self.requested.lock(rt)
    }

    /// Waits until the runs are told to end, or none of these proxies is served any more. Whether they are told to end.
    pub fn wait<R: Wait>(&self, rt: &R, proxies: &AtomicU64) -> bool {
        let mut requested = self.requested.lock(rt);
        for _ in rt.forever() {
            if *requested {
                return true;
            }
            if proxies.load(Ordering::SeqCst) == 0 {
                return false;
            }
            requested = self.changed.wait(rt, requested);
        }
        unreachable!()
    }

    /// One of these proxies isn't served any more.
    pub fn ended<R: Wait>(&self, rt: &R, proxies: &AtomicU64) {
        let _held = self.requested.lock(rt);
        proxies.fetch_sub(1, Ordering::SeqCst);
        self.changed.notify_all();
    }
}

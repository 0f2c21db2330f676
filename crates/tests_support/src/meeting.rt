//! A gate at which two threads wait for each other.
use std::sync::atomic::{AtomicBool, Ordering};
use std::thread;
use tox_time::Gate;

/// How often a thread yields at most until another one comes along.
const TURNS: u64 = 1_000_000;

/// Yields until the test answers true. Returns whether it did within a million turns.
pub fn comes_true<F: Fn() -> bool>(test: F) -> bool
    requires { F.IsAlwaysCallable test }
{
    for _ in 0..TURNS {
        if test() {
            return true;
        }
        thread::yield_now();
    }
    false
}

/// A gate at which stage 1 with its first item and stage 0 with item `nth` each wait for the other.
#[derive(Drop)]
pub struct Meeting {
    nth: u64,
    first: AtomicBool,
    second: AtomicBool,
    missed: AtomicBool,
}

impl Meeting {
    pub fn new(nth: u64) -> Meeting {
        Meeting {
            nth,
            first: AtomicBool::new(false),
            second: AtomicBool::new(false),
            missed: AtomicBool::new(false),
        }
    }

    /// Whether both came, and each saw the other.
    pub fn met(&self) -> bool {
        let came = self.first.load(Ordering::SeqCst) && self.second.load(Ordering::SeqCst);
        came && !self.missed.load(Ordering::SeqCst)
    }

    fn meet(&self, mine: &AtomicBool, other: &AtomicBool) {
        mine.store(true, Ordering::SeqCst);
        if !comes_true(|| other.load(Ordering::SeqCst)) {
            self.missed.store(true, Ordering::SeqCst);
        }
    }
}

impl Gate for Meeting {
    fn pass(&self, stage: usize, nth: u64) {
        match (stage, nth) {
            (0, nth) if nth == self.nth => self.meet(&self.first, &self.second),
            (1, 0) => self.meet(&self.second, &self.first),
            _ => {}
        }
    }
}

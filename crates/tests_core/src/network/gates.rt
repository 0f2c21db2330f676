//! A gate that records what passes it.
use crate::comparing::{assert_equal, assert_equal_at};
use crate::plan::demands::demand;
use std::process::Abort;
use std::sync::atomic::{AtomicBool, AtomicU64, Ordering};
use std::thread;
use tests_support::comes_true;
use tox_time::Gate;

/// A gate that records when each of five items of two stages entered and returned, by a clock that counts these events
/// from 1. Stage 0 is slow with its first item. Stage 1 is slower with its own, and waits for stage 0's third.
#[derive(Drop)]
pub struct Log {
    clock: AtomicU64,
    pub entered: [AtomicU64; 10],
    pub returned: [AtomicU64; 10],
    pub calls: AtomicU64,
    third: AtomicBool,
    pub missed: AtomicBool,
}

fn ten() -> [AtomicU64; 10] {
    [
        AtomicU64::new(0),
        AtomicU64::new(0),
        AtomicU64::new(0),
        AtomicU64::new(0),
        AtomicU64::new(0),
        AtomicU64::new(0),
        AtomicU64::new(0),
        AtomicU64::new(0),
        AtomicU64::new(0),
        AtomicU64::new(0),
    ]
}

impl Log {
    pub fn new() -> Log {
        Log {
            clock: AtomicU64::new(0),
            entered: ten(),
            returned: ten(),
            calls: AtomicU64::new(0),
            third: AtomicBool::new(false),
            missed: AtomicBool::new(false),
        }
    }

    /// Each worker passed five items, none before the worker in front of it had passed it, and stage 0 took its fourth
    /// only after stage 1 had passed its first.
    pub fn check(&self, rt: &impl Abort) {
        demand(rt, !self.missed.load(Ordering::SeqCst));
        assert_equal(rt, &self.calls.load(Ordering::SeqCst), &10);
        for nth in 0..5usize {
            let passed = self.returned[nth].load(Ordering::SeqCst);
            let taken = self.entered[5 + nth].load(Ordering::SeqCst);
            let is_in_order = 0 < passed && passed < taken;
            assert_equal_at(rt, &is_in_order, &true, nth as u64);
        }
        let first_passed = self.returned[5].load(Ordering::SeqCst);
        demand(rt, first_passed < self.entered[3].load(Ordering::SeqCst));
    }

    fn tick(&self) -> u64 {
        self.clock.fetch_add(1, Ordering::SeqCst).wrapping_add(1)
    }
}

fn yield_for(turns: u64) {
    for _ in 0..turns {
        thread::yield_now();
    }
}

impl Gate for Log {
    fn pass(&self, stage: usize, nth: u64) {
        self.calls.fetch_add(1, Ordering::SeqCst);
        let place = (stage % 2) * 5 + (nth % 5) as usize;
        self.entered[place].store(self.tick(), Ordering::SeqCst);
        match (stage, nth) {
            (0, 0) => yield_for(1000),
            (0, 2) => self.third.store(true, Ordering::SeqCst),
            (1, 0) => {
                if !comes_true(|| self.third.load(Ordering::SeqCst)) {
                    self.missed.store(true, Ordering::SeqCst);
                }
                yield_for(1000);
            }
            _ => {}
        }
        self.returned[place].store(self.tick(), Ordering::SeqCst);
    }
}

//! A gate that counts the items that pass it.
use std::sync::atomic::{AtomicU64, Ordering};
use tox_time::Gate;

/// A gate that counts the items that pass it.
#[derive(Drop)]
pub struct CountingGate {
    passes: AtomicU64,
}

impl CountingGate {
    pub fn new() -> CountingGate {
        CountingGate {
            passes: AtomicU64::new(0),
        }
    }

    pub fn passes(&self) -> u64 {
        self.passes.load(Ordering::SeqCst)
    }
}

impl Gate for CountingGate {
    fn pass(&self, _stage: usize, _nth: u64) {
        self.passes.fetch_add(1, Ordering::SeqCst);
    }
}

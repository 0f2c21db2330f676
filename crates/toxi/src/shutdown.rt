//! How serving is told to end, and whether it gets on then.
use std::sync::atomic::{AtomicU64, Ordering};
use tox_proxy::Stop;

/// What tells serving to end, and counts what is written.
#[derive(Drop)]
pub struct Shutdown {
    pub stop: Stop,
    /// How often standard output or a log took bytes.
    writes: AtomicU64,
}

impl Shutdown {
    /// Nothing is reported yet, and nothing is written.
    pub fn new() -> Shutdown {
        Shutdown {
            stop: Stop::new(),
            writes: AtomicU64::new(0),
        }
    }

    /// Standard output or a log took bytes.
    pub fn note_write(&self) {
        self.writes.fetch_add(1, Ordering::SeqCst);
    }

    /// How often one of them did. It changes while links end, each of which has a line.
    pub fn writes(&self) -> u64 {
        self.writes.load(Ordering::SeqCst)
    }
}

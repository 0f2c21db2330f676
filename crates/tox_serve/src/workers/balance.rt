//! How many links each worker has, so that connections are shared out.
ghost use Rattle.std.specs.Prelude.{◌≡◌, ◌-◌, ◌/◌, nat_lt};

use std::alloc::{AllocError, Global};
use std::sync::atomic::{AtomicU64, Ordering};

/// How many links each worker has.
#[derive(Drop)]
pub(crate) struct Balance {
    links: Vec<AtomicU64>,
}

impl Balance {
    /// No workers.
    pub(crate) fn new(alloc: Global) -> Balance {
        Balance {
            links: Vec::new(alloc),
        }
    }

    /// There is one more worker, which has no links.
    pub(crate) fn add_worker(&mut self) -> Result<(), AllocError> {
        self.links.push(AtomicU64::new(0))?;
        Ok(())
    }

    /// The worker at a place has so many links now.
    pub(crate) fn note(&self, worker: usize, links: u64) {
        if let Some(noted) = self.links.get(worker) {
            // Most often nothing has changed, and a store would take the cache line from the other workers.
            if noted.load(Ordering::SeqCst) != links {
                noted.store(links, Ordering::SeqCst);
            }
        }
    }

    /// The worker with the fewest links of those that a worker with so many leaves the next connection to. None if it takes it itself.
    pub(crate) fn next_worker(&self, own: u64) -> Option<usize> {
        let mut next = None;
        let mut fewest = own;
        for (worker, noted) in self.links.iter().enumerate() {
            let links = noted.load(Ordering::SeqCst);
            if links < fewest && leaves_next(own, links) {
                fewest = links;
                next = Some(worker);
            }
        }
        next
    }
}

/// Whether a worker leaves the next connection to another one: to one that has fewer links by over an eighth.
fn leaves_next(own: u64, other: u64) -> bool
    ensures { result ≡ nat_lt other (own - own / 8) }
{
    other < own - own / 8
}

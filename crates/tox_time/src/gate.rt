//! A hook for the items that running workers take.

/// Hook called before a worker processes an item.
pub trait Gate: Sync {
    /// Worker `stage` took its `nth` item, both counted from 0, and has not worked on it yet.
    fn pass(&self, stage: usize, nth: u64);
}

/// A gate that lets each worker pass at once.
#[derive(Drop)]
pub struct OpenGate;

impl Gate for OpenGate {
    fn pass(&self, _stage: usize, _nth: u64) {}
}

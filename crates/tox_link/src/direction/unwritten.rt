//! Slices that are not written to their end.
use tox_time::{Micros, Slice};

/// How many slices are written by one call at most: std hands the system the first four buffers.
pub(crate) const MAX_TOGETHER: usize = 4;

/// A slice that is being written, and the reading of the clock at which the core gave it.
#[derive(Clone, Copy, Default)]
pub struct Unwritten {
    pub slice: Slice,
    pub reading: Micros,
}

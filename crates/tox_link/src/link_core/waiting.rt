//! The pieces that wait for the runner: their lengths and instants.
use std::alloc::AllocError;
use tox_time::Micros;

/// A piece that waits: its length in bytes, and the instant at which it arrived.
#[derive(Clone, Copy, Default)]
pub struct WaitingPiece {
    pub len: u64,
    pub instant: Micros,
}

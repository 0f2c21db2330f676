//! When a link was taken.
use tox_sockets::LinkStart;

/// When a link was taken, by its own clock and by the worker's.
#[derive(Clone, Copy)]
pub(crate) struct TakenAt {
    pub(crate) start: LinkStart,
    pub(crate) worker: u64,
}

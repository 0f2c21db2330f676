//! The names of a worker's links.

/// Names a link of a worker. The next link in its slot has another generation.
#[derive(Clone, Copy)]
pub(crate) struct LinkKey {
    pub(crate) slot: u32,
    pub(crate) generation: u32,
}

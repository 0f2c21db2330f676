//! When a toxic lets chunks pass.

/// The time before which, and that from which on, a toxic lets chunks pass, in milliseconds. With 0 it never does.
#[derive(Clone, Copy, Debug, PartialEq, Eq)]
pub struct Window {
    pub from: u32,
    pub until: u32,
}

impl Window {
    /// It never lets chunks pass.
    pub(crate) const ALWAYS: Window = Window { from: 0, until: 0 };
}

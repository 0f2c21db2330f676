//! What a toxic does at most.

/// What is known of what a toxic does, whatever arrives. A `check` of a script asks it to find toxics that change nothing.
#[derive(Clone, Copy, Debug, PartialEq, Eq)]
pub struct Effect {
    /// It gives everything as it came.
    pub does_nothing: bool,
    /// It works on data alone: an ending passes unchanged.
    pub needs_data: bool,
    /// No data passes.
    pub drops_data: bool,
    /// It cuts chunks, and delays nothing.
    pub only_cuts: bool,
}

impl Effect {
    /// Nothing of all this is known.
    pub(crate) const ANY: Effect = Effect {
        does_nothing: false,
        needs_data: false,
        drops_data: false,
        only_cuts: false,
    };
}

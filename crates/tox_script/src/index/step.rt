//! A step of an index.

/// From a connection on, this rule is met, by its number from 0, or none.
#[derive(Clone, Copy, Debug, Drop, PartialEq, Eq)]
pub struct Step {
    pub first: u64,
    pub rule: Option<usize>,
}

//! An attribute of a toxic's type.
use crate::attributes::limits::{Limits, UP_TO_HOUR};
use crate::attributes::unit::Unit;

/// The value of an attribute that isn't given. One out of whose range it is has no default.
pub const ABSENT_VALUE: u64 = 0;

/// What an attribute of a type is called, what its values count and may be, and what it does.
#[derive(Clone, Copy)]
pub struct Attribute {
    pub name: &'static str,
    pub unit: Unit,
    pub limits: Limits,
    /// What it does, in a line.
    pub words: &'static str,
}

/// Until when a toxic works.
pub(crate) const UNTIL: Attribute = Attribute {
    name: "until",
    unit: Unit::Milliseconds,
    limits: UP_TO_HOUR,
    words: "stops at that time, and from then on all passes; 0: never",
};

/// From when a toxic works.
pub(crate) const FROM: Attribute = Attribute {
    name: "from",
    unit: Unit::Milliseconds,
    limits: UP_TO_HOUR,
    words: "begins at that time, and until then all passes; 0: at once",
};

impl Attribute {
    /// The value where none is given. None: one must be.
    pub fn default(&self) -> Option<u64> {
        if self.limits.has(ABSENT_VALUE) {
            Some(ABSENT_VALUE)
        } else {
            None
        }
    }
}

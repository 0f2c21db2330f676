//! Ranges of byte positions.

/// The most bytes of one link and stream: 2^40.
pub const MAX_BYTES: u64 = 1_099_511_627_776;

/// Half-open range `start..stop` of byte positions.
#[derive(Clone, Copy, Debug, Default, PartialEq, Eq, Hash)]
pub struct Span {
    pub start: u64,
    pub stop: u64,
}

//! What a link that ended reports.
use crate::source_ending::SourceEnding;
use tox_time::{Ending, Micros};

/// What a link that ended reports.
#[derive(Debug, PartialEq, Eq, Drop)]
pub struct LinkReport<S> {
    /// How many bytes the link took from its source.
    pub taken: u64,
    /// How many bytes it wrote.
    pub written: u64,
    /// How it ended.
    pub ending: Ending,
    /// How its source ended.
    pub source: SourceEnding,
    /// The reader.
    pub reader: S,
}

/// What a link that ended reports, and the reading of the clock at which it ended.
#[derive(Debug, PartialEq, Eq, Drop)]
pub struct TimedReport<S> {
    pub report: LinkReport<S>,
    pub reading: Micros,
}

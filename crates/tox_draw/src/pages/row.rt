//! What a page keeps of a log.
use crate::pages::outcome::Outcome;
use crate::pages::stream_end::StreamEnd;
use tox_log::Percentiles;
use tox_time::Stream;

/// A log that was judged.
#[derive(Drop)]
pub(crate) struct Row {
    /// The name of its file.
    pub(crate) name: String,
    pub(crate) facts: StreamFacts,
}

/// A log that can't be judged.
#[derive(Drop)]
pub(crate) struct Refusal {
    /// The name of its file.
    pub(crate) name: String,
    /// The text of the fault.
    pub(crate) fault: String,
}

/// What a log says of its stream.
#[derive(Drop)]
pub(crate) struct StreamFacts {
    /// The proxy's name, as it is printed.
    pub(crate) proxy: String,
    /// The link's number.
    pub(crate) link: u64,
    pub(crate) stream: Stream,
    pub(crate) seed: u64,
    /// The short forms of the applied toxics.
    pub(crate) toxics: String,
    /// The short forms of the others.
    pub(crate) skipped: String,
    /// How many bytes were heard, and how many were said.
    pub(crate) heard: u64,
    pub(crate) said: u64,
    pub(crate) outcome: Outcome,
    pub(crate) end: StreamEnd,
    pub(crate) late: Option<Percentiles>,
}

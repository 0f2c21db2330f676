//! What a link delivered.
use crate::streams::ending::Ending;
use crate::streams::slice::SliceList;

/// What a link delivered: its slices, and how it ended.
#[derive(Debug, Drop)]
pub struct Outcome {
    pub slices: SliceList,
    pub ending: Ending,
}

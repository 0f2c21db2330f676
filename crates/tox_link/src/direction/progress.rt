//! What a direction answers to an event.
use tox_time::{Ending, Micros};

/// What a direction that was driven does next.
#[derive(Clone, Copy, Debug, PartialEq, Eq)]
pub enum Progress {
    /// It waits for an end, at most until this instant if there is one.
    Waits(Option<Micros>),
    /// It may go on at once: its steps are used up.
    Again,
    /// It has ended in this way.
    Ended(Ending),
}

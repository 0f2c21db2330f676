//! One direction of a live link, and the book of a proxy's links.
#![tactic(auto)]

mod book;
mod carrying;
mod clock;
mod direction;
mod hangup;
mod link_core;
mod link_fault;
mod link_report;
mod notes;
mod ring;
mod source_ending;
mod steps;

pub use book::{Book, BookFault, OpenFault};
pub use carrying::{carry, carry_timed};
pub use clock::Clock;
pub use direction::{PollSink, PollSource, PolledLink, Progress, drive, finish};
pub use hangup::{Ends, Hangup};
pub use link_core::LinkCore;
pub use link_core::act::Act;
pub use link_fault::LinkFault;
pub use link_report::{LinkReport, TimedReport};
pub use notes::{LinkEvent, NoNotes, Notes};
pub use ring::message::ReadEnd;
pub use source_ending::SourceEnding;
pub use steps::read_size::{READ_SIZE, SCRATCH_SIZE};

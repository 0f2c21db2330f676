//! One direction of a live link as a step machine. It owns no clock, socket or thread.
mod asking;
mod drive_start;
mod parts;
mod poll_ends;
mod polled_link;
mod progress;
mod reading_on;
mod reading_once;
mod reporting;
mod stepping;
mod unwritten;
mod writing_on;

pub use poll_ends::{PollSink, PollSource};
pub use polled_link::PolledLink;
pub use progress::Progress;
pub use reporting::finish;
pub use stepping::drive;

//! The meaning of a chain in real threads: a worker for each applied toxic, with a ring before it and one behind it.
#![tactic(auto)]

mod collected;
mod fault;
mod levels;
mod sleepers;
mod source_and_sink;
mod waiting;
mod worker;

pub use fault::StageFault;
pub use levels::run_stages;

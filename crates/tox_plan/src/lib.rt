//! A plan at work: the runner, which cuts offered pieces into slices with no queue and no stage; and what a whole
//! list of arrivals comes to.
#![tactic(auto)]

mod cursor_endings;
mod delivery;
mod phase;
mod pulling;
mod runner;
mod slices;
mod starting;

pub use delivery::deliver;
pub use runner::Runner;
pub use slices::Slices;

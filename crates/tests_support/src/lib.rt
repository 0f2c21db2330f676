//! What the tests that cross crates share.
#![tactic(auto)]

mod counting_gate;
mod drawing;
mod meeting;
mod scarcity;
mod stacks;
mod tables;
mod tries;
mod values;

pub use counting_gate::CountingGate;
pub use drawing::{below, drawn_words};
pub use meeting::{Meeting, comes_true};
pub use scarcity::Scarcity;
pub use stacks::{keep_stacks, with_stacks};
pub use tables::table_of;
pub use tries::{MAX_TRIES, Refusals, Tried, answer_of, try_each};
pub use values::{arrivals_of, at, bytes_at_zero, chain_of, slice};

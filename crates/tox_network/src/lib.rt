//! The meaning of a chain: a network of stages with queues between them, which makes one move at a time in any order,
//! and the laws that hold of every run of it.
#![tactic(auto)]

mod delivered;
mod fault;
mod moves;
mod network;
mod queues;
mod stages;
mod waiting;

pub use delivered::Delivered;
pub use fault::StepFault;
pub use moves::Move;
pub use network::Network;
pub use waiting::Waiting;

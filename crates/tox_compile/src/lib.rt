//! A chain compiled into a plan: a list of operations that means what the chain means.
#![tactic(auto)]

mod chain_plan;
mod normal;
mod plan;

pub use chain_plan::compile;
pub use plan::{Plan, earlier};
pub use tox_defs::Op;

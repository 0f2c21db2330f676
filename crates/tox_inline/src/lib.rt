//! One proxy and its toxics as a command line gives them, and the two files that mean the same.
#![tactic(auto)]

mod fault;
mod populate_text;
mod script_text;
mod setup;
mod toxics;

pub use fault::InlineFault;
pub use setup::{Inline, InlineSetup, inline_setup};
pub use toxics::InlineToxic;

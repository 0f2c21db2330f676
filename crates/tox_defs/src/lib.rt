//! What a toxic does: the toxics, chains of them, and one toxic at work.
#![tactic(auto)]

mod attributes;
mod chain;
mod fault;
mod operations;
mod short;
mod stage;
mod toxic;
mod toxics;

pub use attributes::attribute::{ABSENT_VALUE, Attribute};
pub use attributes::effect::Effect;
pub use attributes::limits::Limits;
pub use attributes::unit::Unit;
pub use attributes::values::MAX_ATTRIBUTES;
pub use attributes::window::Window;
pub use chain::applied::Placed;
pub use chain::{Chain, Entry, MAX_TOXICITY, MAX_TOXICS};
pub use fault::{ShortFault, TooManyToxics, ToxicFault};
pub use operations::op::Op;
pub use operations::op_cursor::{Emission, OpCursor};
pub use operations::state::State;
pub use short::pairs::MAX_VALUE_DIGITS;
pub use short::read_short;
pub use stage::Stage;
pub use tox_words::{Drawing, Lanes};
pub use toxic::Toxic;

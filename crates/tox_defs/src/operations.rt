//! What one stage of a chain does, and what a plan is made of.
pub(crate) mod during;
pub(crate) mod look;
pub(crate) mod op;
pub(crate) mod op_cursor;
pub(crate) mod state;

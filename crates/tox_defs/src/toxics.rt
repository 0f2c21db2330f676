//! The toxics, each in a file of its own: its name, its attributes with their ranges, its operation, and what that operation finds.
pub(crate) mod bandwidth;
pub(crate) mod first_bytes;
pub(crate) mod halt;
pub(crate) mod latency;
pub(crate) mod limit_data;
pub(crate) mod ordered;
pub(crate) mod pieces;
pub(crate) mod reset_peer;
pub(crate) mod slicer;
pub(crate) mod slow_close;
pub(crate) mod timeout;
pub(crate) mod varied;

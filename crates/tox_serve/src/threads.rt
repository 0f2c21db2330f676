//! Serving with threads of its own for each link.
pub(crate) mod accepting;
mod connecting;
mod direction;
mod link;
pub(crate) mod proxy;

//! How far a link is.
use crate::workers::connecting::{Client, Connecting, Lacking};
use crate::workers::open_link::OpenLink;
use std::boxed::Box;

/// How far a link is.
#[derive(Drop)]
pub(crate) enum LinkState<'r, R> {
    /// It waits for the addresses of its upstream.
    Naming(Client),
    /// It waits for a descriptor.
    Lacking(Lacking<'r>),
    Connecting(Connecting),
    Open(Box<OpenLink<'r, R>>),
}

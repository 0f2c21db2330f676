//! An upstream that was reached.
use std::net::TcpStream;

/// The socket of an upstream that was reached.
#[derive(Drop)]
pub(crate) struct Reached {
    pub(crate) server: TcpStream,
    /// Whether it has reset the connection since.
    pub(crate) was_reset: bool,
}

//! What a worker's poll reports of a link's socket.
use crate::workers::subject::{Subject, token_of};
use mio::unix::SourceFd;
use mio::{Interest, Registry};
use std::net::TcpStream;
use std::os::fd::AsRawFd;

/// Has the poll of a registry report all that happens to a link's socket, urgent data too. False if it has no memory for it.
pub(super) fn register(registry: &Registry, socket: &TcpStream, subject: Subject) -> bool {
    let fd = socket.as_raw_fd();
    let all = Interest::READABLE | Interest::WRITABLE | Interest::PRIORITY;
    registry
        .register(&mut SourceFd(&fd), token_of(subject), all)
        .is_ok()
}

//! What a failed read tells of the peer.
use crate::link_sockets::LinkSockets;
use std::io;
use std::io::ErrorKind;
use tox_time::Stream;

/// A read of a stream's source failed so. A peer that has reset its connection is noted: any other failure is reported as an end.
pub(crate) fn note_failure(link: &LinkSockets, stream: Stream, error: &io::Error) {
    if error.kind() == ErrorKind::ConnectionReset {
        link.note_reset(stream);
    }
}

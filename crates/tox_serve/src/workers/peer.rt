//! The two sockets of a link.
ghost use Rattle.std.specs.Prelude.{◌≡◌};
ghost use Rattle.tox_serve.specs.workers.Peers.{stream_from};

use tox_time::Stream;

/// A socket of a link.
#[derive(Clone, Copy, PartialEq, Eq)]
pub(crate) enum Peer {
    Client,
    Server,
}

impl Peer {
    /// The stream whose bytes come from it.
    pub(crate) fn stream(self) -> Stream
        ensures { result ≡ stream_from self }
    {
        match self {
            Peer::Client => Stream::Upstream,
            Peer::Server => Stream::Downstream,
        }
    }
}

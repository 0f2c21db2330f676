//! The two directions of a link.
ghost use Rattle.std.specs.Prelude.{◌≡◌};
ghost use Rattle.tox_time.specs.streams.StreamName.{stream_name, stream_named};

/// One of the two directions of a link.
#[derive(Clone, Copy, Debug, PartialEq, Eq, Hash)]
pub enum Stream {
    /// From the client to the server.
    Upstream,
    /// From the server to the client.
    Downstream,
}

impl Stream {
    /// The name of the stream, as command lines and files write it.
    pub fn name(self) -> &'static str
        ensures { result.now ≡ stream_name self }
    {
        match self {
            Stream::Upstream => "upstream",
            Stream::Downstream => "downstream",
        }
    }

    /// The stream of this name, as command lines and files write it.
    pub fn of_name(name: &str) -> Option<Stream>
        ensures { result ≡ stream_named name.now }
    {
        match name {
            "upstream" => Some(Stream::Upstream),
            "downstream" => Some(Stream::Downstream),
            _ => None,
        }
    }
}

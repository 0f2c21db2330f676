//! One accepted connection, as the book keeps it: two sides, each with its bytes and how it stands.
ghost use Rattle.std.specs.Prelude.{◌≡◌};
ghost use Rattle.tox_link.specs.book.Links.{end_state, new_link, new_side, side_of, with_side};

use tox_time::{Ending, Stream};

/// How a side of a link stands.
#[derive(Clone, Copy)]
pub enum SideState {
    /// Bytes may still pass.
    Running,
    Ended(Ending),
    /// A fault broke it.
    Broken,
}

/// One direction of a link.
#[derive(Clone, Copy)]
pub struct Side {
    /// The bytes that passed: at most 2^40.
    pub bytes: u64,
    pub state: SideState,
}

/// One accepted connection.
#[derive(Clone, Copy)]
pub struct Link {
    pub upstream: Side,
    pub downstream: Side,
}

impl SideState {
    /// How a side stands that has ended, or that a fault broke.
    pub(crate) fn of_end(ending: Option<Ending>) -> SideState
        ensures { result ≡ end_state ending }
    {
        match ending {
            Some(ending) => SideState::Ended(ending),
            None => SideState::Broken,
        }
    }
}

impl Side {
    /// A side that has passed no byte.
    fn new() -> Side
        ensures { result ≡ new_side }
    {
        Side {
            bytes: 0,
            state: SideState::Running,
        }
    }
}

impl Link {
    /// A link as it is opened.
    pub(crate) fn new() -> Link
        ensures { result ≡ new_link }
    {
        Link {
            upstream: Side::new(),
            downstream: Side::new(),
        }
    }

    /// The side of this stream.
    pub(crate) fn side(&self, stream: Stream) -> Side
        ensures { result ≡ side_of stream self.now }
    {
        match stream {
            Stream::Upstream => self.upstream,
            Stream::Downstream => self.downstream,
        }
    }

    /// The link with another side of this stream.
    pub(crate) fn with_side(self, stream: Stream, side: Side) -> Link
        ensures { result ≡ with_side stream side self }
    {
        match stream {
            Stream::Upstream => Link {
                upstream: side,
                ..self
            },
            Stream::Downstream => Link {
                downstream: side,
                ..self
            },
        }
    }
}

//! Reading a socket of a link until the link is cut.
ghost use Rattle.std.specs.Prelude.{◌≡◌, IfSome};
ghost use Rattle.std.specs.Arc.{arc_value};
ghost use Rattle.tox_sockets.specs.Streams.{source_of};

use crate::failures::note_failure;
use crate::link_sockets::LinkSockets;
use std::alloc::Global;
use std::io;
use std::io::Read;
use std::net::TcpStream;
use std::sync::Arc;
use tox_time::Stream;

/// The source of a stream, read until its link is cut. What has come by then stays unread, so that closing the socket resets
/// it. A peer that only sends doesn't learn of the end otherwise: a socket that was shut and then read empty leaves it waiting
/// for room that nobody announces. A read that was under way then gives an end: whoever cut the link may have dropped the
/// bytes before it, and its failing is no fault of the source.
#[derive(Drop)]
pub struct UntilCut {
    pub link: Arc<LinkSockets, Global>,
    pub stream: Stream,
}

impl UntilCut {
    /// A reader of a stream's source. None where the link can't be shared by one more.
    pub fn new(link: &Arc<LinkSockets, Global>, stream: Stream) -> Option<UntilCut>
        ensures link { IfSome result (λ reader. arc_value reader.link ≡ arc_value link.now) }
        ensures stream { IfSome result (λ reader. reader.stream ≡ stream) }
    {
        let link = link.clone().ok()?;
        Some(UntilCut { link, stream })
    }

    /// The socket that is read.
    fn source(&self) -> &TcpStream
        ensures { result.now ≡ source_of self.now.stream (arc_value self.now.link) }
    {
        self.link.ends_of(self.stream).source
    }
}

impl Read for UntilCut {
    fn read(&mut self, buf: &mut [u8]) -> io::Result<usize> {
        if self.link.is_cut() {
            return Ok(0);
        }
        let answer = self.source().read(buf);
        if self.link.is_cut() {
            return Ok(0);
        }
        if let Err(error) = &answer {
            note_failure(&self.link, self.stream, error);
        }
        answer
    }
}

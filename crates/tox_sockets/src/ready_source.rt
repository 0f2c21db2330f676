//! Reading a socket of a link that doesn't wait, until the link is cut.
ghost use Rattle.std.specs.Prelude.{◌≡◌, ◌<◌, ◌≤◌, ◌||◌, false, true, None, IfNone, IfOk, IfSome, OnErr, OnOk, length, nat_eq};
ghost use Rattle.std.specs.Arc.{arc_value};
ghost use Rattle.tox_sockets.specs.Streams.{source_of};

use crate::failures::note_failure;
use crate::link_sockets::LinkSockets;
use crate::readiness::{read_on, would_wait};
use std::alloc::Global;
use std::net::TcpStream;
use std::sync::Arc;
use tox_link::PollSource;
use tox_time::{EndFault, Stream};

/// The source of a stream, a socket that doesn't wait. It is read only while it may give something, and until its link is cut:
/// see [`UntilCut`](crate::UntilCut).
#[derive(Drop)]
pub struct ReadySource {
    link: Arc<LinkSockets, Global>,
    pub stream: Stream,
    /// Whether a read may give something.
    readable: bool,
    /// Whether its peer was reported to send no more. A short read then doesn't mean that the socket is empty: the end is still
    /// to be read.
    closing: bool,
    /// Whether urgent data may have come. A read stops where they stand, so a short one doesn't mean that the socket is empty,
    /// until a read would wait.
    urgent: bool,
    failed: bool,
    /// Whether it has answered that it would wait.
    waits: bool,
}

impl ReadySource {
    /// A new reader of a stream's source, which may have something to read, and urgent data. `closing`: its peer was reported to have
    /// closed its writing half. None where the link can't be shared by one more.
    pub fn new(
        link: &Arc<LinkSockets, Global>,
        stream: Stream,
        closing: bool,
    ) -> Option<ReadySource>
        ensures link { IfSome result (λ reader. arc_value reader.link ≡ arc_value link.now) }
        ensures stream { IfSome result (λ reader. reader.stream ≡ stream) }
        ensures working { IfSome result (λ reader. reader.failed ≡ false) }
        ensures fresh { IfSome result (λ reader. (reader.readable ≡ true)
            × (reader.closing ≡ closing) × (reader.urgent ≡ true) × (reader.waits ≡ false)) }
    {
        let link = link.clone().ok()?;
        Some(ReadySource {
            link,
            stream,
            readable: true,
            closing,
            urgent: true,
            failed: false,
            waits: false,
        })
    }

    /// The system reported that a read may give something, and perhaps that the peer sends no more or has sent urgent data.
    pub fn note(&mut self, closing: bool, urgent: bool)
        ensures { self.new ≡ record self.old {
          readable = true;
          closing = self.old.closing || closing;
          urgent = self.old.urgent || urgent;
        } }
    {
        self.readable = true;
        self.closing = self.closing || closing;
        self.urgent = self.urgent || urgent;
    }

    /// The socket that is read.
    fn source(&self) -> &TcpStream
        ensures { result.now ≡ source_of self.now.stream (arc_value self.now.link) }
    {
        self.link.ends_of(self.stream).source
    }
}

impl PollSource for ReadySource {
    ghost failed = { λ source. source.failed };

    ghost remaining = { λ source. None };

    ghost waits = { λ source. source.waits };

    fn poll_read(&mut self, buffer: &mut [u8]) -> Result<Option<usize>, EndFault>
        requires { self.old.failed ≡ false }
        ensures count { IfOk result (λ got. IfSome got (λ n. n ≤ length buffer.new)) }
        ensures waits { IfOk result (λ got. IfNone got
            ((self.new.waits ≡ true) × (self.new.readable ≡ false))) }
        ensures more { IfOk result (λ got. IfSome got (λ n. 0 < n → self.new.readable
            ≡ (self.old.closing || self.old.urgent || nat_eq n (length buffer.new)))) }
        ensures urgent { IfOk result (λ got. IfSome got (λ n. self.new.urgent ≡ self.old.urgent)) }
        ensures working { OnOk result (self.new.failed ≡ false) }
        ensures fault { OnErr result (self.new.failed ≡ true) }
        ensures kept { (self.new.closing ≡ self.old.closing) × (self.new.stream ≡ self.old.stream) }
    {
        if self.link.is_cut() {
            return Ok(Some(0));
        }
        if !self.readable {
            self.waits = true;
            return Ok(None);
        }
        let answer = read_on(self.source(), buffer);
        if self.link.is_cut() {
            return Ok(Some(0));
        }
        match answer {
            Ok(count) => {
                self.readable = may_give_more(self.closing || self.urgent, count, buffer.len());
                Ok(Some(count))
            }
            Err(error) if would_wait(&error) => {
                self.readable = false;
                self.urgent = false;
                self.waits = true;
                Ok(None)
            }
            Err(error) => {
                note_failure(&self.link, self.stream, &error);
                self.failed = true;
                Err(EndFault)
            }
        }
    }
}

/// Whether a socket may give more behind a read of so many bytes into so much room. A short read may leave something behind
/// where the end or urgent data were reported.
fn may_give_more(reported: bool, count: usize, room: usize) -> bool
    ensures { result ≡ (reported || nat_eq count room) }
{
    reported || count == room
}

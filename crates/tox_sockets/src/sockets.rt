//! The two sockets of a served link, as the ends of one direction.
ghost use Rattle.std.specs.Prelude.{◌≡◌, None};
ghost use Rattle.tox_sockets.specs.Shutting.{shut_of};

use crate::abort_cause::AbortCause;
use crate::link_sockets::LinkSockets;
use crate::socket_calls::{read_now, reset};
use std::net::{Shutdown, TcpStream};
use tox_link::Hangup;
use tox_time::Ending;

/// How many reads at most drop what a peer has sent.
const MAX_READS: u64 = 1_024;

/// The sockets of one direction.
#[derive(Clone, Copy)]
pub struct Sockets<'a> {
    pub link: &'a LinkSockets,
    pub source: &'a TcpStream,
    pub target: &'a TcpStream,
    /// Why the link was aborted before the stream ended, if it was.
    pub aborted: Option<AbortCause>,
}

/// What is shut where a stream has ended.
#[derive(Clone, Copy, PartialEq, Eq)]
enum Shut {
    Nothing,
    /// The target's writing half.
    Writing,
    /// Both sockets. What the target sent is dropped.
    Both,
    /// Both sockets, by resets.
    Reset,
}

/// What is shut at a stream's ending. A close without the source's end shuts both sockets.
fn shut_of(ending: Ending, source_ended: bool) -> Shut
    ensures { result ≡ shut_of ending source_ended }
{
    match ending {
        Ending::StillOpen => Shut::Nothing,
        Ending::Closed(_) if source_ended => Shut::Writing,
        Ending::Closed(_) => Shut::Both,
        Ending::Reset(_) => Shut::Reset,
    }
}

impl<'a> Sockets<'a> {
    /// Shuts the target's writing half, unless the link was cut: its source may have ended by that alone, and a peer that
    /// hears an end takes no reset after it.
    fn end_writing(&self) {
        if !self.link.is_cut() {
            let _ = self.target.shutdown(Shutdown::Write);
        }
    }

    /// Shuts both sockets. What the source sent stays unread. What the target sent is dropped first: a socket that is shut
    /// announces no room, and a peer that waits for it would not learn of it. Leaving it unread would reset the target, which
    /// drops the last bytes that were written to it.
    fn close(&self) {
        if !self.link.cut_to_close() {
            return;
        }
        let _ = self.target.shutdown(Shutdown::Write);
        drop_unread(self.target);
        let _ = self.source.shutdown(Shutdown::Both);
        let _ = self.target.shutdown(Shutdown::Both);
    }

    /// Resets both sockets, unless the link was cut before: what was written before a close is still on its way.
    pub fn reset(&self) {
        if self.link.cut_to_reset() {
            reset_surely(self.source);
            reset_surely(self.target);
        }
    }
}

impl<'a> Hangup for Sockets<'a> {
    ghost calls = { λ sockets. None };

    fn hang_up(&mut self, ending: Ending, source_ended: bool) {
        self.aborted = self.link.abort_cause();
        match shut_of(ending, source_ended) {
            Shut::Nothing => {}
            Shut::Writing => self.end_writing(),
            Shut::Both => self.close(),
            Shut::Reset => self.reset(),
        }
    }
}

/// Resets a socket. Linux 6.4 and 6.5 refuse that while a thread waits for the socket, which goes on once it reads an end.
/// A socket that can't be reset is shut.
fn reset_surely(socket: &TcpStream) {
    if reset(socket).is_err() {
        let _ = socket.shutdown(Shutdown::Read);
        let _ = reset(socket);
        let _ = socket.shutdown(Shutdown::Both);
    }
}

/// Reads and drops what a peer has sent, so that there is room again.
fn drop_unread(socket: &TcpStream) {
    let mut bytes = [0; 16_384];
    for _ in 0..MAX_READS {
        match read_now(socket, &mut bytes) {
            Ok(count) if count == bytes.len() => {}
            _ => return,
        }
    }
}

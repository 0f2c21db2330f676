//! Writing a socket of a link until the reset of its stream is due.
ghost use Rattle.std.specs.Prelude.{◌≡◌, ℕ, false, None, fold};
ghost use Rattle.std.specs.Io.{WritesAtMost};
ghost use Rattle.tox_sockets.specs.Bound.{is_reached};
ghost use Rattle.tox_sockets.specs.ResetDue.{after_op};
ghost use Rattle.tox_sockets.specs.Streams.{target_of};

use crate::bound::is_reached;
use crate::clock::SinceStart;
use crate::link_sockets::LinkSockets;
use crate::reset_due::reset_due;
use std::io;
use std::io::{ErrorKind, Write};
use std::net::TcpStream;
use std::sync::Wait;
use std::time::{Clock, Duration};
use tox_defs::Op;
use tox_link::Clock as LinkClock;
use tox_time::{Micros, Stream};

/// How long a write waits for room before the clock is read again, in milliseconds.
const MAX_WAIT: u64 = 10;

/// A socket whose writes wait for room until the instant by which its plan resets the stream. From then on a write that finds
/// no room fails, so that a peer that doesn't read can't hold up the reset. Without an instant a write waits for ever. Once the
/// link is aborted every write fails, an empty one too, by which a link that waits asks whether it goes on.
#[derive(Drop)]
pub struct UntilDue<'a, 'r, R> {
    rt: &'r R,
    link: &'a LinkSockets,
    pub socket: &'a TcpStream,
    clock: SinceStart<'r, R>,
    pub due: Option<Micros>,
    /// Whether the last write found too little room.
    is_full: bool,
}

impl<'a, 'r, R: Wait + Clock> UntilDue<'a, 'r, R> {
    /// A writer of a stream's target, for a plan of these operations.
    pub fn new(
        rt: &'r R,
        link: &'a LinkSockets,
        stream: Stream,
        clock: SinceStart<'r, R>,
        ops: &[Op],
    ) -> UntilDue<'a, 'r, R>
        ensures socket { result.socket.now ≡ target_of stream link.now }
        ensures due { result.due ≡ fold after_op None ops.now }
        ensures full { result.is_full ≡ false }
        ensures clock { result.clock.start ≡ clock.entry.start }
    {
        let due = reset_due(ops);
        let socket = link.ends_of(stream).target;
        if due.is_some() {
            // A socket that is gone by now refuses the option, and its first write tells.
            let _ = socket.set_write_timeout(Some(Duration::from_millis(MAX_WAIT)));
        }
        UntilDue {
            rt,
            link,
            socket,
            clock,
            due,
            is_full: false,
        }
    }

    /// Whether the reset is due at what the clock tells.
    fn is_due(&self) -> bool
        ensures { (reading : ℕ) × (result ≡ is_reached self.now.due reading) }
    {
        is_reached(self.due, self.clock.now())
    }

    /// Writes as much as there is room for. Without room it waits while the reset isn't due.
    fn write_in_time(&self, bytes: &[u8]) -> io::Result<usize>
        ensures { WritesAtMost result bytes.now }
    {
        let mut socket = self.socket;
        for _ in self.rt.forever() {
            match socket.write(bytes) {
                Ok(count) => return Ok(count),
                Err(error) => {
                    if !is_momentary(&error) || self.is_due() {
                        return Err(error);
                    }
                }
            }
        }
        unreachable!()
    }
}

/// Whether a write failed because there was no room. After a stop and continue of the process it fails as interrupted.
fn is_momentary(error: &io::Error) -> bool {
    matches!(error.kind(), ErrorKind::WouldBlock | ErrorKind::Interrupted)
}

impl<'a, 'r, R: Wait + Clock> Write for UntilDue<'a, 'r, R> {
    fn write(&mut self, bytes: &[u8]) -> io::Result<usize> {
        if self.link.is_aborted() {
            return Err(ErrorKind::ConnectionReset.into());
        }
        if bytes.is_empty() {
            return Ok(0);
        }
        if self.is_full && self.is_due() {
            return Err(ErrorKind::TimedOut.into());
        }
        let count = self.write_in_time(bytes)?;
        self.is_full = count < bytes.len();
        Ok(count)
    }

    fn flush(&mut self) -> io::Result<()> {
        Ok(())
    }
}

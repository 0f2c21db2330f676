//! Writing a socket of a link that doesn't wait, until the reset of its stream is due.
ghost use Rattle.std.specs.Prelude.{◌≡◌, ℕ, Ok, false, true, not, None, fold, IfOk, IfSome, MatchBool, OnErr, length, nat_lt};
ghost use Rattle.tox_time.specs.Ends.{takes_nothing};
ghost use Rattle.tox_sockets.specs.Bound.{is_reached};
ghost use Rattle.std.specs.Arc.{arc_value};
ghost use Rattle.std.specs.Io.Slices.{io_slices_bytes};
ghost use Rattle.tox_sockets.specs.ResetDue.{after_op};
ghost use Rattle.tox_sockets.specs.Streams.{target_of};

use crate::bound::is_reached;
use crate::clock::{LinkStart, SinceStart};
use crate::link_sockets::LinkSockets;
use crate::readiness::{is_all, would_wait, write_on};
use crate::reset_due::reset_due;
use std::alloc::Global;
use std::io::IoSlice;
use std::net::TcpStream;
use std::sync::Arc;
use std::time::Clock;
use tox_defs::Op;
use tox_link::{Clock as LinkClock, PollSink};
use tox_time::{EndFault, Micros, Stream};

/// The target of a stream, a socket that doesn't wait. From the instant by which its plan resets the stream, a write that finds
/// no room fails, so that a peer that doesn't read can't hold up the reset. Once the link is aborted every write fails.
#[derive(Drop)]
pub struct ReadySink<'r, R> {
    rt: &'r R,
    link: Arc<LinkSockets, Global>,
    pub stream: Stream,
    start: LinkStart,
    pub due: Option<Micros>,
    /// Whether a write may take something.
    writable: bool,
    /// Whether the last write found too little room.
    full: bool,
    failed: bool,
    /// Whether it has answered that it would wait.
    waits: bool,
}

impl<'r, R: Clock> ReadySink<'r, R> {
    /// A writer of a stream's target, for a plan of these operations. None where the link can't be shared by one more.
    pub fn new(
        rt: &'r R,
        link: &Arc<LinkSockets, Global>,
        stream: Stream,
        start: LinkStart,
        ops: &[Op],
    ) -> Option<ReadySink<'r, R>>
        ensures link { IfSome result (λ writer. arc_value writer.link ≡ arc_value link.now) }
        ensures stream { IfSome result (λ writer. writer.stream ≡ stream) }
        ensures due { IfSome result (λ writer. writer.due ≡ fold after_op None ops.now) }
        ensures working { IfSome result (λ writer. writer.failed ≡ false) }
        ensures fresh { IfSome result (λ writer. (writer.start ≡ start)
            × (writer.writable ≡ true) × (writer.full ≡ false) × (writer.waits ≡ false)) }
    {
        let link = link.clone().ok()?;
        let due = reset_due(ops);
        Some(ReadySink {
            rt,
            link,
            stream,
            start,
            due,
            writable: true,
            full: false,
            failed: false,
            waits: false,
        })
    }

    /// The system reported that a write may take something. Whether that is news.
    pub fn note(&mut self) -> bool
        ensures news { result ≡ not self.old.writable }
        ensures noted { self.new ≡ record self.old { writable = true } }
    {
        let news = !self.writable;
        self.writable = true;
        news
    }

    /// Fails the sink if its link is aborted. Whether it is.
    pub fn fail_if_aborted(&mut self) -> bool
        ensures { MatchBool result
            (self.new ≡ record self.old { failed = true })
            (self.new ≡ self.old) }
    {
        let aborted = self.link.is_aborted();
        if aborted {
            self.failed = true;
        }
        aborted
    }

    /// Whether the reset is due at what the clock tells.
    fn is_due(&self) -> bool
        ensures { (reading : ℕ) × (result ≡ is_reached self.now.due reading) }
    {
        let clock = SinceStart::new(self.rt, self.start);
        is_reached(self.due, clock.now())
    }

    /// The socket that is written.
    fn target(&self) -> &TcpStream
        ensures { result.now ≡ target_of self.now.stream (arc_value self.now.link) }
    {
        self.link.ends_of(self.stream).target
    }

    /// Writes fail from now on.
    fn fail(&mut self) -> EndFault
        ensures { self.new ≡ record self.old { failed = true } }
    {
        self.failed = true;
        EndFault
    }

    /// A write took so many of these bytes. If it took fewer than all, the next one waits until the system reports room.
    fn took(&mut self, count: usize, buffers: &[IoSlice<'_>])
        ensures room { self.new.full ≡ nat_lt count (length (io_slices_bytes buffers.now)) }
        ensures news { self.new.writable ≡ not self.new.full }
        ensures failed { self.new.failed ≡ takes_nothing count (io_slices_bytes buffers.now) }
        ensures kept { (self.new.waits ≡ self.old.waits) × (self.new.due ≡ self.old.due) }
    {
        self.full = !is_all(count, buffers);
        self.writable = !self.full;
        self.failed = count == 0 && self.full;
    }

    /// There was too little room. It waits for more, unless the reset is due.
    fn wait(&mut self) -> Result<Option<usize>, EndFault>
        ensures waits { IfOk result (λ took. (took ≡ None) × (self.new.waits ≡ true)
            × (self.new.failed ≡ self.old.failed)) }
        ensures fails { OnErr result (self.new.failed ≡ true) }
        ensures endless { self.old.due ≡ None → result ≡ Ok None }
        ensures full { (self.new.writable ≡ false) × (self.new.full ≡ true) }
    {
        self.writable = false;
        self.full = true;
        if self.is_due() {
            return Err(self.fail());
        }
        self.waits = true;
        Ok(None)
    }
}

impl<'r, R: Clock> PollSink for ReadySink<'r, R> {
    ghost failed = { λ sink. sink.failed };

    ghost written = { λ sink. None };

    ghost waits = { λ sink. sink.waits };

    ghost due = { λ sink. sink.due };

    fn poll_write(&mut self, buffers: &[IoSlice<'_>]) -> Result<Option<usize>, EndFault> {
        if self.link.is_aborted() || (self.full && self.is_due()) {
            return Err(self.fail());
        }
        if !self.writable {
            return self.wait();
        }
        match write_on(self.target(), buffers) {
            Ok(count) => {
                self.took(count, buffers);
                Ok(Some(count))
            }
            Err(error) if would_wait(&error) => self.wait(),
            Err(_) => Err(self.fail()),
        }
    }

    fn due(&self) -> Option<Micros> {
        self.due
    }
}

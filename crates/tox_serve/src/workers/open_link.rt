//! A link whose upstream is connected: its sockets and its two directions.
ghost use Rattle.std.specs.Prelude.{◌≡◌, false, true, not, IfSome};
ghost use Rattle.tox_time.specs.declared.streams.stream.Stream.TheVariants as StreamOf;

use crate::link::break_reason::BreakReason;
use crate::link::course::Courses;
use crate::link::end::LinkEnd;
use crate::link::opening::Opened;
use crate::workers::flow::Flow;
use crate::workers::link_name::LinkName;
use crate::workers::open_direction::OpenDirection;
use crate::workers::peer::Peer;
use crate::workers::socket_event::SocketEvent;
use crate::workers::taken_at::TakenAt;
use std::alloc::Global;
use std::boxed::Box;
use std::sync::{Arc, Wait};
use std::time::Clock;
use tox_link::{LinkFault, Progress, SCRATCH_SIZE};
use tox_log::StreamNotes;
use tox_sockets::LinkSockets;
use tox_time::{Micros, Stream};

/// A link whose upstream is connected.
#[derive(Drop)]
pub(crate) struct OpenLink<'r, R> {
    pub(crate) number: u64,
    /// The place of its proxy.
    pub(crate) proxy: usize,
    sockets: Arc<LinkSockets, Global>,
    /// Its key among the live sockets.
    pub(crate) live: usize,
    since: TakenAt,
    up: OpenDirection<'r, R>,
    down: OpenDirection<'r, R>,
    ghost upstream: { up.stream ≡ StreamOf.Upstream },
    ghost downstream: { down.stream ≡ StreamOf.Downstream },
}

impl<'r, R: Clock + Wait> OpenLink<'r, R> {
    ghost use Rattle.tox_serve.specs.workers.Begun.{IsMadeOf, IsNewDirection};
    ghost use Rattle.tox_serve.specs.workers.Directions.{IsBrokenOffFrom, is_armed};
    ghost use Rattle.tox_serve.specs.workers.OpenLinks.{Arms, Disarms, IsSameLink, SetsTurn, direction_of, end_of};
    ghost use Rattle.tox_serve.specs.workers.Peers.{other_stream, stream_from};
    ghost use Rattle.tox_serve.specs.workers.Reports.{IsAfterSource, IsAfterTarget, IsNotedSo};
    ghost use Rattle.tox_serve.specs.workers.Steps.{Runs, needs_timer, worker_instant};

    /// A link that was opened, new and without logs. `closing`: its client was reported to have closed its writing half. None if out
    /// of memory.
    pub(crate) fn new(
        rt: &'r R,
        alloc: Global,
        opened: Opened,
        proxy: usize,
        since: TakenAt,
        closing: bool,
    ) -> Option<Box<OpenLink<'r, R>>>
        requires up { opened.courses.up.stream ≡ StreamOf.Upstream }
        requires down { opened.courses.down.stream ≡ StreamOf.Downstream }
        ensures parts { IfSome result (λ link. IsMadeOf opened proxy since link.value) }
        ensures up { IfSome result
            (λ link. IsNewDirection opened.courses.up closing link.value.up) }
        ensures down { IfSome result
            (λ link. IsNewDirection opened.courses.down false link.value.down) }
    {
        let Opened {
            number,
            courses,
            sockets,
            live,
        } = opened;
        let Courses { up, down } = courses;
        let up = Flow::new(rt, alloc, &sockets, since.start, up, closing)?;
        let down = Flow::new(rt, alloc, &sockets, since.start, down, false)?;
        let link = OpenLink {
            number,
            proxy,
            sockets,
            live,
            since,
            up: OpenDirection::new(up),
            down: OpenDirection::new(down),
        };
        match Box::new(alloc, link) {
            Ok(link) => Some(link),
            Err(_) => None,
        }
    }

    /// The name of the link.
    pub(crate) fn name(&self) -> LinkName
        ensures { result ≡ record { place = self.now.proxy; number = self.now.number } }
    {
        LinkName {
            place: self.proxy,
            number: self.number,
        }
    }

    /// Replaces the notes of its streams.
    pub(crate) fn log(&mut self, up: StreamNotes<'r, R>, down: StreamNotes<'r, R>)
        ensures up { IsNotedSo up.entry self.old.up.state self.new.up.state }
        ensures down { IsNotedSo down.entry self.old.down.state self.new.down.state }
        ensures armed { (self.new.up.armed ≡ self.old.up.armed)
            × (self.new.down.armed ≡ self.old.down.armed) }
        ensures turns { (self.new.up.has_turn ≡ self.old.up.has_turn)
            × (self.new.down.has_turn ≡ self.old.down.has_turn) }
        ensures same { IsSameLink self.old self.new }
    {
        self.up.log(up);
        self.down.log(down);
    }

    /// Notes an event of a socket. Whether the direction that reads from it is to be driven, and whether the one that writes to it.
    pub(crate) fn note(&mut self, peer: Peer, event: &SocketEvent) -> (bool, bool)
        ensures source { IsAfterSource event.now (direction_of (stream_from peer) self.old)
            (direction_of (stream_from peer) self.new) result.0 }
        ensures target { IsAfterTarget event.now
            (direction_of (other_stream (stream_from peer)) self.old)
            (direction_of (other_stream (stream_from peer)) self.new) result.1 }
        ensures same { IsSameLink self.old self.new }
    {
        match peer {
            Peer::Client => (self.up.note_source(event), self.down.note_target(event)),
            Peer::Server => (self.down.note_source(event), self.up.note_target(event)),
        }
    }

    /// Claims a turn for a direction. False if it has one.
    pub(crate) fn claim_turn(&mut self, stream: Stream) -> bool
        ensures claims { result ≡ not (direction_of stream self.old).has_turn }
        ensures claimed { SetsTurn stream true self.old self.new }
    {
        match stream {
            Stream::Upstream => self.up.claim_turn(),
            Stream::Downstream => self.down.claim_turn(),
        }
    }

    /// Takes the turn of a direction.
    pub(crate) fn take_turn(&mut self, stream: Stream)
        ensures { SetsTurn stream false self.old self.new }
    {
        match stream {
            Stream::Upstream => self.up.take_turn(),
            Stream::Downstream => self.down.take_turn(),
        }
    }

    /// Whether a direction waits for a timer that is due at an instant.
    pub(crate) fn is_armed(&self, stream: Stream, due: u64) -> bool
        ensures { result ≡ is_armed due (direction_of stream self.now).armed }
    {
        match stream {
            Stream::Upstream => self.up.is_armed(due),
            Stream::Downstream => self.down.is_armed(due),
        }
    }

    /// A timer of a direction has fired.
    pub(crate) fn disarm(&mut self, stream: Stream, due: u64)
        ensures { Disarms stream due self.old self.new }
    {
        match stream {
            Stream::Upstream => self.up.disarm(due),
            Stream::Downstream => self.down.disarm(due),
        }
    }

    /// An instant of the link's clock, by the worker's.
    pub(crate) fn worker_instant(&self, until: Micros) -> u64
        ensures { result ≡ worker_instant self.now.since.worker until }
    {
        self.since.worker.saturating_add(until.get())
    }

    /// A direction waits until an instant of the worker's clock. Whether that needs a new timer.
    pub(crate) fn arm(&mut self, stream: Stream, due: u64) -> bool
        ensures needs { result ≡ needs_timer (direction_of stream self.old).armed due }
        ensures arms { Arms stream due self.old self.new }
    {
        match stream {
            Stream::Upstream => self.up.arm(due),
            Stream::Downstream => self.down.arm(due),
        }
    }

    /// Drives a direction for its turn, and returns the answer. A direction that has ended waits.
    pub(crate) fn run_direction(
        &mut self,
        rt: &'r R,
        alloc: Global,
        stream: Stream,
        scratch: &mut [u8; SCRATCH_SIZE],
    ) -> Result<Progress, LinkFault>
        ensures runs { Runs (direction_of stream self.old) (direction_of stream self.new) result }
        ensures other { direction_of (other_stream stream) self.new
            ≡ direction_of (other_stream stream) self.old }
        ensures same { IsSameLink self.old self.new }
    {
        let start = self.since.start;
        match stream {
            Stream::Upstream => self.up.run(rt, alloc, &self.sockets, start, scratch),
            Stream::Downstream => self.down.run(rt, alloc, &self.sockets, start, scratch),
        }
    }

    /// Breaks the link off: out of memory.
    pub(crate) fn break_off(&mut self)
        ensures up { IsBrokenOffFrom StreamOf.Upstream self.old.up.state self.new.up.state }
        ensures down { IsBrokenOffFrom StreamOf.Downstream self.old.down.state self.new.down.state }
        ensures same { IsSameLink self.old self.new }
    {
        self.up.break_off(&self.sockets);
        self.down.break_off(&self.sockets);
    }

    /// Why the link broke, if both its directions have ended, and it did.
    pub(crate) fn break_reason(&self) -> Option<BreakReason> {
        let up = self.up.carried()?;
        let down = self.down.carried()?;
        BreakReason::of(up, down)
    }

    /// How the link ended, if both its directions have.
    pub(crate) fn end(&self) -> Option<LinkEnd>
        ensures number { IfSome result (λ end. end.number ≡ self.now.number) }
        ensures both { result ≡ end_of self.now }
    {
        let up = self.up.carried()?;
        let down = self.down.carried()?;
        Some(LinkEnd::of(self.number, up, down))
    }
}

//! Driving the directions of links, each in its turn. An event or a timer gives a turn, and so does a drive that may go on.
ghost use Rattle.std.specs.Prelude.{◌≡◌, ◌<◌, ◌⊎◌, All, IfSome};
ghost use Rattle.std.specs.Bool.{OnTrue};
ghost use Rattle.tox_serve.specs.workers.OpenLinks.{IsSameLink};
ghost use Rattle.tox_serve.specs.workers.Peers.{other_stream};
ghost use Rattle.tox_serve.specs.workers.Settled.{IsSettled, open_at};
ghost use Rattle.tox_serve.specs.workers.Steps.{worker_instant};
ghost use Rattle.tox_serve.specs.workers.Timers.{timers_of};
ghost use Rattle.tox_serve.specs.workers.Turns.{HasTimer, HasTurn, IsBrokenOff, IsScheduled, RunsTurn};
ghost use Rattle.tox_serve.specs.workers.Worked.{TakesTimer, TakesTurn};

use crate::runtime::ServeRuntime;
use crate::workers::link_key::LinkKey;
use crate::workers::link_state::LinkState;
use crate::workers::open_link::OpenLink;
use crate::workers::peer::Peer;
use crate::workers::socket_event::SocketEvent;
use crate::workers::timers::{Timers, Turn};
use crate::workers::worker::Worker;
use std::boxed::Box;
use std::mem;
use std::sync::Wait;
use std::time::Clock;
use tox_link::{LinkFault, Progress, SCRATCH_SIZE};
use tox_time::{Micros, Stream};

/// The other stream of a link.
fn other(stream: Stream) -> Stream
    ensures { result ≡ other_stream stream }
{
    match stream {
        Stream::Upstream => Stream::Downstream,
        Stream::Downstream => Stream::Upstream,
    }
}

/// Gives a direction of a link a turn behind all others, unless one of it waits. False if out of memory.
fn give_turn<R: Clock + Wait>(turns: &mut Vec<Turn>, link: &mut OpenLink<'_, R>, turn: Turn) -> bool
    ensures given { OnTrue result
        (HasTurn turn link.old link.new turns.old.items turns.new.items) }
    ensures states { (link.new.up.state ≡ link.old.up.state)
        × (link.new.down.state ≡ link.old.down.state) }
    ensures same { IsSameLink link.old link.new }
{
    if link.claim_turn(turn.stream) {
        turns.push(turn).is_ok()
    } else {
        true
    }
}

/// Gives a direction of a link a timer at an instant of the link's clock, unless one is set that is due by then. False if out of memory.
fn give_timer<R: Clock + Wait>(
    timers: &mut Timers,
    link: &mut OpenLink<'_, R>,
    turn: Turn,
    until: Micros,
) -> bool
    ensures given { OnTrue result (HasTimer turn (worker_instant link.old.since.worker until)
        link.old link.new (timers_of timers.old) (timers_of timers.new)) }
    ensures states { (link.new.up.state ≡ link.old.up.state)
        × (link.new.down.state ≡ link.old.down.state) }
{
    let due = link.worker_instant(until);
    if link.arm(turn.stream, due) {
        timers.set(due, turn)
    } else {
        true
    }
}

/// Schedules a direction's next drive, by what its last one answered. Once it has ended the other one has a turn: its sockets may have
/// been cut. False if out of memory.
fn schedule<R: Clock + Wait>(
    timers: &mut Timers,
    turns: &mut Vec<Turn>,
    link: &mut OpenLink<'_, R>,
    turn: Turn,
    answer: Result<Progress, LinkFault>,
) -> bool
    ensures again { OnTrue result (IsScheduled turn answer link.old link.new
        (timers_of timers.old) (timers_of timers.new) turns.old.items turns.new.items) }
    ensures states { (link.new.up.state ≡ link.old.up.state)
        × (link.new.down.state ≡ link.old.down.state) }
{
    match answer {
        Ok(Progress::Waits(None)) => true,
        Ok(Progress::Waits(Some(until))) => give_timer(timers, link, turn, until),
        Ok(Progress::Again) => give_turn(turns, link, turn),
        Ok(Progress::Ended(_)) | Err(_) => {
            let after = Turn {
                key: turn.key,
                stream: other(turn.stream),
            };
            give_turn(turns, link, after)
        }
    }
}

impl<'s, R: ServeRuntime> Worker<'s, R> {
    /// The system reported something of a link's socket.
    pub(super) fn on_socket(&mut self, key: LinkKey, peer: Peer, event: &SocketEvent) {
        match self.links.take(key) {
            Some(LinkState::Open(link)) => self.on_open(key, link, peer, event),
            Some(state) => self.on_unopened(key, state, peer, event),
            None => {}
        }
    }

    /// Gives turns to the directions of an open link that wait for what the system reported, and first to the one that reads from
    /// the socket: what its peer said last is carried before a failed write resets both.
    fn on_open(
        &mut self,
        key: LinkKey,
        link: Box<OpenLink<'s, R>>,
        peer: Peer,
        event: &SocketEvent,
    ) {
        let mut link = link;
        let (source, target) = link.note(peer, event);
        let stream = peer.stream();
        if source {
            self.give(key, &mut link, stream);
        }
        if target {
            self.give(key, &mut link, other(stream));
        }
        self.settle(key, link);
    }

    /// Gives a direction a turn. Out of memory the link is broken off.
    fn give(&mut self, key: LinkKey, link: &mut OpenLink<'s, R>, stream: Stream)
        ensures given { HasTurn (record { key = key; stream = stream }) link.old link.new
            self.old.turns.items self.new.turns.items ⊎ IsBrokenOff link.old link.new }
        ensures same { (self.new.links ≡ self.old.links) × (self.new.timers ≡ self.old.timers) }
    {
        if !give_turn(&mut self.turns, link, Turn { key, stream }) {
            link.break_off();
        }
    }

    /// Gives both directions of an open link a turn, and puts it into its place.
    pub(super) fn give_both(&mut self, key: LinkKey, link: Box<OpenLink<'s, R>>) {
        let mut link = link;
        self.give(key, &mut link, Stream::Upstream);
        self.give(key, &mut link, Stream::Downstream);
        self.settle(key, link);
    }

    /// Drives a direction for its turn, and schedules its next drive. Out of memory the link is broken off.
    fn run_turn(
        &mut self,
        key: LinkKey,
        link: &mut OpenLink<'s, R>,
        stream: Stream,
        scratch: &mut [u8; SCRATCH_SIZE],
    )
        ensures runs { RunsTurn (record { key = key; stream = stream }) link.old link.new
            (timers_of self.old.timers) (timers_of self.new.timers)
            self.old.turns.items self.new.turns.items }
        ensures same { self.new.links ≡ self.old.links }
    {
        let answer = link.run_direction(self.rt, self.run.alloc, stream, scratch);
        let turn = Turn { key, stream };
        if !schedule(&mut self.timers, &mut self.turns, link, turn, answer) {
            link.break_off();
        }
    }

    /// Puts a link back that was driven. One that has ended is closed, and its line is printed.
    pub(super) fn settle(&mut self, key: LinkKey, link: Box<OpenLink<'s, R>>)
        ensures settled { IsSettled key link.entry self.old.links.places self.new.links.places }
        ensures same { (self.new.timers ≡ self.old.timers) × (self.new.turns ≡ self.old.turns) }
    {
        let Some(end) = link.end() else {
            self.links.put(key, LinkState::Open(link));
            return;
        };
        self.links.close(key);
        self.run.live.remove(self.rt, link.live);
        let name = link.name();
        self.note_ended(&link);
        drop(link);
        self.end_link(name, &end);
    }

    /// Drives each direction whose turn it is.
    pub(super) fn take_turns(&mut self, scratch: &mut [u8; SCRATCH_SIZE]) {
        let spare = mem::replace(&mut self.no_turns, Vec::new(self.run.alloc));
        let mut turns = mem::replace(&mut self.turns, spare);
        for turn in &turns {
            self.take_turn(*turn, scratch);
        }
        turns.clear();
        self.no_turns = turns;
    }

    /// Drives a direction whose turn it is, if its link is open.
    fn take_turn(&mut self, turn: Turn, scratch: &mut [u8; SCRATCH_SIZE])
        ensures { IfSome (open_at turn.key self.old.links.places)
            (λ link. TakesTurn turn link self.old self.new) }
    {
        let Turn { key, stream } = turn;
        match self.links.take(key) {
            Some(LinkState::Open(link)) => {
                let mut link = link;
                link.take_turn(stream);
                self.run_turn(key, &mut link, stream, scratch);
                self.settle(key, link);
            }
            Some(state) => self.links.put(key, state),
            None => {}
        }
    }

    /// Takes the timers that are due by an instant of the worker's clock.
    pub(super) fn fire(&mut self, now: u64)
        ensures { All (λ timer. now < timer.due) (timers_of self.new.timers) }
    {
        self.timers.purge(&self.links);
        let rt = self.rt;
        for _ in rt.forever() {
            let Some((due, turn)) = self.timers.pop_due(now) else {
                return;
            };
            self.on_timer(due, turn);
        }
        unreachable!()
    }

    /// A timer is over: the direction has a turn, or what isn't open goes on.
    fn on_timer(&mut self, due: u64, turn: Turn)
        ensures { IfSome (open_at turn.key self.old.links.places)
            (λ link. TakesTimer due turn link self.old self.new) }
    {
        let Turn { key, stream } = turn;
        match self.links.take(key) {
            Some(LinkState::Open(link)) => {
                let mut link = link;
                link.disarm(stream, due);
                self.give(key, &mut link, stream);
                self.settle(key, link);
            }
            Some(LinkState::Connecting(connecting)) => self.on_deadline(key, connecting, due),
            Some(LinkState::Lacking(lacking)) => self.try_again(key, lacking, due),
            Some(state) => self.links.put(key, state),
            None => {}
        }
    }
}

//! A worker: waits for events, and drives its links.
pub(crate) mod accepting;
mod breaking;
mod connecting;
mod driving;
mod making;
mod naming;
mod registering;

use crate::run::ServeRun;
use crate::runtime::ServeRuntime;
use crate::workers::link_key::LinkKey;
use crate::workers::links::Links;
use crate::workers::peer::Peer;
use crate::workers::shared::{WorkerPoll, Workers};
use crate::workers::socket_event::SocketEvent;
use crate::workers::subject::{Subject, subject_of};
use crate::workers::timers::{Timers, Turn};
use crate::workers::waits::{earlier, nap, whole_millis};
use crate::workers::worker::accepting::{Accepting, may_accept, next_accept};
use mio::Registry;
use mio::event::Event;
use std::thread;
use std::time::Duration;
use tox_link::SCRATCH_SIZE;
use tox_sockets::LinkStart;

/// How long a worker rests that can't wait for events, in milliseconds.
const REST: u64 = 1;

/// What a worker has besides its poll.
#[derive(Drop)]
pub(crate) struct Worker<'s, R> {
    rt: &'s R,
    run: &'s ServeRun<'s>,
    workers: &'s Workers<'s>,
    /// Its place among the workers.
    place: usize,
    registry: Registry,
    /// When it started.
    start: LinkStart,
    links: Links<'s, R>,
    timers: Timers,
    /// The directions that may go on at once.
    turns: Vec<Turn>,
    /// An empty vector for the next of these.
    no_turns: Vec<Turn>,
    /// The links that wait for the addresses of their upstreams.
    naming: Vec<LinkKey>,
    /// Whether each proxy may have more connections.
    accepting: Vec<Accepting>,
}

/// Works until its proxies have stopped listening and its links have ended.
pub(crate) fn work<'s, R: ServeRuntime>(
    rt: &'s R,
    run: &'s ServeRun<'s>,
    workers: &'s Workers<'s>,
    worker_poll: WorkerPoll,
) {
    let WorkerPoll {
        place,
        mut poll,
        registry,
        mut events,
        accepting,
    } = worker_poll;
    let mut scratch = [0; SCRATCH_SIZE];
    let mut worker = Worker {
        rt,
        run,
        workers,
        place,
        registry,
        start: LinkStart::now(rt),
        links: Links::new(run.alloc),
        timers: Timers::new(run.alloc),
        turns: Vec::new(run.alloc),
        no_turns: Vec::new(run.alloc),
        naming: Vec::new(run.alloc),
        accepting,
    };
    for _ in rt.forever() {
        if worker.is_done() {
            return;
        }
        let wait = worker.wait();
        if poll.poll(&mut events, whole_millis(wait)).is_err() {
            thread::sleep(rt, Duration::from_millis(REST));
        }
        if events.is_empty() {
            nap(rt, wait);
        }
        for event in &events {
            worker.on_event(event);
        }
        worker.go_on(&mut scratch);
    }
    unreachable!()
}

impl<'s, R: ServeRuntime> Worker<'s, R> {
    /// The worker's clock, in microseconds.
    fn now(&self) -> u64 {
        self.start.elapsed(self.rt).get()
    }

    /// Whether nothing is left to do.
    fn is_done(&self) -> bool {
        self.links.is_empty()
            && !self
                .accepting
                .iter()
                .any(|state| *state != Accepting::Closed)
    }

    /// How long to wait for events, in microseconds. None: until there is one.
    fn wait(&self) -> Option<u64> {
        if !self.turns.is_empty() || self.accepting.iter().any(|state| *state == Accepting::Goes) {
            return Some(0);
        }
        let due = earlier(self.timers.next_due(), next_accept(&self.accepting))?;
        Some(due.saturating_sub(self.now()))
    }

    fn on_event(&mut self, event: &Event) {
        match subject_of(event.token()) {
            Subject::Client(key) => self.on_socket(key, Peer::Client, &SocketEvent::of(event)),
            Subject::Server(key) => self.on_socket(key, Peer::Server, &SocketEvent::of(event)),
            Subject::Listener(place) => may_accept(&mut self.accepting, place as usize),
            Subject::Waker => self.on_wake(),
        }
    }

    /// Does what needs no event: takes connections and the timers that are due, and drives the directions whose turn it is.
    fn go_on(&mut self, scratch: &mut [u8; SCRATCH_SIZE]) {
        for place in 0..self.accepting.len() {
            if self.accepts_now(place) {
                self.accept(place);
            }
        }
        let now = self.now();
        self.fire(now);
        self.take_turns(scratch);
        self.note_links();
    }
}

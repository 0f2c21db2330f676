//! Taking connections.
use crate::proxy::accepting::ACCEPT_REST;
use crate::runtime::ServeRuntime;
use crate::workers::shared_listener::Accepted;
use crate::workers::waits::{MILLI, earlier};
use crate::workers::worker::Worker;

/// How many connections are taken before the links have their turns.
const ACCEPTS: usize = 16;

/// Whether a proxy may have more connections.
#[derive(Clone, Copy, PartialEq, Eq)]
pub(crate) enum Accepting {
    /// After an event.
    Waits,
    Goes,
    /// At this instant of the worker's clock.
    RestsUntil(u64),
    /// It has stopped listening.
    Closed,
}

/// The proxy at a place may have connections, unless it has stopped listening.
pub(super) fn may_accept(proxies: &mut [Accepting], place: usize) {
    if let Some(state) = proxies.get_mut(place) {
        if *state != Accepting::Closed {
            *state = Accepting::Goes;
        }
    }
}

/// The earliest instant at which a proxy that rests after a lack of descriptors or memory is asked again. None if none rests.
pub(super) fn next_accept(proxies: &[Accepting]) -> Option<u64> {
    let mut next = None;
    for state in proxies {
        if let Accepting::RestsUntil(instant) = state {
            next = earlier(next, Some(*instant));
        }
    }
    next
}

impl<'s, R: ServeRuntime> Worker<'s, R> {
    /// Whether connections of a proxy are to be taken now.
    pub(super) fn accepts_now(&self, place: usize) -> bool {
        match self.accepting.get(place) {
            Some(Accepting::Goes) => true,
            Some(Accepting::RestsUntil(instant)) => *instant <= self.now(),
            _ => false,
        }
    }

    /// Takes some connections of a proxy, and begins their links.
    pub(super) fn accept(&mut self, place: usize) {
        let mut next = Accepting::Goes;
        for _ in 0..ACCEPTS {
            match self.take_one(place) {
                Some(state) => {
                    next = state;
                    break;
                }
                None => {}
            }
        }
        if let Some(state) = self.accepting.get_mut(place) {
            *state = next;
        }
    }

    /// Tells the other workers how many links this one has.
    pub(super) fn note_links(&self) {
        self.workers
            .balance
            .note(self.place, self.links.len() as u64);
    }

    /// Takes a connection, and begins its link, unless it is left to another worker. Tells when the proxy is to be asked again, if not at
    /// once.
    fn take_one(&mut self, place: usize) -> Option<Accepting> {
        self.note_links();
        let workers = self.workers;
        let proxy = workers.proxies.get(place)?;
        let next_worker = workers.balance.next_worker(self.links.len() as u64);
        match proxy
            .listener
            .take(self.rt, self.run, &proxy.links, next_worker.is_some())
        {
            Accepted::Client(taken) => {
                self.begin(place, taken);
                None
            }
            Accepted::Dropped => None,
            Accepted::NotNow => Some(Accepting::Waits),
            Accepted::Left { wakes } => {
                if let (true, Some(next)) = (wakes, next_worker) {
                    workers.wake(next);
                }
                Some(Accepting::Waits)
            }
            Accepted::OutOfResources => Some(Accepting::RestsUntil(
                self.now().saturating_add(ACCEPT_REST * MILLI),
            )),
            Accepted::Closes => {
                proxy.upstream.close(self.rt);
                workers.wake_all();
                Some(Accepting::Closed)
            }
            Accepted::Closed => Some(Accepting::Closed),
        }
    }
}

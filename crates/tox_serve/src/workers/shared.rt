//! The workers of a run and its proxies.
use crate::proxy::listening::Listening;
use crate::workers::balance::Balance;
use crate::workers::served_proxy::ServedProxy;
use crate::workers::subject::{Subject, token_of};
use crate::workers::worker::accepting::Accepting;
use mio::{Events, Poll, Registry, Waker};
use std::alloc::Global;
use std::net::{Net, TcpListener, TcpStream};
use std::sync::Wait;

/// How many events a wait gives at most.
const EVENTS: usize = 512;

/// What all workers of a run share.
#[derive(Drop)]
pub(crate) struct Workers<'a> {
    pub(crate) proxies: Vec<ServedProxy<'a>>,
    pub(crate) balance: Balance,
    /// What wakes each worker.
    wakers: Vec<Waker>,
}

/// What a worker waits at. The listeners and what wakes it are registered.
#[derive(Drop)]
pub(crate) struct WorkerPoll {
    /// The worker's place among all.
    pub(crate) place: usize,
    pub(crate) poll: Poll,
    pub(crate) registry: Registry,
    pub(crate) events: Events<Global>,
    pub(crate) accepting: Vec<Accepting>,
}

impl<'a> Workers<'a> {
    /// So many workers for proxies whose addresses are bound, and the poll of each. None if memory or descriptors
    /// are refused.
    pub(crate) fn new<R: Net<Listener = TcpListener, Stream = TcpStream> + Wait>(
        rt: &R,
        alloc: Global,
        listening: Vec<Listening<'a>>,
        count: u32,
    ) -> Option<(Workers<'a>, Vec<WorkerPoll>)> {
        let mut workers = Workers {
            proxies: Vec::new(alloc),
            balance: Balance::new(alloc),
            wakers: Vec::new(alloc),
        };
        for bound in listening {
            workers.proxies.push(ServedProxy::new(alloc, bound)?).ok()?;
        }
        let mut polls = Vec::new(alloc);
        for place in 0..count {
            let (poll, waker) = workers.new_poll(rt, alloc, place as usize)?;
            workers.wakers.push(waker).ok()?;
            workers.balance.add_worker().ok()?;
            polls.push(poll).ok()?;
        }
        Some((workers, polls))
    }

    /// The poll of the worker at a place, and what wakes it.
    fn new_poll<R: Net<Listener = TcpListener, Stream = TcpStream> + Wait>(
        &self,
        rt: &R,
        alloc: Global,
        place: usize,
    ) -> Option<(WorkerPoll, Waker)> {
        let poll = Poll::new(rt).ok()?;
        let registry = poll.registry().try_clone().ok()?;
        let waker = Waker::new(&registry, token_of(Subject::Waker)).ok()?;
        let mut accepting = Vec::new(alloc);
        for (proxy_place, proxy) in self.proxies.iter().enumerate() {
            let token = token_of(Subject::Listener(u32::try_from(proxy_place).ok()?));
            proxy.listener.register(rt, &registry, token).ok()?;
            accepting.push(Accepting::Goes).ok()?;
        }
        let events = Events::with_capacity(alloc, EVENTS).ok()?;
        let worker_poll = WorkerPoll {
            place,
            poll,
            registry,
            events,
            accepting,
        };
        Some((worker_poll, waker))
    }

    /// Wakes the worker at a place.
    pub(crate) fn wake(&self, place: usize) {
        if let Some(waker) = self.wakers.get(place) {
            let _ = waker.wake();
        }
    }

    /// Wakes all workers.
    pub(crate) fn wake_all(&self) {
        for waker in &self.wakers {
            let _ = waker.wake();
        }
    }
}

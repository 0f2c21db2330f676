//! A proxy's upstream. A name is looked up in threads of its own, so that a look-up that hangs holds up nothing else, and its
//! addresses are kept for a second.
use crate::addresses::connect_address;
use crate::link::break_reason::BreakReason;
use std::alloc::Global;
use std::net::SocketAddr;
use std::sync::{Arc, Condvar, Mutex, Wait};
use std::time::{Clock, Duration, Instant};

/// How long the addresses of a name are kept, in milliseconds.
const KEPT: u64 = 1_000;

/// How long a thread waits for what it is to do at a time, in milliseconds, once the proxy has stopped listening.
const TURN: u64 = 50;

/// How many look-ups of a name there may be at once. Where they all hang, a further link waits for the first that ends.
const MAX_LOOK_UPS: u32 = 32;

/// The addresses of a name, or why it has none, and when that was found.
#[derive(Drop)]
struct Found {
    addresses: Result<Arc<Vec<SocketAddr>, Global>, BreakReason>,
    at: Option<Instant>,
}

/// What is known of the addresses of an upstream.
#[derive(Drop)]
pub(crate) enum Addresses {
    Known(Arc<Vec<SocketAddr>, Global>),
    /// There are none, for this reason.
    Refused(BreakReason),
    /// They are asked for.
    Asked,
}

/// Shares addresses.
fn share(addresses: &Arc<Vec<SocketAddr>, Global>) -> Addresses {
    match addresses.clone() {
        Ok(addresses) => Addresses::Known(addresses),
        Err(_) => Addresses::Refused(BreakReason::Memory),
    }
}

/// What the lock keeps.
#[derive(Drop)]
struct Names {
    found: Option<Found>,
    /// Whether a link asks for the addresses that no look-up was begun for.
    asked: bool,
    /// How many look-ups have begun and not ended.
    look_ups: u32,
    /// Whether the proxy has stopped listening.
    closed: bool,
}

impl Names {
    /// Whether a look-up is to begin.
    fn wants_look_up(&self) -> bool {
        self.asked && self.look_ups < MAX_LOOK_UPS
    }

    /// A look-up begins, for all links that have asked by now.
    fn begin_look_up(&mut self) {
        self.asked = false;
        self.look_ups = self.look_ups.saturating_add(1);
    }

    /// A look-up has ended so. One that failed leaves addresses that another one has just found.
    fn end_look_up<R: Clock>(
        &mut self,
        rt: &R,
        addresses: Result<Arc<Vec<SocketAddr>, Global>, BreakReason>,
    ) {
        self.look_ups = self.look_ups.saturating_sub(1);
        if addresses.is_err() && self.has_addresses(rt) {
            return;
        }
        self.found = Some(Found {
            addresses,
            at: Instant::now(rt).ok(),
        });
    }

    /// Whether addresses were found that may still be used.
    fn has_addresses<R: Clock>(&self, rt: &R) -> bool {
        match &self.found {
            Some(found) => found.addresses.is_ok() && is_fresh(rt, found.at),
            None => false,
        }
    }
}

/// The upstream of a proxy.
#[derive(Drop)]
pub(crate) struct Upstream {
    /// The address, if its host is a number.
    known: Option<Arc<Vec<SocketAddr>, Global>>,
    names: Mutex<Names>,
    /// Notified when a link asks, when a look-up has ended, and once the proxy has stopped listening.
    changed: Condvar,
}

/// What the thread of a proxy is to do.
#[derive(Clone, Copy)]
pub(crate) enum Job {
    /// Look the name up, in a thread of its own. The look-up has begun.
    LookUp,
    /// See whether all links have ended, as the proxy has stopped listening.
    SeeLinks,
}

impl Upstream {
    /// The upstream at an address. None if out of memory.
    pub(crate) fn new(alloc: Global, address: &str) -> Option<Upstream> {
        let address = connect_address(alloc, address).ok()?;
        let known = match address.as_str().parse::<SocketAddr>() {
            Ok(address) => {
                let addresses = Vec::from_slice(alloc, &[address]).ok()?;
                Some(Arc::new(alloc, addresses).ok()?)
            }
            Err(_) => None,
        };
        Some(Upstream {
            known,
            names: Mutex::new(Names {
                found: None,
                asked: false,
                look_ups: 0,
                closed: false,
            }),
            changed: Condvar::new(),
        })
    }

    /// The addresses. Where they have to be asked for, the workers are woken once they are known.
    pub(crate) fn addresses<R: Wait + Clock>(&self, rt: &R) -> Addresses {
        if let Some(known) = &self.known {
            return share(known);
        }
        let mut names = self.names.lock(rt);
        match &names.found {
            Some(found) if is_fresh(rt, found.at) => match &found.addresses {
                Ok(addresses) => share(addresses),
                Err(reason) => Addresses::Refused(*reason),
            },
            _ => {
                names.asked = true;
                self.changed.notify_all();
                Addresses::Asked
            }
        }
    }

    /// The proxy has stopped listening.
    pub(crate) fn close<R: Wait>(&self, rt: &R) {
        self.names.lock(rt).closed = true;
        self.changed.notify_all();
    }

    /// Waits until there is something to do. Once the proxy has stopped listening, at most 50 milliseconds.
    pub(crate) fn next_job<R: Wait + Clock>(&self, rt: &R) -> Job {
        let mut names = self.names.lock(rt);
        let mut waited = false;
        for _ in rt.forever() {
            if names.wants_look_up() {
                names.begin_look_up();
                return Job::LookUp;
            }
            if !names.closed {
                names = self.changed.wait(rt, names);
                continue;
            }
            if waited {
                return Job::SeeLinks;
            }
            waited = true;
            let turn = Duration::from_millis(TURN);
            let (next, _) = self.changed.wait_timeout(rt, names, turn);
            names = next;
        }
        unreachable!()
    }

    /// A look-up that began has ended so.
    pub(crate) fn end_look_up<R: Wait + Clock>(
        &self,
        rt: &R,
        addresses: Result<Arc<Vec<SocketAddr>, Global>, BreakReason>,
    ) {
        self.names.lock(rt).end_look_up(rt, addresses);
        self.changed.notify_all();
    }
}

/// Whether what was found then may still be used.
fn is_fresh<R: Clock>(rt: &R, at: Option<Instant>) -> bool {
    match (at, Instant::now(rt)) {
        (Some(at), Ok(now)) => now.duration_since(at) < Duration::from_millis(KEPT),
        _ => true,
    }
}

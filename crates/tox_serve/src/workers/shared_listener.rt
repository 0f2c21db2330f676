//! Where the connections of a proxy come from, which all workers share.
ghost use Rattle.std.specs.Prelude.{◌≡◌, ◌+◌, ◌-◌, ◌^◌, min, true};

use crate::proxy::accepting::{Next, after};
use crate::proxy::filling::note_fill;
use crate::proxy::link_book::LinkBook;
use crate::proxy::links::ProxyLinks;
use crate::proxy::taking::{Taken, is_enough, number_link};
use crate::run::ServeRun;
use mio::unix::SourceFd;
use mio::{Interest, Registry, Token};
use std::alloc::Global;
use std::io::ErrorKind;
use std::net::TcpListener;
use std::os::fd::AsRawFd;
use std::sync::{Arc, Mutex, Wait};
use std::{io, mem};

/// What the lock keeps.
#[derive(Drop)]
struct Listener {
    /// None once the proxy has stopped listening.
    listener: Option<Arc<TcpListener, Global>>,
    /// How many connections were taken.
    connections: u64,
    /// Whether a worker has left what may wait here, since no connection was last seen to wait.
    left: bool,
}

impl Listener {
    /// One more connection was taken.
    fn count(&mut self)
        ensures { self.new ≡ record self.old {
          connections = min (self.old.connections + 1) (2 ^ 64 - 1);
        } }
    {
        self.connections = self.connections.saturating_add(1);
    }

    /// A worker leaves what may wait. Returns whether the others have to be woken. The system reports each connection to every worker,
    /// so that they look by themselves unless they have left it as well.
    fn leave(&mut self) -> bool
        ensures was_left { result ≡ self.old.left }
        ensures left { self.new ≡ record self.old { left = true } }
    {
        mem::replace(&mut self.left, true)
    }

    /// Accepts a connection, and gives it a number. A descriptor is in hand meanwhile, which is for its upstream then. None if the
    /// listener fails for good.
    fn accept(&mut self, run: &ServeRun<'_>, book: &mut LinkBook) -> Option<Accepted> {
        let listener = self.listener.as_ref()?;
        let Some(_spare) = run.descriptors.spare() else {
            return Some(Accepted::OutOfResources);
        };
        match listener.accept() {
            Ok((client, _)) => {
                self.count();
                match number_link(book, client) {
                    Some(taken) => Some(Accepted::Client(taken)),
                    None => Some(Accepted::Dropped),
                }
            }
            Err(error) if error.kind() == ErrorKind::WouldBlock => {
                self.left = false;
                Some(Accepted::NotNow)
            }
            Err(error) => match after(&error) {
                Next::TryAgain => Some(Accepted::Dropped),
                Next::Rest => Some(Accepted::OutOfResources),
                Next::GiveUp => None,
            },
        }
    }
}

/// The listener of a proxy. Its lock is held from a connection's `accept` until it has its number, so that numbers follow the order in
/// which connections were taken.
#[derive(Drop)]
pub(crate) struct SharedListener {
    listener: Mutex<Listener>,
    /// The listener's key among the live sockets.
    key: usize,
}

/// What an accept gives.
#[derive(Drop)]
pub(crate) enum Accepted {
    Client(Taken),
    /// A connection that broke, or that the book has no number for. There may be more.
    Dropped,
    /// No connection, until the system reports one.
    NotNow,
    /// No connection: another worker is to take the next one.
    Left {
        /// Whether that one has to be woken, since it may have left it as well.
        wakes: bool,
    },
    /// No connection, for lack of descriptors or memory.
    OutOfResources,
    /// The proxy has stopped listening with this call.
    Closes,
    /// The proxy has stopped listening before.
    Closed,
}

impl SharedListener {
    /// Shares a listener that doesn't wait.
    pub(crate) fn new(listener: Arc<TcpListener, Global>, key: usize) -> SharedListener {
        SharedListener {
            listener: Mutex::new(Listener {
                listener: Some(listener),
                connections: 0,
                left: false,
            }),
            key,
        }
    }

    /// Has a poll report connections.
    pub(crate) fn register<R: Wait>(
        &self,
        rt: &R,
        registry: &Registry,
        token: Token,
    ) -> io::Result<()> {
        match &self.listener.lock(rt).listener {
            Some(listener) => {
                let fd = listener.as_raw_fd();
                registry.register(&mut SourceFd(&fd), token, Interest::READABLE)
            }
            None => Ok(()),
        }
    }

    /// Takes the next connection, and gives it a number, unless it is left to another worker (`leaves`). After as many as the run takes,
    /// at a full book, a failing listener or the stop of the run the proxy stops listening.
    pub(crate) fn take<R: Wait>(
        &self,
        rt: &R,
        run: &ServeRun<'_>,
        links: &ProxyLinks<'_>,
        leaves: bool,
    ) -> Accepted {
        let mut shared = self.listener.lock(rt);
        if shared.listener.is_none() {
            return Accepted::Closed;
        }
        let mut book = links.book(rt);
        let is_enough = is_enough(run.options.links, shared.connections, &book.book);
        if !is_enough && !run.live.is_stopping(rt) {
            if leaves {
                let wakes = shared.leave();
                return Accepted::Left { wakes };
            }
            if let Some(accepted) = shared.accept(run, &mut book) {
                if let Accepted::Client(taken) = &accepted {
                    note_fill(rt, run, links.place, taken.number);
                }
                return accepted;
            }
        }
        shared.listener = None;
        run.live.remove(rt, self.key);
        Accepted::Closes
    }
}

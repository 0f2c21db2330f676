//! The sockets of a run that live: its listeners and the links that it carries.
ghost use Rattle.std.specs.Prelude.{◌≡◌, ◌↔◌, true, Err, IfOk, OnErr, Some, None};
ghost use Rattle.slab.specs.Slab.{Updates, entries, get};
ghost use Rattle.tox_sockets.specs.declared.live_sockets.AddFault.TheVariants.{Stopping};

use crate::abort_cause::AbortCause;
use crate::link_sockets::LinkSockets;
use crate::socket_calls::stop_listening;
use slab::Slab;
use std::alloc::Global;
use std::net::TcpListener;
use std::sync::{Arc, Mutex, Wait};

/// A listener, or the two sockets of a link.
#[derive(Drop)]
pub enum LiveSocket {
    Listener(Arc<TcpListener, Global>),
    Link(Arc<LinkSockets, Global>),
}

impl LiveSocket {
    /// Ends it. Threads that wait for it go on.
    fn stop(&self) {
        match self {
            LiveSocket::Listener(listener) => {
                let _ = stop_listening(listener);
            }
            LiveSocket::Link(link) => link.abort(AbortCause::Stopped),
        }
    }
}

/// Why a socket isn't kept.
#[derive(Clone, Copy, Debug, PartialEq, Eq)]
pub enum AddFault {
    /// The run is stopping.
    Stopping,
    OutOfMemory,
}

/// What the lock keeps.
#[derive(Drop)]
struct Live {
    sockets: Slab<LiveSocket, Global>,
    stopping: bool,
}

impl Live {
    /// Keeps a socket, and returns its key.
    fn add(&mut self, socket: LiveSocket) -> Result<usize, AddFault>
        ensures added { IfOk result (λ key. (get self.old.sockets key ≡ None)
            × Updates self.old.sockets self.new.sockets key (Some socket)) }
        ensures refused { OnErr result (entries self.new.sockets ≡ entries self.old.sockets) }
        ensures stopping { (self.old.stopping ≡ true) ↔ (result ≡ Err Stopping) }
        ensures same { self.new.stopping ≡ self.old.stopping }
    {
        if self.stopping {
            return Err(AddFault::Stopping);
        }
        match self.sockets.insert(socket) {
            Ok(key) => Ok(key),
            Err(_) => Err(AddFault::OutOfMemory),
        }
    }

    /// Stops all sockets that are kept. No other is kept from then on.
    fn stop(&mut self)
        ensures stopping { self.new.stopping ≡ true }
        ensures same { self.new.sockets ≡ self.old.sockets }
    {
        self.stopping = true;
        for (_, socket) in self.sockets.iter() {
            socket.stop();
        }
    }
}

/// The live sockets of a run, which all its threads share.
#[derive(Drop)]
pub struct LiveSockets {
    live: Mutex<Live>,
}

impl LiveSockets {
    pub fn new(alloc: Global) -> LiveSockets {
        LiveSockets {
            live: Mutex::new(Live {
                sockets: Slab::new(alloc),
                stopping: false,
            }),
        }
    }

    /// Keeps a socket until `remove`, unless the run is stopping. Returns its key.
    pub fn add<R: Wait>(&self, rt: &R, socket: LiveSocket) -> Result<usize, AddFault> {
        self.live.lock(rt).add(socket)
    }

    /// Forgets the socket of a key.
    pub fn remove<R: Wait>(&self, rt: &R, key: usize) {
        let removed = self.live.lock(rt).sockets.try_remove(key);
        drop(removed);
    }

    /// Whether the run is stopping.
    pub fn is_stopping<R: Wait>(&self, rt: &R) -> bool {
        self.live.lock(rt).stopping
    }

    /// Stops what lives, and what is added from then on isn't kept.
    pub fn stop<R: Wait>(&self, rt: &R) {
        self.live.lock(rt).stop();
    }
}

//! A listener that a stop of the run shuts.
use crate::addresses::listen_address;
use std::alloc::Global;
use std::io;
use std::net::{Net, TcpListener, TcpStream};
use std::sync::{Arc, Wait};
use tox_sockets::{LiveSocket, LiveSockets, prepare_listener};

/// Why an address isn't listened at.
#[derive(Clone, Copy, PartialEq, Eq)]
pub(crate) enum BindFault {
    /// The system refused it, by this number. None: the host wasn't found.
    Refused(Option<i32>),
    OutOfMemory,
}

impl BindFault {
    /// The fault of a call that the system refused.
    pub(crate) fn of(error: &io::Error) -> BindFault {
        BindFault::Refused(error.raw_os_error())
    }
}

/// A listener among the live sockets of a run.
#[derive(Drop)]
pub(crate) struct LiveListener {
    pub(crate) listener: Arc<TcpListener, Global>,
    /// Its key among the live sockets.
    pub(crate) key: usize,
}

impl LiveListener {
    /// Listens at an address. The queue of connections is as long as the system allows, an `accept` doesn't wait, and what it gives is
    /// prepared for a link.
    pub(crate) fn bind<R: Net<Listener = TcpListener, Stream = TcpStream> + Wait>(
        rt: &R,
        alloc: Global,
        live: &LiveSockets,
        address: &str,
    ) -> Result<LiveListener, BindFault> {
        let Ok(address) = listen_address(alloc, address) else {
            return Err(BindFault::OutOfMemory);
        };
        let listener = match TcpListener::bind(rt, address.as_str()) {
            Ok(listener) => listener,
            Err(error) => return Err(BindFault::of(&error)),
        };
        if let Err(error) = prepare_listener(&listener) {
            return Err(BindFault::of(&error));
        }
        if let Err(error) = listener.set_nonblocking(true) {
            return Err(BindFault::of(&error));
        }
        let Ok(listener) = Arc::new(alloc, listener) else {
            return Err(BindFault::OutOfMemory);
        };
        let Ok(shared) = listener.clone() else {
            return Err(BindFault::OutOfMemory);
        };
        match live.add(rt, LiveSocket::Listener(shared)) {
            Ok(key) => Ok(LiveListener { listener, key }),
            Err(_) => Err(BindFault::OutOfMemory),
        }
    }
}

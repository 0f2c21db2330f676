//! The address for probes, which listens once all proxies do. Its connections are closed at once and count for nothing, so a probe
//! takes no connection's number, and no fault with it.
ghost use Rattle.std.specs.Prelude.{IfErr, is_some};
ghost use Rattle.tox_serve.specs.Serving.{IsReadyFault};

use crate::fault::ServeFault;
use crate::live_listener::{BindFault, LiveListener};
use crate::run::ServeRun;
use crate::runtime::ServeRuntime;
use crate::threads::accepting::next_client;
use std::alloc::Global;
use std::net::{Net, TcpListener, TcpStream};
use std::sync::{Arc, Wait};
use std::thread::Scope;
use tox_sockets::LiveSockets;

/// Listens at the address for probes, if there is one.
pub(crate) fn listen_ready<'a, R: Net<Listener = TcpListener, Stream = TcpStream> + Wait>(
    rt: &R,
    alloc: Global,
    live: &LiveSockets,
    address: Option<&str>,
) -> Result<Option<Arc<TcpListener, Global>>, ServeFault<'a>>
    ensures { IfErr result (IsReadyFault (is_some address.entry)) }
{
    let Some(address) = address else {
        return Ok(None);
    };
    match LiveListener::bind(rt, alloc, live, address) {
        Ok(bound) => Ok(Some(bound.listener)),
        Err(BindFault::Refused(errno)) => Err(ServeFault::ReadyRefused(errno)),
        Err(BindFault::OutOfMemory) => Err(ServeFault::OutOfMemory),
    }
}

/// Starts the thread that answers probes, if there is an address for them. False if it is refused.
pub(crate) fn start_ready<'s, E: 's, R: ServeRuntime>(
    rt: &'s R,
    run: &'s ServeRun<'s>,
    scope: &'s Scope<'s, E>,
    ready: Option<Arc<TcpListener, Global>>,
) -> bool {
    match ready {
        Some(listener) => scope
            .spawn(move || answer_probes(rt, run, &listener))
            .is_ok(),
        None => true,
    }
}

/// Closes each connection that comes, until the listener is shut or fails.
fn answer_probes<R: ServeRuntime>(rt: &R, run: &ServeRun<'_>, listener: &TcpListener) {
    for _ in rt.forever() {
        match next_client(rt, run, listener) {
            Some(probe) => drop(probe),
            None => return,
        }
    }
    unreachable!()
}

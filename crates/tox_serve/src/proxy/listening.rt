//! The addresses of proxies, bound before anything is served.
ghost use Rattle.std.specs.Prelude.{◌≡◌, Some, true, false, All, filter, map, slice_get, IfOk, IfErr};
ghost use Rattle.tox_serve.specs.Serving.{HasServeCause, IsListenFault};

use crate::fault::ServeFault;
use crate::live_listener::{BindFault, LiveListener};
use std::alloc::Global;
use std::net::{Net, TcpListener, TcpStream};
use std::sync::{Arc, Wait};
use tox_config::ProxyDef;
use tox_sockets::LiveSockets;

/// An enabled proxy whose address is bound.
#[derive(Drop)]
pub(crate) struct Listening<'a> {
    pub(crate) proxy: &'a ProxyDef,
    /// Its place among all proxies, from 0.
    pub(crate) place: usize,
    pub(crate) listener: Arc<TcpListener, Global>,
    /// Its key among the live sockets.
    pub(crate) key: usize,
    /// The address that was bound, as it is printed.
    pub(crate) address: String,
}

/// Binds the address of each enabled proxy, in order.
pub(crate) fn listen_all<'a, R: Net<Listener = TcpListener, Stream = TcpStream> + Wait>(
    rt: &R,
    alloc: Global,
    live: &LiveSockets,
    proxies: &'a [ProxyDef],
) -> Result<Vec<Listening<'a>>, ServeFault<'a>>
    ensures all { IfOk result (λ listening. map (λ bound. bound.proxy.now) listening.items
        ≡ filter (λ proxy. proxy.enabled) proxies.now) }
    ensures places { IfOk result (λ listening. All (λ bound.
        slice_get proxies.now bound.place ≡ Some bound.proxy.now) listening.items) }
    ensures fault { IfErr result (HasServeCause proxies.now false) }
{
    let mut listening = Vec::new(alloc);
    let mut place = 0;
    for proxy in proxies {
        if proxy.enabled {
            let bound = listen(rt, alloc, live, place, proxy)?;
            if listening.push(bound).is_err() {
                return Err(ServeFault::OutOfMemory);
            }
        }
        place += 1;
    }
    Ok(listening)
}

/// Binds the address of the proxy at a place.
fn listen<'a, R: Net<Listener = TcpListener, Stream = TcpStream> + Wait>(
    rt: &R,
    alloc: Global,
    live: &LiveSockets,
    place: usize,
    proxy: &'a ProxyDef,
) -> Result<Listening<'a>, ServeFault<'a>>
    ensures proxy { IfOk result (λ bound. (bound.proxy.now ≡ proxy.now) × (bound.place ≡ place)) }
    ensures fault { IfErr result (IsListenFault proxy.now) }
{
    let LiveListener { listener, key } = match LiveListener::bind(rt, alloc, live, &proxy.listen) {
        Ok(bound) => bound,
        Err(BindFault::Refused(errno)) => {
            return Err(ServeFault::ListenRefused(&proxy.name, errno));
        }
        Err(BindFault::OutOfMemory) => return Err(ServeFault::OutOfMemory),
    };
    let bound = match listener.local_addr() {
        Ok(bound) => bound,
        Err(error) => {
            return Err(ServeFault::ListenRefused(&proxy.name, error.raw_os_error()));
        }
    };
    let Ok(address) = format!(in alloc; "{bound}") else {
        return Err(ServeFault::OutOfMemory);
    };
    Ok(Listening {
        proxy,
        place,
        listener,
        key,
        address,
    })
}

//! Looking up the addresses of an upstream.
use crate::addresses::connect_address;
use crate::link::break_reason::BreakReason;
use crate::run::ServeRun;
use crate::runtime::ServeRuntime;
use std::io;
use std::io::ErrorKind;
use std::net::{SocketAddr, ToSocketAddrs};
use tox_sockets::SpareDescriptor;

/// The addresses of an upstream. A look-up that fails while it can have no descriptor is made again, unless the run is stopping.
pub(crate) fn look_up<R: ServeRuntime>(
    rt: &R,
    run: &ServeRun<'_>,
    upstream: &str,
) -> Result<Vec<SocketAddr>, BreakReason> {
    let Ok(address) = connect_address(run.alloc, upstream) else {
        return Err(BreakReason::Memory);
    };
    let mut lack = None;
    for _ in rt.forever() {
        match address.as_str().to_socket_addrs(rt) {
            Ok(found) => {
                return match found.collect(run.alloc) {
                    Ok(addresses) => Ok(addresses),
                    Err(_) => Err(BreakReason::Memory),
                };
            }
            Err(error) => {
                if SpareDescriptor::open().is_ok() || run.live.is_stopping(rt) {
                    return Err(reason_of(&error));
                }
            }
        }
        lack = Some(run.descriptors.wait(rt, lack));
    }
    unreachable!()
}

/// Why a name has no addresses.
fn reason_of(error: &io::Error) -> BreakReason {
    match error.kind() {
        ErrorKind::OutOfMemory => BreakReason::Memory,
        _ => BreakReason::Name,
    }
}

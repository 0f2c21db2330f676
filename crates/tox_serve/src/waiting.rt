//! Waiting until an address accepts a connect.
ghost use Rattle.std.specs.Prelude.{◌≡◌, true, OnOk, IfErr};
ghost use Rattle.tox_config.specs.Address.{is_address};
ghost use Rattle.tox_serve.specs.Waiting.{HasWaitCause};

mod fault;
mod timed_look_up;

use crate::addresses::connect_address;
use crate::deadline::Deadline;
use crate::runtime::ServeRuntime;
use crate::waiting::timed_look_up::{LookUpFault, look_up_within};
pub use fault::WaitFault;
use mio::net::TcpStream as BegunStream;
use std::alloc::Global;
use std::net::{Net, SocketAddr, TcpListener, TcpStream};
use std::os::fd::AsRawFd;
use std::sync::Wait;
use std::thread;
use std::thread::Threads;
use std::time::{Clock, Duration};
use tox_config::is_address;
use tox_sockets::{Connection, can_write, connection_of};

/// How long the rest between two tries is, in milliseconds.
const REST: u64 = 50;

/// How long one address is tried, in milliseconds. Where a host doesn't answer yet, the system tries again after one second, then two, four
/// and so on. A new try each second finds it sooner.
const MAX_TRY: u64 = 1_000;

/// Waits until a connect to an address is accepted, at most so many milliseconds. A connect that is refused and a name that isn't found are
/// tried again. Without a host the address is one of this machine.
///
/// The system's look-up of a name has no time limit. One that takes longer than the wait goes on in a thread of its own.
pub fn wait_until_ready<
    'a,
    R: Net<Listener = TcpListener, Stream = TcpStream>
        + Threads
        + Wait
        + Clock
        + Copy
        + Send
        + Sync
        + 'static,
>(rt: &R, alloc: Global, address: &'a str, millis: u32) -> Result<(), WaitFault<'a>>
    ensures address { OnOk result (is_address address.now ≡ true) }
    ensures fault { IfErr result (HasWaitCause address.now) }
{
    if !is_address(address) {
        return Err(WaitFault::BadAddress(address));
    }
    let Ok(whole) = connect_address(alloc, address) else {
        return Err(WaitFault::OutOfMemory);
    };
    let deadline = Deadline::after(rt, millis);
    for _ in rt.forever() {
        match is_accepted(rt, alloc, &whole, deadline) {
            Ok(true) => return Ok(()),
            Ok(false) => {}
            Err(LookUpFault::OutOfMemory) => return Err(WaitFault::OutOfMemory),
            Err(LookUpFault::SpawnRefused) => return Err(WaitFault::SpawnRefused),
        }
        let left = deadline.left(rt);
        if left.is_zero() {
            return Err(WaitFault::NotReady(address));
        }
        thread::sleep(rt, left.min(Duration::from_millis(REST)));
    }
    unreachable!()
}

/// Whether a connect to one of the addresses of a name is accepted before a deadline.
fn is_accepted<R: ServeRuntime>(
    rt: &R,
    alloc: Global,
    name: &str,
    deadline: Deadline,
) -> Result<bool, LookUpFault> {
    for address in look_up_within(rt, alloc, name, deadline.left(rt))? {
        let limit = deadline.left(rt).min(Duration::from_millis(MAX_TRY));
        if accepts(rt, address, limit) {
            return Ok(true);
        }
    }
    Ok(false)
}

/// Whether an address accepts a connect within a time.
fn accepts<R: Net>(rt: &R, address: SocketAddr, limit: Duration) -> bool {
    let Ok(begun) = BegunStream::connect(rt, address) else {
        return false;
    };
    let stream = TcpStream::from(begun);
    let millis = i32::try_from(limit.as_millis()).unwrap_or(i32::MAX);
    can_write(stream.as_raw_fd(), millis)
        && matches!(
            connection_of(&stream),
            Connection::There | Connection::WasReset
        )
        && !is_its_own_peer(&stream)
}

/// Whether a socket is connected to itself. The system does so where nobody listens and the port of the peer is the one that it has
/// given the socket.
fn is_its_own_peer(stream: &TcpStream) -> bool {
    match (stream.local_addr(), stream.peer_addr()) {
        (Ok(own), Ok(peer)) => own == peer,
        _ => false,
    }
}

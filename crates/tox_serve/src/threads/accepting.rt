//! Waiting for the next connection of a listener.
use crate::descriptors::Descriptors;
use crate::proxy::accepting::{ACCEPT_REST, Next, after};
use crate::run::ServeRun;
use std::net::{TcpListener, TcpStream};
use std::os::fd::AsRawFd;
use std::sync::Wait;
use std::thread;
use std::time::{Clock, Duration};
use tox_sockets::can_read;

/// How long a connection is waited for, in milliseconds: without a limit.
const FOREVER: i32 = -1;

/// What came of trying to take a connection.
#[derive(Drop)]
enum Took {
    Client(TcpStream),
    Failed(Next),
}

/// Takes a connection that has come, while a descriptor is in hand for its upstream.
fn take_now(descriptors: &Descriptors, listener: &TcpListener) -> Took {
    let Some(spare) = descriptors.spare() else {
        return Took::Failed(Next::Rest);
    };
    let took = match listener.accept() {
        Ok((client, _)) => Took::Client(client),
        Err(error) => Took::Failed(after(&error)),
    };
    drop(spare);
    took
}

/// The next connection of a listener that doesn't wait. None where it fails for good, or the run is stopping.
pub(crate) fn next_client<R: Wait + Clock>(
    rt: &R,
    run: &ServeRun<'_>,
    listener: &TcpListener,
) -> Option<TcpStream> {
    for _ in rt.forever() {
        let _comes = can_read(listener.as_raw_fd(), FOREVER);
        match take_now(&run.descriptors, listener) {
            Took::Client(client) => return Some(client),
            Took::Failed(Next::TryAgain) => {}
            Took::Failed(Next::Rest) if !run.live.is_stopping(rt) => {
                thread::sleep(rt, Duration::from_millis(ACCEPT_REST));
            }
            Took::Failed(_) => return None,
        }
    }
    unreachable!()
}

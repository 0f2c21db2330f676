//! Connecting the upstream of a link. The connect doesn't wait in the system, so that a run that is stopping gives it up.
use crate::deadline::Deadline;
use crate::link::break_reason::BreakReason;
use crate::link::look_up::look_up;
use crate::link::reached::Reached;
use crate::proxy::accepting::is_lack;
use crate::run::ServeRun;
use crate::runtime::ServeRuntime;
use mio::net::TcpStream as BegunStream;
use std::io::ErrorKind;
use std::net::{SocketAddr, TcpStream};
use std::os::fd::AsRawFd;
use std::time::Clock;
use tox_sockets::{Connection, can_write, connection_of};

/// How long an answer is waited for at a time, in milliseconds.
const TURN: i32 = 50;

/// The socket of an upstream, or why there is none: a run that is stopping reaches none either. Each address of its name is tried
/// in turn.
pub(crate) fn connect<R: ServeRuntime>(
    rt: &R,
    run: &ServeRun<'_>,
    upstream: &str,
) -> Result<Reached, BreakReason> {
    let mut reason = BreakReason::Name;
    for address in look_up(rt, run, upstream)? {
        match connect_to(rt, run, address) {
            Ok(reached) => return Ok(reached),
            Err(kind) => reason = BreakReason::Upstream(kind),
        }
    }
    Err(reason)
}

/// The socket of an address, or why there is none.
fn connect_to<R: ServeRuntime>(
    rt: &R,
    run: &ServeRun<'_>,
    address: SocketAddr,
) -> Result<Reached, ErrorKind> {
    let server = begin_connect(rt, run, address)?;
    if !has_answered(rt, run, &server) {
        return Err(ErrorKind::TimedOut);
    }
    let was_reset = match connection_of(&server) {
        Connection::There => false,
        Connection::WasReset => true,
        Connection::Coming => return Err(ErrorKind::TimedOut),
        Connection::Refused(kind) => return Err(kind),
    };
    match server.set_nonblocking(false) {
        Ok(()) => Ok(Reached { server, was_reset }),
        Err(error) => Err(error.kind()),
    }
}

/// Begins a connect, once there is a descriptor for it. An error if it can't begin, or the run is stopping.
fn begin_connect<R: ServeRuntime>(
    rt: &R,
    run: &ServeRun<'_>,
    address: SocketAddr,
) -> Result<TcpStream, ErrorKind> {
    let mut lack = None;
    for _ in rt.forever() {
        if run.live.is_stopping(rt) {
            return Err(ErrorKind::Interrupted);
        }
        match BegunStream::connect(rt, address) {
            Ok(begun) => return Ok(TcpStream::from(begun)),
            Err(error) if is_lack(&error) => {
                lack = Some(run.descriptors.wait(rt, lack));
            }
            Err(error) => return Err(error.kind()),
        }
    }
    unreachable!()
}

/// Whether a connect that has begun ends, well or not, before `--connect-timeout` is over or the run is stopping.
fn has_answered<R: ServeRuntime>(rt: &R, run: &ServeRun<'_>, stream: &TcpStream) -> bool {
    let deadline = match run.options.connect_timeout {
        Some(millis) => Some(Deadline::after(rt, millis)),
        None => None,
    };
    for _ in rt.forever() {
        let turn = turn_before(rt, deadline);
        if can_write(stream.as_raw_fd(), turn) {
            return true;
        }
        if turn == 0 || run.live.is_stopping(rt) {
            return false;
        }
    }
    unreachable!()
}

/// How long an answer is waited for next, in milliseconds: a turn, or what is left before a deadline. 0 once it has passed.
fn turn_before<R: Clock>(rt: &R, deadline: Option<Deadline>) -> i32 {
    match deadline {
        Some(deadline) => deadline.left_millis(rt).min(TURN),
        None => TURN,
    }
}

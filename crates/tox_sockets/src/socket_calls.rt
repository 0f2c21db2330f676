//! What a TCP socket is asked and told beyond what std can.
ghost use Rattle.std.specs.Prelude.{◌≡◌, ◌↔◌, ◌++◌, pos, ◌≤ℤ◌, replicate, IsOk, IfOk};
ghost use Rattle.std.specs.Int.{w32, to_le_bytes};
ghost use Rattle.io.specs.Counts.{IsPrefixLen};

use libc::net as system;
use libc::types::pollfd;
use std::io;
use std::net::{TcpListener, TcpStream};
use std::os::fd::{AsRawFd, RawFd};

/// How many bytes of an address without a family are read.
const NO_ADDRESS_LEN: u32 = 16;

/// How many bytes of an option's value are read.
const NUMBER_LEN: u32 = 4;

/// When a silent peer is asked whether it still lives: how many seconds of silence come before the first question, how many
/// lie between two, and after how many without an answer the connection ends.
#[derive(Clone, Copy)]
pub struct KeepAlive {
    pub idle: u32,
    pub interval: u32,
    pub probes: u32,
}

impl KeepAlive {
    /// For the sockets of links: a peer that has vanished is found within two minutes.
    fn of_links() -> KeepAlive
        ensures { result ≡ record { idle = 60; interval = 10; probes = 6 } }
    {
        KeepAlive {
            idle: 60,
            interval: 10,
            probes: 6,
        }
    }
}

/// Lets as many connections of a listener wait for `accept` as the system allows, and prepares each of them: on Linux it has these
/// options from its listener.
pub fn prepare_listener(listener: &TcpListener) -> io::Result<()> {
    let fd = listener.as_raw_fd();
    check(system::listen(fd, i32::MAX))?;
    prepare(fd)
}

/// Prepares a connection that a link has made.
pub fn prepare_connection(socket: &TcpStream) -> io::Result<()> {
    prepare(socket.as_raw_fd())
}

/// Small writes go out at once, and the system asks a silent peer whether it still lives.
fn prepare(fd: RawFd) -> io::Result<()> {
    let on = number(1);
    check(unsafe {
        system::setsockopt(
            fd,
            system::IPPROTO_TCP,
            system::TCP_NODELAY,
            &on,
            NUMBER_LEN,
        )
    })?;
    keep_alive(fd)
}

/// Has the system ask a silent peer whether it still lives.
fn keep_alive(fd: RawFd) -> io::Result<()> {
    let KeepAlive {
        idle,
        interval,
        probes,
    } = KeepAlive::of_links();
    let (tcp, all) = (system::IPPROTO_TCP, system::SOL_SOCKET);
    let on = number(1);
    check(unsafe { system::setsockopt(fd, all, system::SO_KEEPALIVE, &on, NUMBER_LEN) })?;
    let idle = number(idle);
    check(unsafe { system::setsockopt(fd, tcp, system::TCP_KEEPIDLE, &idle, NUMBER_LEN) })?;
    let interval = number(interval);
    check(unsafe { system::setsockopt(fd, tcp, system::TCP_KEEPINTVL, &interval, NUMBER_LEN) })?;
    let probes = number(probes);
    check(unsafe { system::setsockopt(fd, tcp, system::TCP_KEEPCNT, &probes, NUMBER_LEN) })
}

/// Ends a connection by a reset. Its peer learns it at once, what was not yet sent is dropped, and threads that wait for the
/// socket go on.
pub fn reset(socket: &TcpStream) -> io::Result<()> {
    check(unsafe { system::connect(socket.as_raw_fd(), &no_address(), NO_ADDRESS_LEN) })
}

/// Reads what has come by now, without waiting. `WouldBlock` where nothing has.
pub fn read_now(socket: &TcpStream, buf: &mut [u8]) -> io::Result<usize>
    ensures { IfOk result (λ count. IsPrefixLen count buf.new) }
{
    let count = unsafe { system::recv(socket.as_raw_fd(), buf, system::MSG_DONTWAIT) };
    if count < 0 {
        Err(io::Error::from_raw_os_error(os::errno()))
    } else {
        Ok(count as usize)
    }
}

/// An address of no family, AF_UNSPEC. A socket that is connected to it ends the connection that it has.
fn no_address() -> [u8; system::_SS_SIZE]
    ensures { result ≡ replicate 128 0 }
{
    [0; system::_SS_SIZE]
}

/// An option's value: a number in its first four bytes.
fn number(number: u32) -> [u8; 16]
    ensures { result ≡ to_le_bytes w32 number ++ replicate 12 0 }
{
    let mut value = [0; 16];
    value[..4].copy_from_slice(&number.to_ne_bytes());
    value
}

/// The error of the call that has just answered this, if it is negative.
fn check(status: i32) -> io::Result<()>
    ensures { IsOk result ↔ (pos 0 ≤ℤ status) }
{
    if status < 0 {
        Err(io::Error::from_raw_os_error(os::errno()))
    } else {
        Ok(())
    }
}

/// Whether a descriptor can be written without waiting, or has failed, within so many milliseconds.
pub fn can_write(fd: RawFd, millis: i32) -> bool {
    comes(fd, system::POLLOUT, millis)
}

/// Whether a descriptor can be read without waiting, or has failed, within so many milliseconds. Without a limit where they are
/// negative; a signal ends that wait too.
pub fn can_read(fd: RawFd, millis: i32) -> bool {
    comes(fd, system::POLLIN, millis)
}

/// Whether the system reports an event of a descriptor, or a failure, within so many milliseconds.
fn comes(fd: RawFd, event: i16, millis: i32) -> bool {
    let mut asked = [pollfd {
        fd,
        events: event,
        revents: 0,
    }];
    system::poll(&mut asked, millis) > 0
}

/// Stops a listener: an `accept` that waits and all later ones fail.
pub fn stop_listening(listener: &TcpListener) -> io::Result<()> {
    check(system::shutdown(listener.as_raw_fd(), system::SHUT_RDWR))
}

//! One read or write of a socket that doesn't wait.
ghost use Rattle.std.specs.Prelude.{◌≡◌, ◌≤◌, length, nat_le, IfOk};
ghost use Rattle.std.specs.Io.Slices.{io_slices_bytes};

use std::io;
use std::io::{ErrorKind, IoSlice, Read, Write};
use std::net::TcpStream;

/// Reads what has come, at most once. A call that a signal interrupted is made again.
pub(crate) fn read_on(mut socket: &TcpStream, buffer: &mut [u8]) -> io::Result<usize>
    ensures { IfOk result (λ count. count ≤ length buffer.new) }
{
    for _ in 0..u64::MAX {
        match socket.read(buffer) {
            Err(error) if error.kind() == ErrorKind::Interrupted => {}
            answer => return answer,
        }
    }
    Err(ErrorKind::Interrupted.into())
}

/// Writes as much as there is room for. A call that a signal interrupted is made again.
pub(crate) fn write_on(socket: &TcpStream, buffers: &[IoSlice<'_>]) -> io::Result<usize>
    ensures { IfOk result (λ count. count ≤ length (io_slices_bytes buffers.now)) }
{
    for _ in 0..u64::MAX {
        match write_once(socket, buffers) {
            Err(error) if error.kind() == ErrorKind::Interrupted => {}
            answer => return answer,
        }
    }
    Err(ErrorKind::Interrupted.into())
}

/// Writes by one call. Where only the first buffer has bytes that is a plain write, which costs the system less.
fn write_once(mut socket: &TcpStream, buffers: &[IoSlice<'_>]) -> io::Result<usize>
    ensures { IfOk result (λ count. count ≤ length (io_slices_bytes buffers.now)) }
{
    match buffers.first() {
        Some(first) if is_all(first.as_slice().len(), buffers) => socket.write(first.as_slice()),
        _ => socket.write_vectored(buffers),
    }
}

/// Whether so many bytes are all that these buffers have.
pub(crate) fn is_all(count: usize, buffers: &[IoSlice<'_>]) -> bool
    ensures { result ≡ nat_le (length (io_slices_bytes buffers.now)) count }
{
    let mut left = count;
    for buffer in buffers {
        let len = buffer.as_slice().len();
        if left < len {
            return false;
        }
        left -= len;
    }
    true
}

/// Whether a call would have waited.
pub(crate) fn would_wait(error: &io::Error) -> bool {
    error.kind() == ErrorKind::WouldBlock
}

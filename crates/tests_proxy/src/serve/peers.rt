//! The peers of served links: an upstream and a client, over sockets of this machine.
use std::alloc::Global;
use std::io;
use std::io::{ErrorKind, Read, Write};
use std::net::{Net, Shutdown, TcpListener, TcpStream};
use std::process::Abort;

/// Takes one connection, reads it to its end, and sends back what it read.
pub fn echo_once(rt: &impl Abort, alloc: Global, listener: &TcpListener) {
    let (stream, _) = listener.accept().expect(rt, "a connection");
    let mut bytes = Vec::new(alloc);
    let mut socket = &stream;
    let _ = socket.read_to_end(&mut bytes);
    let _ = socket.write_all(&bytes);
}

/// Sends back what comes, to its end. Takes no memory.
fn echo(stream: &TcpStream) -> io::Result<()> {
    let mut socket = stream;
    let mut bytes = [0; 16];
    for _ in 0..u64::MAX {
        let count = socket.read(&mut bytes)?;
        if count == 0 {
            break;
        }
        socket.write_all(&bytes[..count])?;
    }
    Ok(())
}

/// Answers each connection.
pub fn echo_all(listener: &TcpListener) {
    for stream in listener.incoming() {
        if let Ok(stream) = stream {
            let _ = echo(&stream);
        }
    }
}

/// A client that has sent these bytes, and sends no more. None where the connection was reset before its connect returned. Takes no
/// memory.
pub fn send<R: Net<Stream = TcpStream> + Abort>(
    rt: &R,
    address: &str,
    bytes: &[u8],
) -> Option<TcpStream> {
    let stream = match TcpStream::connect(rt, address) {
        Ok(stream) => stream,
        Err(error) if error.kind() == ErrorKind::ConnectionReset => return None,
        Err(error) => panic!(rt; "no connection: {error}"),
    };
    let mut socket = &stream;
    let _ = socket.write_all(bytes);
    let _ = stream.shutdown(Shutdown::Write);
    Some(stream)
}

/// Reads until the connection is closed, if there is one. Takes no memory.
pub fn drain(client: &Option<TcpStream>) {
    let Some(stream) = client else {
        return;
    };
    let mut socket = stream;
    let mut answer = [0; 16];
    for _ in 0..u64::MAX {
        match socket.read(&mut answer) {
            Ok(0) | Err(_) => break,
            Ok(_) => {}
        }
    }
}

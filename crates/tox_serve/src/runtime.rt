//! What serving needs of the runtime.
use std::net::{Net, TcpListener, TcpStream};
use std::sync::Wait;
use std::thread::Threads;
use std::time::Clock;

/// Sockets, threads that may wait, and a clock. A `main` or a test can't call what has this bound, only what writes it out.
pub trait ServeRuntime: Net<Listener = TcpListener, Stream = TcpStream>
    + Threads
    + Wait
    + Clock
    + Copy
    + Send
    + Sync
    + 'static {}

impl<
    R: Net<Listener = TcpListener, Stream = TcpStream>
        + Threads
        + Wait
        + Clock
        + Copy
        + Send
        + Sync
        + 'static,
> ServeRuntime for R {}

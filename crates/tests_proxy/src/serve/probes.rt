//! Probes: an address that listens once all proxies do, and a wait for it.
use crate::comparing::assert_equal;
use crate::serve::peers::{drain, send};
use crate::serve::serving::{ADDRESS_IN_USE, address_of, compare_behind, listening, setup_between};
use std::net::{Net, TcpListener, TcpStream};
use std::process::Abort;
use std::sync::{Mutex, Wait};
use std::thread;
use std::thread::Threads;
use std::time::Clock;
use tox_proxy::{
    NoLogs, NoNotices, NoticeChannel, ServeFault, ServeOptions, Setup, Stop, WaitFault, serve_with,
    wait_until_ready,
};

/// Where nobody listens.
const NOBODY: &str = "127.0.0.1:1";

/// How often the address for probes is connected to.
const PROBES: usize = 10;

/// The longest wait, in milliseconds.
const PATIENCE: u32 = 10_000;

/// An address that the system has just given, and nobody else has.
pub fn free_address<R: Net<Listener = TcpListener, Stream = TcpStream> + Abort + AllocGlobal>(
    rt: &R,
) -> String {
    let listener = TcpListener::bind(rt, "127.0.0.1:0").expect(rt, "a port");
    address_of(rt, Some(&listener))
}

/// Serves a link by threads, or by so many workers, with an address for probes.
fn run<
    'a,
    R: Net<Listener = TcpListener, Stream = TcpStream>
        + Threads
        + Wait
        + Clock
        + Copy
        + Send
        + Sync
        + 'static
        + AllocGlobal,
>(
    rt: &R,
    setup: &'a Setup,
    ready: &str,
    workers: Option<u32>,
    lines: &Mutex<Vec<u8>>,
) -> Result<(), ServeFault<'a>> {
    let options = ServeOptions {
        links: Some(1),
        ready: Some(ready),
        workers,
        ..ServeOptions::default()
    };
    let (alloc, proxies, script) = (rt.alloc(), setup.proxies.as_slice(), &setup.script);
    let stop = Stop::new();
    let Ok(channel) = NoticeChannel::new(alloc, proxies.len()) else {
        return Err(ServeFault::OutOfMemory);
    };
    serve_with(
        rt, alloc, proxies, script, 1, lines, &channel, &NoNotices, &stop, &NoLogs, &options,
    )
}

/// Probes many times, and connects to the proxy once.
fn probe<
    R: Net<Listener = TcpListener, Stream = TcpStream>
        + Threads
        + Wait
        + Clock
        + Copy
        + Send
        + Sync
        + 'static
        + AllocGlobal
        + Abort,
>(rt: &R, ready: &str, lines: &Mutex<Vec<u8>>) {
    let waited = wait_until_ready(rt, rt.alloc(), ready, PATIENCE);
    assert_equal(rt, &waited, &Ok(()));
    for _ in 0..PROBES {
        drain(&send(rt, ready, b""));
    }
    drain(&send(rt, &listening(rt, lines), b""));
}

/// Compares what a run prints whose only link comes behind many probes. Nobody listens for probes once it has ended.
fn compare_probed<
    R: Net<Listener = TcpListener, Stream = TcpStream>
        + Threads
        + Wait
        + Clock
        + Copy
        + Send
        + Sync
        + 'static
        + AllocGlobal
        + Abort,
>(rt: &R, workers: Option<u32>) {
    let setup = setup_between(rt, "127.0.0.1:0", NOBODY, "");
    let address = free_address(rt);
    let lines = Mutex::new(Vec::new(rt.alloc()));
    let (served, ready, shared) = (&setup, address.as_str(), &lines);
    thread::scope(thread::scope_env(), rt, |scope| {
        let server = scope.spawn(move || run(rt, served, ready, workers, shared).is_ok());
        let server = server.expect(rt, "a thread");
        probe(rt, ready, shared);
        assert_equal(rt, &server.join(rt), &true);
    });
    let waited = wait_until_ready(rt, rt.alloc(), &address, 1);
    assert_equal(rt, &waited, &Err(WaitFault::NotReady(&address)));
    let expected = "link a 1 up 0 broken down 0 broken\ntotal a 1 up 0 down 0\n";
    compare_behind(rt, &lines.into_inner(), expected);
}

#[test]
fn probes_take_no_number_by_threads(rt: HostRuntime) {
    compare_probed(&rt, None);
}

#[test]
fn probes_take_no_number_by_workers(rt: HostRuntime) {
    compare_probed(&rt, Some(1));
}

#[test]
fn a_taken_address_for_probes_is_refused(rt: HostRuntime) {
    let taken = TcpListener::bind(&rt, "127.0.0.1:0").expect(&rt, "a port");
    let address = address_of(&rt, Some(&taken));
    let setup = setup_between(&rt, "127.0.0.1:0", NOBODY, "");
    let lines = Mutex::new(Vec::new(rt.alloc()));
    let answer = run(&rt, &setup, &address, None, &lines);
    assert_equal(
        &rt,
        &answer,
        &Err(ServeFault::ReadyRefused(Some(ADDRESS_IN_USE))),
    );
    assert_equal(&rt, &lines.into_inner().len(), &0);
}

#[test]
fn what_is_no_address_is_refused_at_once(rt: HostRuntime) {
    let waited = wait_until_ready(&rt, rt.alloc(), "localhost", PATIENCE);
    assert_equal(&rt, &waited, &Err(WaitFault::BadAddress("localhost")));
}

//! Served links, over sockets of this machine.
use crate::comparing::assert_equal;
use crate::serve::peers::{drain, echo_once, send};
use crate::setups::setup_of;
use std::io::{Read, Write};
use std::net::{Net, TcpListener, TcpStream};
use std::process::Abort;
use std::sync::{Mutex, Wait};
use std::thread;
use std::thread::Threads;
use std::time::{Clock, Duration};
use tox_proxy::{
    NoLogs, NoNotices, NoticeChannel, ServeFault, ServeOptions, Setup, Stop, serve, serve_with,
};

/// The system's number for a port that is taken.
pub const ADDRESS_IN_USE: i32 = 98;

/// Three bytes pass downstream.
const THREE_BYTES: &str = "\
[[rule]]
proxy = \"a\"
first = 1

[[rule.toxic]]
type = \"limit_data\"
attributes = { bytes = 3 }
";

/// A proxy from one address to another, and a script.
pub fn setup_between(
    rt: &(impl Abort + AllocGlobal),
    listen: &str,
    upstream: &str,
    script: &str,
) -> Setup {
    let config = format!(in rt.alloc();
        "[{{\"name\":\"a\",\"listen\":\"{listen}\",\"upstream\":\"{upstream}\"}}]"
    );
    let config = config.expect(rt, "memory");
    setup_of(rt, config.as_str(), script.as_bytes())
}

/// The address at which a listener is found, or one where nobody listens.
pub fn address_of(rt: &(impl Abort + AllocGlobal), listener: Option<&TcpListener>) -> String {
    let text = match listener {
        Some(listener) => {
            let address = listener.local_addr().expect(rt, "an address");
            format!(in rt.alloc(); "{address}")
        }
        None => "127.0.0.1:1".to_string(rt.alloc()),
    };
    text.expect(rt, "memory")
}

/// The address of the first line, once there is one.
fn first_address(rt: &(impl Abort + AllocGlobal), lines: &[u8]) -> Option<String> {
    let text = str::from_utf8(lines).expect(rt, "UTF-8");
    match text.split_once('\n') {
        Some((line, _)) => {
            let address = line.strip_prefix("listening a ").expect(rt, "an address");
            Some(address.to_string(rt.alloc()).expect(rt, "memory"))
        }
        None => None,
    }
}

/// Waits for the address of the first line.
pub fn listening<R: Wait + Clock + Abort + AllocGlobal>(rt: &R, out: &Mutex<Vec<u8>>) -> String {
    for _ in rt.forever() {
        thread::sleep(rt, Duration::from_millis(1));
        if let Some(address) = first_address(rt, &out.lock(rt)) {
            return address;
        }
    }
    unreachable!()
}

/// Compares what stands behind the first line.
pub fn compare_behind(rt: &impl Abort, lines: &[u8], expected: &str) {
    let text = str::from_utf8(lines).expect(rt, "UTF-8");
    let (_, rest) = text.split_once('\n').expect(rt, "a line");
    assert_equal(rt, &rest, &expected);
}

/// Sends five bytes through a link, and tells its run to stop while it lives. Gives both peers, so that they close nothing before the link is reset.
fn tell_a_living_link<R: Net<Stream = TcpStream> + Wait + Abort>(
    rt: &R,
    address: &str,
    upstream: &TcpListener,
    stop: &Stop,
) -> (TcpStream, TcpStream) {
    let client = TcpStream::connect(rt, address).expect(rt, "a connection");
    let (server, _) = upstream.accept().expect(rt, "a connection");
    let mut sender = &client;
    sender.write_all(b"abcde").expect(rt, "a write");
    let mut bytes = [0; 5];
    let mut receiver = &server;
    receiver.read_exact(&mut bytes).expect(rt, "a read");
    stop.request(rt);
    (client, server)
}

/// Sends five bytes, and reads to the end what the upstream sends back, if there is one.
fn ask_upstream<R: Net<Stream = TcpStream> + Abort + AllocGlobal>(
    rt: &R,
    address: &str,
    upstream: Option<&TcpListener>,
) {
    let client = send(rt, address, b"abcde");
    if let Some(listener) = upstream {
        echo_once(rt, rt.alloc(), listener);
    }
    drain(&client);
}

/// Serves until a run is told to stop, or else one link.
fn run<
    R: Net<Listener = TcpListener, Stream = TcpStream>
        + Threads
        + Wait
        + Clock
        + Copy
        + Send
        + Sync
        + 'static
        + AllocGlobal,
>(rt: &R, setup: &Setup, stop: Option<&Stop>, lines: &Mutex<Vec<u8>>) -> bool {
    let (alloc, proxies, script) = (rt.alloc(), setup.proxies.as_slice(), &setup.script);
    let answer = match stop {
        Some(stop) => {
            let options = ServeOptions::default();
            let Ok(channel) = NoticeChannel::new(alloc, proxies.len()) else {
                return false;
            };
            serve_with(
                rt, alloc, proxies, script, 1, lines, &channel, &NoNotices, stop, &NoLogs, &options,
            )
        }
        None => serve(rt, alloc, proxies, script, 1, Some(1), lines),
    };
    answer.is_ok()
}

/// Serves a link, on which a client sends five bytes.
fn serve_link<
    R: Net<Listener = TcpListener, Stream = TcpStream>
        + Threads
        + Wait
        + Clock
        + Copy
        + Send
        + Sync
        + 'static
        + AllocGlobal
        + Abort,
>(
    rt: &R,
    setup: &Setup,
    upstream: Option<&TcpListener>,
    stop: Option<&Stop>,
    lines: &Mutex<Vec<u8>>,
) {
    thread::scope(thread::scope_env(), rt, |scope| {
        let server = scope.spawn(move || run(rt, setup, stop, lines));
        let server = server.expect(rt, "a thread");
        let address = listening(rt, lines);
        match (upstream, stop) {
            (Some(upstream), Some(stop)) => {
                let peers = tell_a_living_link(rt, &address, upstream, stop);
                server.join(rt);
                drop(peers);
            }
            _ => {
                ask_upstream(rt, &address, upstream);
                server.join(rt);
            }
        }
    })
}

/// Serves a link, on which a client sends five bytes, and compares what is printed behind the first line. With a stop the run
/// is told to stop while the link lives.
fn compare_served<
    R: Net<Listener = TcpListener, Stream = TcpStream>
        + Threads
        + Wait
        + Clock
        + Copy
        + Send
        + Sync
        + 'static
        + AllocGlobal
        + Abort,
>(rt: &R, script: &str, upstream: Option<&TcpListener>, stop: Option<&Stop>, expected: &str) {
    let address = address_of(rt, upstream);
    let setup = setup_between(rt, "127.0.0.1:0", address.as_str(), script);
    let lines = Mutex::new(Vec::new(rt.alloc()));
    serve_link(rt, &setup, upstream, stop, &lines);
    compare_behind(rt, &lines.into_inner(), expected);
}

#[test]
fn a_link_is_carried_and_reported(rt: HostRuntime) {
    let upstream = TcpListener::bind(&rt, "127.0.0.1:0").expect(&rt, "a port");
    let expected = "link a 1 up 5 closed down 3 closed\ntotal a 1 up 5 down 3\n";
    compare_served(&rt, THREE_BYTES, Some(&upstream), None, expected);
}

#[test]
fn an_upstream_where_nobody_listens_breaks_the_link(rt: HostRuntime) {
    let expected = "link a 1 up 0 broken down 0 broken\ntotal a 1 up 0 down 0\n";
    compare_served(&rt, "", None, None, expected);
}

#[test]
fn a_reported_run_ends_with_its_totals(rt: HostRuntime) {
    let upstream = TcpListener::bind(&rt, "127.0.0.1:0").expect(&rt, "a port");
    let expected = "link a 1 up 5 broken down 0 broken\ntotal a 1 up 5 down 0\n";
    compare_served(&rt, "", Some(&upstream), Some(&Stop::new()), expected);
}

#[test]
fn a_taken_port_is_refused(rt: HostRuntime) {
    let taken = TcpListener::bind(&rt, "127.0.0.1:0").expect(&rt, "a port");
    let address = address_of(&rt, Some(&taken));
    let setup = setup_between(&rt, address.as_str(), "127.0.0.1:1", "");
    let out = Mutex::new(Vec::new(rt.alloc()));
    let answer = serve(
        &rt,
        rt.alloc(),
        &setup.proxies,
        &setup.script,
        1,
        Some(1),
        &out,
    );
    assert_equal(
        &rt,
        &answer,
        &Err(ServeFault::ListenRefused("a", Some(ADDRESS_IN_USE))),
    );
    assert_equal(&rt, &out.into_inner().len(), &0);
}

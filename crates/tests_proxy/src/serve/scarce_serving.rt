//! Served links, with too little memory and too few threads.
use crate::comparing::assert_equal;
use crate::serve::peers::{drain, echo_all, send};
use crate::setups::setup_of;
use std::net::{Net, TcpListener, TcpStream};
use std::process::Abort;
use std::sync::{Arc, Mutex, Wait};
use std::test::Fail;
use std::thread;
use std::thread::Threads;
use std::time::{Clock, Duration};
use tests_support::{Refusals, Scarcity, Tried, keep_stacks, try_each};
use tox_proxy::{Setup, serve};

/// More pages than a link needs.
const PAGES: usize = 100;

/// What is left to the client, in 16 bytes.
const CLIENT_SIXTEENS: usize = 4096;

/// Room for all lines.
const OUT_SIZE: usize = 16_384;

/// How long a line is waited for, in milliseconds.
const LINE_WAIT: u64 = 1000;

/// The proxies a and b. Nobody listens at the upstream of b.
fn setup_before(rt: &(impl Abort + AllocGlobal), upstream: &TcpListener) -> Setup {
    let upstream = upstream.local_addr().expect(rt, "an address");
    let text = format!(in rt.alloc();
        "[{{\"name\":\"a\",\"listen\":\"127.0.0.1:0\",\"upstream\":\"{upstream}\"}},\
        {{\"name\":\"b\",\"listen\":\"127.0.0.1:0\",\"upstream\":\"127.0.0.1:1\"}}]"
    );
    setup_of(rt, text.expect(rt, "memory").as_str(), b"")
}

/// What was printed behind `start`, once something was. Empty if nothing is within a second.
fn printed<R: Wait + Clock + Abort + AllocGlobal>(
    rt: &R,
    out: &Mutex<Vec<u8>>,
    start: usize,
) -> String {
    for _ in 0..LINE_WAIT {
        thread::sleep(rt, Duration::from_millis(1));
        let lines = out.lock(rt);
        if start < lines.len() {
            let text = str::from_utf8(&lines[start..]).expect(rt, "UTF-8");
            return text.to_string(rt.alloc()).expect(rt, "memory");
        }
    }
    String::new(rt.alloc())
}

/// The address in the line that begins so.
fn address_after<'a>(rt: &impl Abort, lines: &'a str, start: &str) -> &'a str {
    for line in lines.lines() {
        if let Some(address) = line.strip_prefix(start) {
            return address;
        }
    }
    panic!(rt; "no line for a proxy")
}

/// What the line of a link says.
fn link_tried(rt: &(impl Abort + AllocGlobal), line: &str, number: u64) -> Tried {
    let start = format!(in rt.alloc(); "link a {number} up ").expect(rt, "memory");
    match line.strip_prefix(start.as_str()) {
        Some("2 closed down 2 closed\n") => Tried::Answered,
        Some(ends) if ends.contains(" broken down ") && ends.ends_with(" broken\n") => {
            Tried::NoMemory
        }
        _ => Tried::Wrong,
    }
}

/// How often the links of a proxy were broken until one was carried, and how many connections got no line.
#[derive(Drop)]
struct Served {
    links: Refusals,
    unlisted: usize,
}

/// Connects again and again, with a page more each time, until a link is carried.
fn try_links<R: Net<Stream = TcpStream> + Wait + Clock + Abort + AllocGlobal>(
    rt: &R,
    scarcity: &mut Scarcity,
    address: &str,
    out: &Mutex<Vec<u8>>,
) -> Result<Served, Fail> {
    let mut start = out.lock(rt).len();
    let (mut number, mut unlisted) = (1u64, 0usize);
    let links = try_each(scarcity, PAGES, |scarcity, nth| {
        scarcity.open_pages(nth.min(1));
        drain(&send(rt, address, b"ab"));
        let line = printed(rt, out, start);
        if line.is_empty() {
            unlisted = unlisted.saturating_add(1);
            return Ok(Tried::NoMemory);
        }
        start = start.saturating_add(line.len());
        number = number.saturating_add(1);
        Ok(link_tried(rt, &line, number.saturating_sub(1)))
    })?;
    Ok(Served { links, unlisted })
}

/// Where the lines are printed to.
fn shared_lines(rt: &(impl Abort + AllocGlobal)) -> Arc<Mutex<Vec<u8>>> {
    let out: Vec<u8> = Vec::with_capacity(rt.alloc(), OUT_SIZE).expect(rt, "memory");
    Arc::new(rt.alloc(), Mutex::new(out)).expect(rt, "memory")
}

/// Takes all memory but for threads, and starts a thread that serves a and b. It is not waited for at the end.
fn start_serving<
    R: Net<Listener = TcpListener, Stream = TcpStream>
        + Threads
        + Wait
        + Clock
        + Copy
        + Send
        + Sync
        + 'static
        + AllocGlobal
        + Abort,
>(rt: &R, setup: Setup, out: &Arc<Mutex<Vec<u8>>>) -> Scarcity {
    let (there, lines) = (*rt, out.clone().expect(rt, "a count"));
    let alloc = rt.alloc();
    let scarcity = Scarcity::with_threads(alloc).expect(rt, "memory");
    let serving = thread::spawn(rt, move || {
        serve(
            &there,
            alloc,
            &setup.proxies,
            &setup.script,
            1,
            None,
            &*lines,
        )
        .is_ok()
    });
    serving.expect(rt, "a thread");
    scarcity
}

/// The address of a, once a link of b shows that the threads of both proxies have started.
fn address_of_a<R: Net<Stream = TcpStream> + Wait + Clock + Abort + AllocGlobal>(
    rt: &R,
    out: &Mutex<Vec<u8>>,
) -> String {
    let listening = printed(rt, out, 0);
    drain(&send(rt, address_after(rt, &listening, "listening b "), b"ab"));
    printed(rt, out, listening.len());
    let address = address_after(rt, &listening, "listening a ");
    address.to_string(rt.alloc()).expect(rt, "memory")
}

/// Serves links with ever more pages, where there are stacks for so many threads. A link has four threads.
/// Under a `ulimit -s` of 10 MB or more the C library keeps fewer stacks, and no link is carried.
fn serve_behind<
    R: Net<Listener = TcpListener, Stream = TcpStream>
        + Threads
        + Wait
        + Clock
        + Copy
        + Send
        + Sync
        + 'static
        + AllocGlobal
        + Abort,
>(rt: &R, threads: usize) -> Result<Served, Fail> {
    let upstream = TcpListener::bind(rt, "127.0.0.1:0").expect(rt, "a port");
    let out = shared_lines(rt);
    let mut scarcity = start_serving(rt, setup_before(rt, &upstream), &out);
    let address = address_of_a(rt, &out);
    thread::spawn(rt, move || echo_all(&upstream)).expect(rt, "a thread");
    keep_stacks(rt, threads);
    scarcity
        .leave(rt.alloc(), CLIENT_SIXTEENS)
        .expect(rt, "memory");
    try_links(rt, &mut scarcity, &address, &out)
}

/// Prints what was refused. Some connections got no line, some a broken link, and one was carried in the end or none.
fn compare(rt: &(impl Abort + Eprint), served: &Served, is_answered: bool) {
    let (links, unlisted) = (served.links, served.unlisted);
    eprintln!(rt; "{links:?}, unlisted {unlisted}").expect(rt, "standard error");
    assert_equal(rt, &links.is_answered, &is_answered);
    assert!(rt; 0 < unlisted);
    assert!(rt; unlisted < links.memory);
}

#[test]
fn a_served_link_is_refused_its_thread(rt: HostRuntime) -> Result<(), Fail> {
    compare(&rt, &serve_behind(&rt, 0)?, false);
    Ok(())
}

#[test]
fn a_served_link_is_refused_the_other_stream(rt: HostRuntime) -> Result<(), Fail> {
    compare(&rt, &serve_behind(&rt, 1)?, false);
    Ok(())
}

#[test]
fn a_served_link_is_refused_a_reader(rt: HostRuntime) -> Result<(), Fail> {
    compare(&rt, &serve_behind(&rt, 2)?, false);
    Ok(())
}

#[test]
fn a_served_link_is_refused_memory(rt: HostRuntime) -> Result<(), Fail> {
    compare(&rt, &serve_behind(&rt, 4)?, true);
    Ok(())
}

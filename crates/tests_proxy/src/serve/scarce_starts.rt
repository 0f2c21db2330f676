//! The start of serving, with too little memory and too few threads: the queues of lines, the threads that tell notices and write the
//! lines, the address for probes with its thread, and the thread of a proxy.
use crate::comparing::assert_equal;
use crate::serve::probes::free_address;
use crate::setups::setup_of;
use std::net::{Net, TcpListener, TcpStream};
use std::process::Abort;
use std::sync::{Mutex, Wait};
use std::test::Fail;
use std::thread::Threads;
use std::time::Clock;
use tests_support::{Refusals, Scarcity, Tried, try_each, with_stacks};
use tox_proxy::{
    NoLogs, NoNotices, NoticeChannel, ServeFault, ServeOptions, Setup, Stop, serve_with,
};

/// Room for all lines.
const OUT_SIZE: usize = 1_024;

/// Three queues of 65,536 bytes take at least so many pages.
const QUEUE_PAGES: usize = 3 * 16;

/// More pages than a start needs.
const PAGES: usize = 100;

const CONFIG: &str = "[{\"name\":\"a\",\"listen\":\"127.0.0.1:0\",\"upstream\":\"127.0.0.1:1\"}]";

/// What a run without links prints behind the first line.
const TOTAL: &str = "total a 0 up 0 down 0\n";

/// Whether these are the lines of a run without links.
fn are_lines(lines: &[u8]) -> bool {
    let Ok(text) = str::from_utf8(lines) else {
        return false;
    };
    match text.split_once('\n') {
        Some((first, rest)) => first.starts_with("listening a 127.0.0.1:") && rest == TOTAL,
        None => false,
    }
}

/// What a run answered that has printed these lines.
fn tried_of(answer: &Result<(), ServeFault<'_>>, lines: &[u8]) -> Tried {
    match answer {
        Ok(()) if are_lines(lines) => Tried::Answered,
        Err(ServeFault::OutOfMemory) if lines.is_empty() => Tried::NoMemory,
        Err(ServeFault::SpawnRefused) => Tried::NoThread,
        _ => Tried::Wrong,
    }
}

/// A run that was told to stop before it starts, with so many pages. Nothing is printed if it is refused.
fn serve_with_pages<
    R: Net<Listener = TcpListener, Stream = TcpStream>
        + Threads
        + Wait
        + Clock
        + Copy
        + Send
        + Sync
        + 'static
        + AllocGlobal
        + Abort,
>(rt: &R, scarcity: &mut Scarcity, pages: usize, setup: &Setup, ready: Option<&str>) -> Tried {
    let (alloc, proxies, script) = (rt.alloc(), setup.proxies.as_slice(), &setup.script);
    let out: Vec<u8> = Vec::with_capacity(alloc, OUT_SIZE).expect(rt, "memory");
    let out = Mutex::new(out);
    let stop = Stop::new();
    stop.request(rt);
    let options = ServeOptions {
        ready,
        ..ServeOptions::default()
    };
    let channel = NoticeChannel::new(alloc, proxies.len()).expect(rt, "memory");
    scarcity.leave_pages(alloc, pages).expect(rt, "memory");
    let answer = serve_with(
        rt, alloc, proxies, script, 1, &out, &channel, &NoNotices, &stop, &NoLogs, &options,
    );
    scarcity.end();
    tried_of(&answer, &out.into_inner())
}

/// Starts with ever more pages, where there are stacks for so many threads.
fn start_behind<
    R: Net<Listener = TcpListener, Stream = TcpStream>
        + Threads
        + Wait
        + Clock
        + Copy
        + Send
        + Sync
        + 'static
        + AllocGlobal
        + Abort,
>(rt: &R, threads: usize, ready: Option<&str>) -> Result<Refusals, Fail> {
    let setup = setup_of(rt, CONFIG, b"");
    let mut scarcity = with_stacks(rt, rt.alloc(), threads).expect(rt, "memory");
    try_each(&mut scarcity, PAGES, |scarcity, pages| {
        Ok(serve_with_pages(rt, scarcity, pages, &setup, ready))
    })
}

/// Prints what was refused, and compares how the last start ended.
fn compare(rt: &(impl Abort + Eprint), refusals: &Refusals, last: Tried) {
    eprintln!(rt; "{refusals:?}").expect(rt, "standard error");
    assert_equal(rt, &refusals.last, &Some(last));
    assert_equal(rt, &refusals.is_answered, &(last == Tried::Answered));
}

#[test]
fn the_queues_of_lines_are_refused_memory(rt: HostRuntime) -> Result<(), Fail> {
    let refusals = start_behind(&rt, 4, None)?;
    compare(&rt, &refusals, Tried::Answered);
    assert!(rt; refusals.memory >= QUEUE_PAGES);
    Ok(())
}

#[test]
fn what_tells_notices_is_refused_its_thread(rt: HostRuntime) -> Result<(), Fail> {
    compare(&rt, &start_behind(&rt, 0, None)?, Tried::NoThread);
    Ok(())
}

#[test]
fn the_writer_of_lines_is_refused(rt: HostRuntime) -> Result<(), Fail> {
    compare(&rt, &start_behind(&rt, 1, None)?, Tried::NoThread);
    Ok(())
}

#[test]
fn a_proxy_is_refused_its_thread(rt: HostRuntime) -> Result<(), Fail> {
    compare(&rt, &start_behind(&rt, 2, None)?, Tried::NoThread);
    Ok(())
}

#[test]
fn an_address_for_probes_is_refused_memory(rt: HostRuntime) -> Result<(), Fail> {
    compare(
        &rt,
        &start_behind(&rt, 5, Some(&free_address(&rt)))?,
        Tried::Answered,
    );
    Ok(())
}

#[test]
fn what_answers_probes_is_refused_its_thread(rt: HostRuntime) -> Result<(), Fail> {
    compare(
        &rt,
        &start_behind(&rt, 2, Some(&free_address(&rt)))?,
        Tried::NoThread,
    );
    Ok(())
}

//! Waiting for an address, with too little memory and without a thread for its name.
use crate::comparing::assert_equal;
use std::net::{Net, TcpListener, TcpStream};
use std::process::Abort;
use std::sync::Wait;
use std::test::Fail;
use std::thread::Threads;
use std::time::Clock;
use tests_support::{Refusals, Tried, try_each, with_stacks};
use tox_proxy::{WaitFault, wait_until_ready};

/// More pages than a wait needs.
const PAGES: usize = 100;

/// Where nobody listens. The C library's look-up of a name may crash without memory, so memory is refused behind a number alone.
const NUMBER: &str = "127.0.0.1:1";

const NAME: &str = "localhost:1";

/// What a wait for an address where nobody listens has answered.
fn tried_of(answer: &Result<(), WaitFault<'_>>) -> Tried {
    match answer {
        Err(WaitFault::NotReady(_)) => Tried::Answered,
        Err(WaitFault::OutOfMemory) => Tried::NoMemory,
        Err(WaitFault::SpawnRefused) => Tried::NoThread,
        _ => Tried::Wrong,
    }
}

/// Waits for an address with ever more pages, where there are no stacks for threads.
fn wait_behind<
    R: Net<Listener = TcpListener, Stream = TcpStream>
        + Threads
        + Wait
        + Clock
        + Copy
        + Send
        + Sync
        + 'static
        + AllocGlobal
        + Abort,
>(rt: &R, address: &str) -> Result<Refusals, Fail> {
    let alloc = rt.alloc();
    let mut scarcity = with_stacks(rt, alloc, 0).expect(rt, "memory");
    try_each(&mut scarcity, PAGES, |scarcity, pages| {
        scarcity.leave_pages(alloc, pages).expect(rt, "memory");
        let answer = wait_until_ready(rt, alloc, address, 1);
        scarcity.end();
        Ok(tried_of(&answer))
    })
}

/// Prints what was refused, and compares how the last wait ended.
fn compare(rt: &(impl Abort + Eprint), refusals: &Refusals, last: Tried) {
    eprintln!(rt; "{refusals:?}").expect(rt, "standard error");
    assert_equal(rt, &refusals.last, &Some(last));
}

#[test]
fn a_wait_is_refused_memory(rt: HostRuntime) -> Result<(), Fail> {
    compare(&rt, &wait_behind(&rt, NUMBER)?, Tried::Answered);
    Ok(())
}

#[test]
fn a_look_up_is_refused_its_thread(rt: HostRuntime) -> Result<(), Fail> {
    compare(&rt, &wait_behind(&rt, NAME)?, Tried::NoThread);
    Ok(())
}

//! One served proxy: takes connections, starts a thread for each, and prints the totals at the end.
use crate::link::break_reason::BreakReason;
use crate::link::logs::broken_link;
use crate::proxy::filling::note_fill;
use crate::proxy::links::ProxyLinks;
use crate::proxy::listening::Listening;
use crate::proxy::taking::{Taken, is_enough, number_link};
use crate::run::ServeRun;
use crate::runtime::ServeRuntime;
use crate::threads::accepting::next_client;
use crate::threads::link::serve_link;
use std::net::TcpListener;
use std::thread;
use std::thread::Scope;

/// Serves a proxy until it stops listening and all its links have ended.
pub(crate) fn serve_proxy<R: ServeRuntime>(rt: &R, run: &ServeRun<'_>, listening: Listening<'_>) {
    let Listening {
        proxy,
        place,
        listener,
        key,
        address: _,
    } = listening;
    let links = ProxyLinks::new(run.alloc, proxy, place);
    let shared = &links;
    thread::scope(thread::scope_env(), rt, |scope| {
        take_links(rt, run, shared, scope, &listener);
        run.live.remove(rt, key);
        drop(listener);
        shared.end(rt, run);
    });
}

/// Takes connections until there were enough, the book is full or the listener fails, and then stops listening.
fn take_links<'s, E: 's, R: ServeRuntime>(
    rt: &'s R,
    run: &'s ServeRun<'s>,
    links: &'s ProxyLinks<'s>,
    scope: &'s Scope<'s, E>,
    listener: &TcpListener,
) {
    for connections in 0..u64::MAX {
        if is_enough(run.options.links, connections, &links.book(rt).book) {
            return;
        }
        let Some(client) = next_client(rt, run, listener) else {
            return;
        };
        let taken = number_link(&mut links.book(rt), client);
        if let Some(taken) = taken {
            note_fill(rt, run, links.place, taken.number);
            start_link(rt, run, links, scope, taken);
        }
    }
}

/// Serves a link in a thread of its own. If it is refused, the connection is closed and the link is broken.
fn start_link<'s, E: 's, R: ServeRuntime>(
    rt: &'s R,
    run: &'s ServeRun<'s>,
    links: &'s ProxyLinks<'s>,
    scope: &'s Scope<'s, E>,
    taken: Taken,
) {
    let number = taken.number;
    let started = scope.spawn(move || serve_link(rt, run, links, taken));
    if started.is_err() {
        let end = broken_link(rt, run, links, number, BreakReason::Thread);
        links.end_link(rt, run, &end);
    }
}

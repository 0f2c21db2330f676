//! Starting the threads of a run: one for each worker, and one for each proxy.
use crate::link::break_reason::BreakReason;
use crate::link::look_up::look_up;
use crate::run::ServeRun;
use crate::runtime::ServeRuntime;
use crate::workers::served_proxy::ServedProxy;
use crate::workers::shared::{WorkerPoll, Workers};
use crate::workers::upstream::Job;
use crate::workers::worker::work;
use std::alloc::Global;
use std::net::SocketAddr;
use std::sync::{Arc, Mutex};
use std::thread;
use std::thread::Scope;

/// Starts the workers and the threads of the proxies, all of which wait until they may go. False if one is refused.
pub(crate) fn start_workers<'s, E: 's, R: ServeRuntime>(
    rt: &'s R,
    run: &'s ServeRun<'s>,
    workers: &'s Workers<'s>,
    polls: Vec<WorkerPoll>,
    may_go: &'s Mutex<bool>,
    scope: &'s Scope<'s, E>,
) -> bool {
    for worker_poll in polls {
        if !start_worker(rt, run, workers, worker_poll, may_go, scope) {
            return false;
        }
    }
    for proxy in &workers.proxies {
        if !start_proxy(rt, run, workers, proxy, may_go, scope) {
            return false;
        }
    }
    true
}

fn start_worker<'s, E: 's, R: ServeRuntime>(
    rt: &'s R,
    run: &'s ServeRun<'s>,
    workers: &'s Workers<'s>,
    worker_poll: WorkerPoll,
    may_go: &'s Mutex<bool>,
    scope: &'s Scope<'s, E>,
) -> bool {
    let started = scope.spawn(move || {
        let goes = *may_go.lock(rt);
        if goes {
            work(rt, run, workers, worker_poll);
        }
    });
    started.is_ok()
}

fn start_proxy<'s, E: 's, R: ServeRuntime>(
    rt: &'s R,
    run: &'s ServeRun<'s>,
    workers: &'s Workers<'s>,
    proxy: &'s ServedProxy<'s>,
    may_go: &'s Mutex<bool>,
    scope: &'s Scope<'s, E>,
) -> bool {
    let started = scope.spawn(move || {
        let goes = *may_go.lock(rt);
        if goes {
            serve_proxy(rt, run, workers, proxy);
        }
        run.stop.ended(rt, &run.proxies);
    });
    started.is_ok()
}

/// Has the names looked up that links ask for, and prints the totals once the proxy has stopped listening and all its links have
/// ended. It returns once all look-ups have ended too.
fn serve_proxy<R: ServeRuntime>(
    rt: &R,
    run: &ServeRun<'_>,
    workers: &Workers<'_>,
    proxy: &ServedProxy<'_>,
) {
    thread::scope(thread::scope_env(), rt, |scope| {
        do_jobs(rt, run, workers, proxy, scope);
        proxy.links.end(rt, run);
    });
}

/// Starts look-ups until the proxy has stopped listening, and its links have ended or the run is stopping.
fn do_jobs<'s, E: 's, R: ServeRuntime>(
    rt: &'s R,
    run: &'s ServeRun<'s>,
    workers: &'s Workers<'s>,
    proxy: &'s ServedProxy<'s>,
    scope: &'s Scope<'s, E>,
) {
    for _ in rt.forever() {
        match proxy.upstream.next_job(rt) {
            Job::LookUp => start_look_up(rt, run, workers, proxy, scope),
            Job::SeeLinks => {
                if proxy.links.have_ended(rt) || run.live.is_stopping(rt) {
                    return;
                }
            }
        }
    }
    unreachable!()
}

/// Looks the name of a proxy's upstream up in a thread of its own, and wakes the workers then.
fn start_look_up<'s, E: 's, R: ServeRuntime>(
    rt: &'s R,
    run: &'s ServeRun<'s>,
    workers: &'s Workers<'s>,
    proxy: &'s ServedProxy<'s>,
    scope: &'s Scope<'s, E>,
) {
    let started = scope.spawn(move || {
        let found = find_addresses(rt, run, proxy);
        proxy.upstream.end_look_up(rt, found);
        workers.wake_all();
    });
    if started.is_err() {
        proxy.upstream.end_look_up(rt, Err(BreakReason::Thread));
        workers.wake_all();
    }
}

/// The addresses of a proxy's upstream, to be shared.
fn find_addresses<R: ServeRuntime>(
    rt: &R,
    run: &ServeRun<'_>,
    proxy: &ServedProxy<'_>,
) -> Result<Arc<Vec<SocketAddr>, Global>, BreakReason> {
    let served = proxy.links.proxy;
    let found = look_up(rt, run, &served.upstream)?;
    match Arc::new(run.alloc, found) {
        Ok(shared) => Ok(shared),
        Err(_) => Err(BreakReason::Memory),
    }
}

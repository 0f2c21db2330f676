//! Serving proxies: sockets under the plans of a script.
ghost use Rattle.std.specs.Prelude.{◌≡◌, All, false, is_some, IfErr, Ok};
ghost use Rattle.tox_serve.specs.output.LineQueue.{no_lines};
ghost use Rattle.tox_serve.specs.Serving.{HasServeCause};

use crate::descriptors::Descriptors;
use crate::fault::ServeFault;
use crate::options::ServeOptions;
use crate::output::{
    LineChannel, LineQueue, NoNotices, NoticeChannel, Notices, print_listening, tell_notices,
    write_lines,
};
use crate::proxy::listening::{Listening, listen_all};
use crate::ready::{listen_ready, start_ready};
use crate::run::ServeRun;
use crate::runtime::ServeRuntime;
use crate::stop::Stop;
use crate::threads::proxy::serve_proxy;
use crate::workers::{Workers, start_workers};
use std::alloc::Global;
use std::io::Write;
use std::net::{Net, TcpListener, TcpStream};
use std::sync::atomic::AtomicU64;
use std::sync::{Arc, Mutex, Wait};
use std::thread;
use std::thread::{Scope, Threads};
use std::time::Clock;
use tox_config::ProxyDef;
use tox_log::{LogFiles, NoLogs, RunLogs, write_logs};
use tox_script::Script;
use tox_sockets::LiveSockets;
use tox_time::OpenGate;

/// The addresses that are listened at: those of the proxies, and the one for probes if there is one.
#[derive(Drop)]
struct BoundAddresses<'a> {
    listening: Vec<Listening<'a>>,
    ready: Option<Arc<TcpListener, Global>>,
}

/// Empty queues: of the thread that writes the lines, and of the one that tells notices.
#[derive(Drop)]
struct Queues {
    empty: LineQueue,
    untold: LineQueue,
    ghost no_line: { empty ≡ no_lines },
    ghost nothing: { untold ≡ no_lines },
}

/// [`serve_with`], with this limit of links and no other option. Nobody is notified of dropped lines and broken links.
pub fn serve<
    'a,
    R: Net<Listener = TcpListener, Stream = TcpStream>
        + Threads
        + Wait
        + Clock
        + Copy
        + Send
        + Sync
        + 'static,
    W: Write + Send,
>(
    rt: &R,
    alloc: Global,
    proxies: &'a [ProxyDef],
    script: &Script,
    seed: u64,
    links: Option<u64>,
    out: &Mutex<W>,
) -> Result<(), ServeFault<'a>>
    ensures nothing { All (λ proxy. proxy.enabled ≡ false) proxies.now → result ≡ Ok tt }
    ensures fault { IfErr result (HasServeCause proxies.now false) }
{
    // Without an enabled proxy the answer is Ok, also where there is no memory.
    if !proxies.iter().any(|proxy| proxy.enabled) {
        return Ok(());
    }
    let options = ServeOptions::with_links(links);
    let Ok(channel) = NoticeChannel::new(alloc, proxies.len()) else {
        return Err(ServeFault::OutOfMemory);
    };
    serve_with(
        rt,
        alloc,
        proxies,
        script,
        seed,
        out,
        &channel,
        &NoNotices,
        &Stop::new(),
        &NoLogs,
        &options,
    )
}

/// Serves the enabled proxies. Binds all their addresses first, and prints where each listens. Each connection that is
/// taken meets the toxics of the script under the words of the seed and its number. A line tells how each link ended,
/// and one for each proxy its totals.
///
/// One thread writes the lines, so a writer that waits holds up no link. At most 65,536 bytes of lines wait for it. A link's
/// line that finds no room is dropped, and the gap is reported once the lines before it are written. The other lines wait for room.
/// Lines that the writer fails to take are dropped without a word, and later ones are tried again.
///
/// Another thread tells `notices` what comes through `channel`, an open one for as many proxies: gaps, broken links, full books, and what
/// others send. Of the links of a proxy that break for one kind of reason the first is reported at once, and then at most one a second
/// with how many more. Neither of the two threads waits for the other. Once all else has ended, `notices` is told so, and the channel is
/// closed. After a fault the caller may tell what waits by [`tell_waiting`](crate::tell_waiting).
///
/// With `options.ready` an address listens once those of all proxies do, until the last proxy has ended or the run is told to stop. One
/// more thread closes each connection that comes there. No such connection is counted or reported.
///
/// With `options.logs` one more thread brings the log of each link's streams to its file. A log that its file can't follow ends
/// early, which is reported once: it holds up no link either.
///
/// Returns once no proxy listens any more, all links have ended, and each line was written or dropped. A fault comes before any
/// connection is taken.
///
/// Told to stop, it listens no more and resets each link. A stream that hadn't ended is broken. Once no link has ended for 750
/// milliseconds the totals don't wait for those left, which then have no line. It still returns only once these have ended,
/// and waits for a writer that doesn't return: [`Room`](crate::Room) is for writers that give up.
///
/// # Errors
///
/// [`ListenRefused`](ServeFault::ListenRefused) and [`ReadyRefused`](ServeFault::ReadyRefused): the address of an enabled proxy, or the
/// one for probes, can't be listened at. [`SpawnRefused`](ServeFault::SpawnRefused): a thread, or a worker's poll, is refused.
/// [`OutOfMemory`](ServeFault::OutOfMemory).
pub fn serve_with<
    'a,
    R: Net<Listener = TcpListener, Stream = TcpStream>
        + Threads
        + Wait
        + Clock
        + Copy
        + Send
        + Sync
        + 'static,
    W: Write + Send,
    N: Notices + Sync,
    L: LogFiles + Sync,
>(
    rt: &R,
    alloc: Global,
    proxies: &'a [ProxyDef],
    script: &Script,
    seed: u64,
    out: &Mutex<W>,
    channel: &NoticeChannel,
    notices: &N,
    stop: &Stop,
    files: &L,
    options: &ServeOptions<'_>,
) -> Result<(), ServeFault<'a>>
    ensures nothing { All (λ proxy. proxy.enabled ≡ false) proxies.now → result ≡ Ok tt }
    ensures fault { IfErr result (HasServeCause proxies.now (is_some options.now.ready)) }
{
    if !proxies.iter().any(|proxy| proxy.enabled) {
        return Ok(());
    }
    let live = LiveSockets::new(alloc);
    let listening = listen_all(rt, alloc, &live, proxies)?;
    let ready = listen_ready(rt, alloc, &live, options.ready)?;
    let Ok(gate) = Arc::new(alloc, OpenGate) else {
        return Err(ServeFault::OutOfMemory);
    };
    let Ok(lines) = LineChannel::new(alloc) else {
        return Err(ServeFault::OutOfMemory);
    };
    let (Ok(empty), Ok(untold)) = (LineQueue::new(alloc), LineQueue::new(alloc)) else {
        return Err(ServeFault::OutOfMemory);
    };
    let logs = logs_of(alloc, options);
    let run = ServeRun {
        alloc,
        script,
        seed,
        options: *options,
        logs: &logs,
        lines: &lines,
        notices: channel,
        gate,
        stop,
        live: &live,
        descriptors: Descriptors::new(),
        proxies: AtomicU64::new(listening.len() as u64),
    };
    // The links have both from the run alone.
    prove!(run.seed == seed);
    prove!(run.options == *options);
    let bound = BoundAddresses { listening, ready };
    let queues = Queues { empty, untold };
    if serve_and_tell(rt, &run, bound, queues, out, proxies, notices, files) {
        Ok(())
    } else {
        Err(ServeFault::SpawnRefused)
    }
}

/// The logs of a run, if its options want them.
fn logs_of(alloc: Global, options: &ServeOptions<'_>) -> Option<RunLogs>
    ensures { result ≡ options.now.logs }
{
    match options.logs {
        Some(limits) => Some(RunLogs::new(alloc, limits)),
        None => None,
    }
}

/// Serves the proxies beside a thread that tells what comes through the channel of notices. False if a thread is refused: then no
/// connection of a proxy is taken.
fn serve_and_tell<R: ServeRuntime, W: Write + Send, N: Notices + Sync, L: LogFiles + Sync>(
    rt: &R,
    run: &ServeRun<'_>,
    bound: BoundAddresses<'_>,
    queues: Queues,
    out: &Mutex<W>,
    proxies: &[ProxyDef],
    notices: &N,
    files: &L,
) -> bool {
    let channel = run.notices;
    let Queues { empty, untold } = queues;
    thread::scope(
        thread::scope_env(),
        rt,
        |scope| -> bool
            requires empty { empty ≡ no_lines }
            requires untold { untold ≡ no_lines }
        {
            let teller = scope.spawn(
                move ||
                    requires { untold ≡ no_lines }
                { tell_notices(rt, channel, untold, proxies, notices) },
            );
            // What was sent before comes before the first line.
            channel.settle(rt);
            let served = teller.is_ok() && serve_and_write(rt, run, bound, empty, out, files);
            notices.ending();
            channel.close(rt);
            served
        },
    )
}

/// Serves the proxies beside a thread that writes the lines, one that writes the logs if any are kept, and one that answers probes if
/// there is an address for them. False if a thread is refused: then no connection of a proxy is taken.
fn serve_and_write<R: ServeRuntime, W: Write + Send, L: LogFiles + Sync>(
    rt: &R,
    run: &ServeRun<'_>,
    bound: BoundAddresses<'_>,
    empty: LineQueue,
    out: &Mutex<W>,
    files: &L,
) -> bool
    requires { empty ≡ no_lines }
{
    let (lines, notices) = (run.lines, run.notices);
    let BoundAddresses { listening, ready } = bound;
    thread::scope(
        thread::scope_env(),
        rt,
        |scope| -> bool
            requires { empty ≡ no_lines }
        {
            let writer = scope.spawn(
                move ||
                    requires { empty ≡ no_lines }
                { write_lines(rt, lines, empty, out, notices) },
            );
            if writer.is_err() {
                return false;
            }
            let served = start_log_writer(rt, run, scope, files)
                && start_ready(rt, run, scope, ready)
                && serve_all(rt, run, listening);
            // The thread that answers probes ends with the proxies.
            run.live.stop(rt);
            if let Some(logs) = run.logs {
                logs.close(rt);
            }
            lines.close(rt);
            served
        },
    )
}

/// Starts the thread that writes the logs, if any are kept. False if it is refused.
fn start_log_writer<'s, E: 's, R: ServeRuntime, L: LogFiles + Sync>(
    rt: &'s R,
    run: &'s ServeRun<'s>,
    scope: &'s Scope<'s, E>,
    files: &'s L,
) -> bool {
    match run.logs {
        Some(logs) => scope
            .spawn(move || write_logs(rt, run.alloc, logs, files))
            .is_ok(),
        None => true,
    }
}

/// Serves the proxies, by workers or with threads for each link. False if a thread is refused: then no connection is taken.
fn serve_all<R: ServeRuntime>(rt: &R, run: &ServeRun<'_>, listening: Vec<Listening<'_>>) -> bool {
    match run.options.workers {
        Some(workers) => serve_by_workers(rt, run, listening, workers),
        None => serve_by_threads(rt, run, listening),
    }
}

/// Serves each proxy in a thread of its own, and each link in more of them.
fn serve_by_threads<R: ServeRuntime>(
    rt: &R,
    run: &ServeRun<'_>,
    listening: Vec<Listening<'_>>,
) -> bool {
    let go = Mutex::new(false);
    let may_go = &go;
    thread::scope(thread::scope_env(), rt, |scope| {
        // The threads wait for the lock until all of them are there.
        let mut all_started = may_go.lock(rt);
        print_listening(rt, run, &listening);
        *all_started = start_all(rt, run, may_go, scope, listening);
        if !*all_started {
            return false;
        }
        drop(all_started);
        if run.stop.wait(rt, &run.proxies) {
            run.live.stop(rt);
        }
        true
    })
}

/// Has so many workers drive all links.
fn serve_by_workers<R: ServeRuntime>(
    rt: &R,
    run: &ServeRun<'_>,
    listening: Vec<Listening<'_>>,
    count: u32,
) -> bool {
    let go = Mutex::new(false);
    let may_go = &go;
    let mut all_started = may_go.lock(rt);
    print_listening(rt, run, &listening);
    let Some((workers, polls)) = Workers::new(rt, run.alloc, listening, count) else {
        return false;
    };
    let shared = &workers;
    thread::scope(thread::scope_env(), rt, |scope| {
        *all_started = start_workers(rt, run, shared, polls, may_go, scope);
        if !*all_started {
            return false;
        }
        drop(all_started);
        if run.stop.wait(rt, &run.proxies) {
            run.live.stop(rt);
            shared.wake_all();
        }
        true
    })
}

/// Starts the threads of proxies. False if one is refused.
fn start_all<'s, E: 's, R: ServeRuntime>(
    rt: &'s R,
    run: &'s ServeRun<'s>,
    may_go: &'s Mutex<bool>,
    scope: &'s Scope<'s, E>,
    listening: Vec<Listening<'s>>,
) -> bool {
    for bound in listening {
        if !start_proxy(rt, run, may_go, scope, bound) {
            return false;
        }
    }
    true
}

/// Starts the thread of a proxy, which serves it once it may go. False if the thread is refused.
fn start_proxy<'s, E: 's, R: ServeRuntime>(
    rt: &'s R,
    run: &'s ServeRun<'s>,
    may_go: &'s Mutex<bool>,
    scope: &'s Scope<'s, E>,
    bound: Listening<'s>,
) -> bool {
    let started = scope.spawn(move || {
        let goes = *may_go.lock(rt);
        if goes {
            serve_proxy(rt, run, bound);
        }
        run.stop.ended(rt, &run.proxies);
    });
    started.is_ok()
}

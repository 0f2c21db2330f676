//! `toxi serve` in a thread of its own, beside the first one, which waits for its end or a signal. A program ends once its first
//! thread does, so nothing that hangs in serving can hold up the end.
use crate::explaining::Explaining;
use crate::fail;
use crate::inline::fail_inline;
use crate::input_end::stop_at_end_of_input;
use crate::serve::{ServeJob, hold_descriptor, serve_job};
use crate::shutdown::Shutdown;
use crate::status::ProcessStatus;
use std::alloc::Global;
use std::io::{Read, Seek};
use std::process::ExitCode;
use std::rt::Files;
use std::sync::{Arc, Condvar, Mutex, Wait};
use std::thread;
use std::time::{Clock, Duration};
use tox_arguments::{ServeArguments, ServeSource};
use tox_explain::Failure;
use tox_proxy::{InlineFault, ServeFault, ServeRuntime};

/// How long the end of serving is waited for at a time, in milliseconds.
const TURN: u64 = 50;

/// How many turns without progress a program that is told to end waits for the end of serving: 900 milliseconds. The links of a
/// proxy are given up after 750, and its totals are written then.
const STOPPING_TURNS: u64 = 18;

/// What the threads share.
#[derive(Drop)]
struct Serving {
    shutdown: Shutdown,
    /// The status of the program, once serving has ended.
    status: Mutex<Option<u8>>,
    ended: Condvar,
}

impl Serving {
    fn new() -> Serving {
        Serving {
            shutdown: Shutdown::new(),
            status: Mutex::new(None),
            ended: Condvar::new(),
        }
    }

    /// Serving has ended.
    fn end<R: Wait>(&self, rt: &R, status: u8) {
        *self.status.lock(rt) = Some(status);
        self.ended.notify_all();
    }

    /// The status, if serving ends within a turn.
    fn wait<R: Wait + Clock>(&self, rt: &R) -> Option<u8> {
        let limit = Duration::from_millis(TURN);
        let status = self.status.lock(rt);
        let (status, _) = self
            .ended
            .wait_timeout_while(rt, status, limit, |status| status.is_none());
        *status
    }

    /// Tells serving to end. The status, if it does. None once it hangs.
    fn stop<R: Wait + Clock, F: Read + Seek + Drop>(
        &self,
        rt: &R,
        process: &mut ProcessStatus<F>,
    ) -> Option<u8> {
        let mut before = self.progress(process);
        self.shutdown.stop.request(rt);
        let mut turns = STOPPING_TURNS;
        for _ in rt.forever() {
            let status = self.wait(rt);
            if status.is_some() || turns == 0 {
                return status;
            }
            let now = self.progress(process);
            turns = if now == before {
                turns - 1
            } else {
                STOPPING_TURNS
            };
            before = now;
        }
        unreachable!()
    }

    fn progress<F: Read + Seek + Drop>(&self, process: &mut ProcessStatus<F>) -> Progress {
        Progress {
            writes: self.shutdown.writes(),
            threads: process.threads(),
        }
    }
}

/// How far serving has come to its end: it gets on while lines or logs are written, or threads of links end.
#[derive(Clone, Copy, PartialEq, Eq)]
struct Progress {
    writes: u64,
    threads: Option<u64>,
}

/// Serves what the files set up, until no proxy is served any more or a signal tells the program to end.
#[inline(never)]
pub fn serve<R: Input + Print + Eprint + Files + AllocGlobal + ServeRuntime>(
    rt: &R,
    explaining: Explaining,
    arguments: &ServeArguments<'_>,
) -> ExitCode
where
    R::File: Send + 'static,
    R::Dir: Send + 'static,
    R::Reader: Send + 'static,
{
    let _input = hold_descriptor(rt);
    let _output = hold_descriptor(rt);
    let _errors = hold_descriptor(rt);
    let mut process = ProcessStatus::open(rt);
    let explaining = explaining.with_verbose(arguments.options.verbose);
    match ServeJob::of(rt.alloc(), explaining, arguments) {
        Ok(job) => serve_watched(rt, job, arguments.until_eof, &mut process),
        Err(fault) => refused(rt, explaining, arguments, &fault),
    }
}

/// Serves in a thread of its own, and waits for its end, a signal, or the end of standard input where that is asked for.
fn serve_watched<R: Input + Print + Eprint + Files + AllocGlobal + ServeRuntime>(
    rt: &R,
    job: ServeJob,
    until_eof: bool,
    process: &mut ProcessStatus<R::File>,
) -> ExitCode
where
    R::File: Send + 'static,
    R::Dir: Send + 'static,
    R::Reader: Send + 'static,
{
    let Ok(serving) = Arc::new(rt.alloc(), Serving::new()) else {
        return fail(rt, &ServeFault::OutOfMemory);
    };
    match start(rt, job, until_eof, &serving) {
        Ok(()) => ExitCode::from(watch(rt, &serving, process)),
        Err(fault) => fail(rt, &fault),
    }
}

/// Starts the thread that reads standard input, where it is asked for, and the one that serves.
fn start<R: Input + Print + Eprint + Files + AllocGlobal + ServeRuntime>(
    rt: &R,
    job: ServeJob,
    until_eof: bool,
    serving: &Arc<Serving, Global>,
) -> Result<(), ServeFault<'static>>
where
    R::File: Send + 'static,
    R::Dir: Send + 'static,
    R::Reader: Send + 'static,
{
    if until_eof {
        let Ok(shared) = serving.clone() else {
            return Err(ServeFault::OutOfMemory);
        };
        if !start_reading(rt, shared) {
            return Err(ServeFault::SpawnRefused);
        }
    }
    let Ok(shared) = serving.clone() else {
        return Err(ServeFault::OutOfMemory);
    };
    if start_serving(rt, job, shared) {
        Ok(())
    } else {
        Err(ServeFault::SpawnRefused)
    }
}

/// Starts the thread that reads standard input. False if it can't be had.
fn start_reading<R: Input + Eprint + ServeRuntime>(rt: &R, serving: Arc<Serving, Global>) -> bool
where
    R::Reader: Send + 'static,
{
    let there = *rt;
    let started = thread::spawn(rt, move || {
        stop_at_end_of_input(&there, &serving.shutdown);
    });
    started.is_ok()
}

/// Starts the thread that serves. False if it can't be had.
fn start_serving<R: Print + Eprint + Files + AllocGlobal + ServeRuntime>(
    rt: &R,
    job: ServeJob,
    serving: Arc<Serving, Global>,
) -> bool
where
    R::File: Send + 'static,
    R::Dir: Send + 'static,
{
    let there = *rt;
    let started = thread::spawn(rt, move || {
        let status = serve_job(&there, &job, &serving.shutdown);
        serving.end(&there, status);
    });
    started.is_ok()
}

/// Tells why nothing is served.
fn refused<R: Eprint + AllocGlobal>(
    rt: &R,
    explaining: Explaining,
    arguments: &ServeArguments<'_>,
    fault: &InlineFault,
) -> ExitCode {
    match &arguments.source {
        ServeSource::Inline(inline) => fail_inline(rt, explaining, inline, &Failure::from(*fault)),
        ServeSource::Files { .. } => fail(rt, fault),
    }
}

/// Waits for the end of serving. Told to end, by a signal or by the end of standard input, it waits on only while that gets on, and the status is 0
/// then.
fn watch<R: Wait + Clock, F: Read + Seek + Drop>(
    rt: &R,
    serving: &Serving,
    process: &mut ProcessStatus<F>,
) -> u8 {
    for _ in rt.forever() {
        if let Some(status) = serving.wait(rt) {
            return status;
        }
        if process.tells_to_end() || serving.shutdown.stop.is_requested(rt) {
            break;
        }
    }
    serving.stop(rt, process).unwrap_or(0)
}

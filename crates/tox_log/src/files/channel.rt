//! The logs whose lines wait for their files.
ghost use Rattle.std.specs.Prelude.{◌≡◌, ◌≢◌, [], IfSome};
ghost use Rattle.std.specs.Sync.Mutex.{mutex_guard_value};

use crate::files::stream_log::StreamLog;
use crate::files::waiting_bytes::WaitingBytes;
use std::alloc::Global;
use std::mem;
use std::sync::{Arc, Condvar, Mutex, MutexGuard, Wait};
use std::time::{Clock, Duration};

/// How long the writer rests, while it lets lines gather, before it looks whether some must go to their file at once, in milliseconds.
const LOOK: u64 = 50;

/// How many such rests it makes at most.
const LOOKS: u32 = 8;

/// What the lock keeps.
#[derive(Drop)]
struct Waiting {
    logs: Vec<Arc<StreamLog, Global>>,
    /// Whether no more come.
    closed: bool,
}

/// The logs whose lines wait for their files.
#[derive(Drop)]
pub(crate) struct LogChannel {
    waiting: Mutex<Waiting>,
    /// How many bytes of the logs wait.
    pub(crate) bytes: WaitingBytes,
    /// Notified when a log was added, and when no more come.
    added: Condvar,
    /// Notified when no more come.
    closed: Condvar,
}

impl LogChannel {
    /// No log waits.
    pub(crate) fn new(alloc: Global) -> LogChannel {
        LogChannel {
            waiting: Mutex::new(Waiting {
                logs: Vec::new(alloc),
                closed: false,
            }),
            bytes: WaitingBytes::new(),
            added: Condvar::new(),
            closed: Condvar::new(),
        }
    }

    /// Adds a log. False if out of memory.
    pub(crate) fn push<R: Wait>(&self, rt: &R, log: Arc<StreamLog, Global>) -> bool {
        let is_urgent = log.is_urgent(rt);
        let mut waiting = self.waiting.lock(rt);
        let pushed = waiting.logs.push(log).is_ok();
        if is_urgent {
            // Set before, but the writer may have cleared it when it took the logs that came before this one.
            self.bytes.set_urgent();
        }
        drop(waiting);
        self.added.notify_one();
        pushed
    }

    /// No more come.
    pub(crate) fn close<R: Wait>(&self, rt: &R) {
        self.waiting.lock(rt).closed = true;
        self.added.notify_all();
        self.closed.notify_all();
    }

    /// Exchanges the logs that wait for an empty vector, once lines have gathered. False once no more come.
    pub(crate) fn receive<R: Wait + Clock>(
        &self,
        rt: &R,
        empty: &mut Vec<Arc<StreamLog, Global>>,
    ) -> bool
        requires { empty.old.items ≡ [] }
    {
        let Some(waiting) = self.filled(rt) else {
            return false;
        };
        let mut waiting = self.gathered(rt, waiting);
        self.bytes.clear_urgent();
        mem::swap(&mut waiting.logs, empty);
        true
    }

    /// The lock, once lines have gathered: for all rests, or until some must go to their file at once, or no more come.
    fn gathered<'a, R: Wait + Clock>(
        &'a self,
        rt: &R,
        waiting: MutexGuard<'a, Waiting>,
    ) -> MutexGuard<'a, Waiting> {
        let mut waiting = waiting;
        for _ in 0..LOOKS {
            if waiting.closed {
                return waiting;
            }
            let look = Duration::from_millis(LOOK);
            let (rested, _) = self.closed.wait_timeout(rt, waiting, look);
            waiting = rested;
            if self.bytes.is_urgent() {
                return waiting;
            }
        }
        waiting
    }

    /// The lock, once a log waits. None once no more come.
    fn filled<R: Wait>(&self, rt: &R) -> Option<MutexGuard<'_, Waiting>>
        ensures { IfSome result (λ guard. (mutex_guard_value guard).logs.items ≢ []) }
    {
        let mut waiting = self.waiting.lock(rt);
        for _ in rt.forever() {
            if !waiting.logs.is_empty() {
                return Some(waiting);
            }
            if waiting.closed {
                return None;
            }
            waiting = self.added.wait(rt, waiting);
        }
        unreachable!()
    }
}

//! Lines from many threads to the one that writes them.
ghost use Rattle.std.specs.Prelude.{◌≡◌};
ghost use Rattle.tox_serve.specs.output.LineQueue.{no_lines};

use crate::output::queue::LineQueue;
use std::alloc::{AllocError, Global};
use std::sync::{Condvar, Mutex, MutexGuard, Wait};

/// What the lock keeps.
#[derive(Drop)]
struct Waiting {
    queue: LineQueue,
    /// Whether no more lines come.
    closed: bool,
}

/// A bounded channel of lines, from many threads to one output.
#[derive(Drop)]
pub(crate) struct LineChannel {
    waiting: Mutex<Waiting>,
    /// Notified when a line was added, and when the channel is closed.
    added: Condvar,
    /// Notified when the lines were taken.
    taken: Condvar,
}

impl LineChannel {
    /// An open channel without lines.
    pub(crate) fn new(alloc: Global) -> Result<LineChannel, AllocError> {
        let queue = LineQueue::new(alloc)?;
        Ok(LineChannel {
            waiting: Mutex::new(Waiting {
                queue,
                closed: false,
            }),
            added: Condvar::new(),
            taken: Condvar::new(),
        })
    }

    /// Sends a line. Without room it is dropped and counted: this never waits for the output.
    pub(crate) fn send<R: Wait>(&self, rt: &R, line: &[u8]) {
        let mut waiting = self.waiting.lock(rt);
        waiting.queue.push(line);
        self.added.notify_one();
    }

    /// Sends a line once there is room for it.
    pub(crate) fn send_in_turn<R: Wait>(&self, rt: &R, line: &[u8]) {
        let mut waiting = self.waiting.lock(rt);
        for _ in rt.forever() {
            if waiting.queue.has_room(line.len()) {
                waiting.queue.push(line);
                self.added.notify_one();
                return;
            }
            waiting = self.taken.wait(rt, waiting);
        }
        unreachable!()
    }

    /// No more lines come.
    pub(crate) fn close<R: Wait>(&self, rt: &R) {
        self.waiting.lock(rt).closed = true;
        self.added.notify_all();
    }

    /// Waits for lines, and moves them into an empty queue. False once no more come.
    pub(crate) fn receive<R: Wait>(&self, rt: &R, empty: &mut LineQueue) -> bool
        requires { empty.old ≡ no_lines }
    {
        let Some(mut waiting) = self.filled(rt) else {
            return false;
        };
        waiting.queue.move_into(empty);
        self.taken.notify_all();
        true
    }

    /// The lock, once lines wait. None once no more come.
    fn filled<R: Wait>(&self, rt: &R) -> Option<MutexGuard<'_, Waiting>> {
        let mut waiting = self.waiting.lock(rt);
        for _ in rt.forever() {
            if !waiting.queue.is_empty() {
                return Some(waiting);
            }
            if waiting.closed {
                return None;
            }
            waiting = self.added.wait(rt, waiting);
        }
        unreachable!()
    }
}

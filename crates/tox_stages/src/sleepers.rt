//! What the threads of a chain sleep on. Source and sink are one thread, so the threads stand in a circle.
ghost use Rattle.std.specs.Prelude.{◌+◌, ◌≤◌};

use std::array;
use std::sync::Wait;
use std::sync::atomic::{AtomicBool, Ordering};
use std::thread::Parker;
use tox_time::pause;

/// What one thread sleeps on while it waits.
#[derive(Drop)]
pub(crate) struct Sleeper {
    parker: Parker,
    /// Whether the thread waits, and so may sleep.
    waits: AtomicBool,
}

impl Sleeper {
    fn new() -> Sleeper {
        Sleeper {
            parker: Parker::new(),
            waits: AtomicBool::new(false),
        }
    }

    /// One turn of the thread's own wait. It says that it waits long before it sleeps, and tries its ring again in
    /// between, so whoever acts on the ring after that finds it waiting.
    pub(crate) fn pause<R: Wait>(&self, rt: &R, yields: &mut u32) {
        self.waits.store(true, Ordering::SeqCst);
        pause(rt, &self.parker, yields);
    }

    /// Ends the thread's own wait.
    pub(crate) fn resume(&self) {
        self.waits.store(false, Ordering::SeqCst);
    }

    /// Wakes the thread, if it waits.
    pub(crate) fn wake(&self) {
        if self.waits.load(Ordering::SeqCst) {
            self.parker.unpark();
        }
    }
}

/// What a thread sleeps on, and what its two neighbours do.
#[derive(Drop)]
pub(crate) struct Sleepers<'p> {
    /// The thread's own.
    pub(crate) own: &'p Sleeper,
    /// Of the thread that pushes into the ring before it. Woken after a pop, if it waits.
    pub(crate) before: &'p Sleeper,
    /// Of the thread that pops from the ring behind it. Woken after a push, if it waits.
    pub(crate) behind: &'p Sleeper,
}

impl<'p> Sleepers<'p> {
    /// The sleepers of a thread, of the thread before it and of the thread behind it.
    pub(crate) fn new(own: &'p Sleeper, before: &'p Sleeper, behind: &'p Sleeper) -> Sleepers<'p> {
        Sleepers {
            own,
            before,
            behind,
        }
    }
}

/// What each thread sleeps on: source and sink on the first, and the worker of stage k on the one after k others.
#[derive(Drop)]
pub(crate) struct Circle {
    sleepers: [Sleeper; 33],
}

impl Circle {
    /// Takes no memory.
    pub(crate) fn new() -> Circle {
        Circle {
            sleepers: array::from_fn(|_| Sleeper::new()),
        }
    }

    /// For source and sink, with these workers between them.
    pub(crate) fn ends(&self, workers: usize) -> Sleepers<'_>
        requires { workers ≤ 32 }
    {
        Sleepers::new(
            &self.sleepers[0],
            &self.sleepers[workers],
            &self.sleepers[1],
        )
    }

    /// For the worker of a stage, with these workers behind it.
    pub(crate) fn worker(&self, stage_number: usize, later: usize) -> Sleepers<'_>
        requires { stage_number + 1 + later ≤ 32 }
    {
        let behind = if later == 0 { 0 } else { stage_number + 2 };
        Sleepers::new(
            &self.sleepers[stage_number + 1],
            &self.sleepers[stage_number],
            &self.sleepers[behind],
        )
    }
}

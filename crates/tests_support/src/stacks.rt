//! Stacks of threads that have ended.
use crate::meeting::comes_true;
use crate::scarcity::Scarcity;
use std::alloc::{AllocError, Global};
use std::sync::Wait;
use std::sync::atomic::{AtomicBool, Ordering};
use std::thread;
use std::thread::{Scope, Threads};

/// Starts so many threads, which run until they may end.
fn start<'s, E: 's>(scope: &'s Scope<'s, E>, threads: usize, may_end: &'s AtomicBool) {
    for _ in 0..threads {
        let _ = scope.spawn(move || comes_true(|| may_end.load(Ordering::SeqCst)));
    }
}

/// Runs so many threads at once. The C library keeps their stacks for the next ones.
pub fn keep_stacks<R: Threads + Wait>(rt: &R, threads: usize) {
    let may_end = AtomicBool::new(false);
    let shared = &may_end;
    thread::scope(thread::scope_env(), rt, |scope| {
        start(scope, threads, shared);
        shared.store(true, Ordering::SeqCst);
    });
}

/// A process without memory but for the stacks of so many threads.
pub fn with_stacks<R: Threads + Wait>(
    rt: &R,
    alloc: Global,
    threads: usize,
) -> Result<Scarcity, AllocError> {
    let scarcity = Scarcity::with_threads(alloc)?;
    keep_stacks(rt, threads);
    Ok(scarcity)
}

//! `serve --until-eof`: the end of standard input tells serving to end.
use crate::due::{after, is_over};
use crate::notices::tell_soon;
use crate::shutdown::Shutdown;
use std::io::{ErrorKind, Read};
use std::sync::Wait;
use std::time::Clock;

/// Within how many milliseconds an end is taken for one at the start.
const START: u64 = 1_000;

/// How many bytes are read and dropped at a time.
const READ_SIZE: usize = 4_096;

/// Reads and drops standard input to its end, and tells serving to end. Of an input that had ended at the start it says so.
pub fn stop_at_end_of_input<R: Input + Eprint + Wait + Clock>(rt: &R, shutdown: &Shutdown) {
    let started = after(rt, START);
    drop_input(rt);
    match started {
        Some(started) if !is_over(rt, started) => tell_soon(
            rt,
            &"standard input has ended: serve ends",
        ),
        _ => {}
    }
    shutdown.stop.request(rt);
}

/// Reads standard input to its end. A read that fails counts as the end, unless a signal interrupted it.
fn drop_input<R: Input + Wait>(rt: &R) {
    let mut input = rt.reader();
    let mut part = [0; READ_SIZE];
    for _ in rt.forever() {
        match input.read(&mut part) {
            Ok(0) => return,
            Ok(_) => {}
            Err(error) if error.kind() == ErrorKind::Interrupted => {}
            Err(_) => return,
        }
    }
}

//! Waiting for room to write, unless told to stop.
use crate::stop::Stop;
use std::os::fd::RawFd;
use std::sync::Wait;
use std::sync::atomic::{AtomicU32, Ordering};
use tox_sockets::can_write;

/// How long room is waited for at a time, in milliseconds.
const TURN: i32 = 50;

/// How many turns are still waited for room once told to stop: 400 milliseconds.
const STOPPING_TURNS: u32 = 8;

/// Room to write in a pipe, a terminal or a socket that may not be read, as standard output is.
#[derive(Drop)]
pub struct Room<'a, R> {
    rt: &'a R,
    stop: &'a Stop,
    fd: RawFd,
    /// How many turns are left once told to stop.
    turns: AtomicU32,
}

impl<'a, R: Wait> Room<'a, R> {
    /// The room of a descriptor.
    pub fn new(rt: &'a R, stop: &'a Stop, fd: RawFd) -> Room<'a, R> {
        Room {
            rt,
            stop,
            fd,
            turns: AtomicU32::new(STOPPING_TURNS),
        }
    }

    /// Waits for room, in short turns. Once told to stop, all calls behind one that found room together wait 400 milliseconds, and those
    /// that find no room then return false.
    pub fn wait(&self) -> bool {
        for _ in self.rt.forever() {
            if can_write(self.fd, TURN) {
                self.turns.store(STOPPING_TURNS, Ordering::SeqCst);
                return true;
            }
            if self.stop.is_requested(self.rt) && !self.takes_a_turn() {
                return false;
            }
        }
        unreachable!()
    }

    /// Whether one of the turns was left.
    fn takes_a_turn(&self) -> bool {
        let left = self.turns.load(Ordering::SeqCst);
        self.turns.store(left.saturating_sub(1), Ordering::SeqCst);
        left > 0
    }
}

//! Standard output, which may not be read.
use crate::shutdown::Shutdown;
use std::io;
use std::io::{ErrorKind, Write};
use std::sync::Wait;
use tox_proxy::Room;

/// The descriptor of standard output.
const OUTPUT: i32 = 1;

/// How many bytes fit into a pipe that has room.
const PIPE_ROOM: usize = 4_096;

/// Standard output. A write waits for room, and fails once the program is told to end and has waited long enough.
#[derive(Drop)]
pub struct PatientOutput<'a, R> {
    rt: &'a R,
    room: Room<'a, R>,
    shutdown: &'a Shutdown,
}

impl<'a, R: Print + Wait> PatientOutput<'a, R> {
    pub fn new(rt: &'a R, shutdown: &'a Shutdown) -> PatientOutput<'a, R> {
        PatientOutput {
            rt,
            room: Room::new(rt, &shutdown.stop, OUTPUT),
            shutdown,
        }
    }
}

impl<'a, R: Print + Wait> Write for PatientOutput<'a, R> {
    fn write(&mut self, buf: &[u8]) -> io::Result<usize> {
        if !self.room.wait() {
            return Err(ErrorKind::TimedOut.into());
        }
        let count = buf.len().min(PIPE_ROOM);
        let taken = io::writer(self.rt).write(&buf[..count])?;
        self.shutdown.note_write();
        Ok(taken)
    }

    fn flush(&mut self) -> io::Result<()> {
        Ok(())
    }
}

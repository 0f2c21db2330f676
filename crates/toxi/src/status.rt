//! What the system shows of this process: the signals that tell it to end, and its threads.
ghost use Rattle.std.specs.Prelude.{◌≤◌};

use std::fs;
use std::io::{Read, Seek, SeekFrom};
use std::rt::Files;
use tox_proxy::tells_to_stop;

/// The file that shows it.
const STATUS: &str = "/proc/self/status";

/// How many bytes of it are read at a time. It has some 1,500, and as many more as the process has groups.
const READ_SIZE: usize = 4_096;

/// How many bytes of its lines are kept. Those that are looked for and those beside them that begin alike have some 500.
const KEPT_SIZE: usize = 1_024;

/// What the lines with sets of signals begin with: `ShdPnd`, `SigPnd`, `SigBlk` and `SigIgn`.
const SIGNALS_START: u8 = b'S';

/// The line with the number of threads, and what it begins with.
const THREADS: &str = "Threads:\t";

const THREADS_START: u8 = b'T';

/// The status of a process.
#[derive(Drop)]
pub struct ProcessStatus<F> {
    /// The open file. None where it can't be opened: then no signal is seen.
    file: Option<F>,
}

impl<F: Read + Seek + Drop> ProcessStatus<F> {
    /// The status of this process.
    pub fn open<R: Files<File = F>>(rt: &R) -> ProcessStatus<F> {
        ProcessStatus {
            file: fs::open(rt, STATUS).ok(),
        }
    }

    /// Whether a signal waits that tells the program to end.
    pub fn tells_to_end(&mut self) -> bool {
        match self.read() {
            Some(lines) => tells_to_stop(lines.bytes()),
            None => false,
        }
    }

    /// The number of threads. None where it can't be read.
    pub fn threads(&mut self) -> Option<u64> {
        let lines = self.read()?;
        let text = str::from_utf8(lines.bytes()).ok()?;
        let number = text.lines().find_map(|line| line.strip_prefix(THREADS))?;
        number.parse().ok()
    }

    /// Reads the status to its end. None if it can't be read.
    fn read(&mut self) -> Option<StatusLines> {
        let file = self.file.as_mut()?;
        file.seek(SeekFrom::Start(0)).ok()?;
        let mut lines = StatusLines::new();
        let mut part = [0; READ_SIZE];
        for _ in 0..u64::MAX {
            match file.read(&mut part).ok()? {
                0 => break,
                len => lines.add(&part[..len]),
            }
        }
        Some(lines)
    }
}

/// The lines of a status that may be looked for, each behind a line feed. The others can be long.
#[derive(Drop)]
struct StatusLines {
    bytes: [u8; KEPT_SIZE],
    len: usize,
    place: Place,
    ghost within: { len ≤ 1024 },
}

/// Where in a status the next byte stands.
#[derive(Clone, Copy)]
enum Place {
    LineStart,
    KeptLine,
    OtherLine,
}

impl StatusLines {
    fn new() -> StatusLines {
        StatusLines {
            bytes: [0; KEPT_SIZE],
            len: 0,
            place: Place::LineStart,
        }
    }

    fn bytes(&self) -> &[u8] {
        &self.bytes[..self.len]
    }

    /// Adds the next bytes of the status, which may begin and end inside a line.
    fn add(&mut self, part: &[u8]) {
        for byte in part {
            self.add_byte(*byte);
        }
    }

    fn add_byte(&mut self, byte: u8) {
        match (self.place, byte) {
            (_, b'\n') => self.place = Place::LineStart,
            (Place::LineStart, SIGNALS_START | THREADS_START) => {
                self.place = Place::KeptLine;
                self.keep(b'\n');
                self.keep(byte);
            }
            (Place::LineStart, _) => self.place = Place::OtherLine,
            (Place::KeptLine, _) => self.keep(byte),
            (Place::OtherLine, _) => {}
        }
    }

    fn keep(&mut self, byte: u8) {
        if self.len < KEPT_SIZE {
            self.bytes[self.len] = byte;
            self.len += 1;
        }
    }
}

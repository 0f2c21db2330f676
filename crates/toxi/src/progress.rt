//! How far a command is that reads logs, on a terminal, once it has worked for a second.
use crate::due::{after, is_over};
use std::cell::Cell;
use std::io::{Read, Write};
use std::rt::Files;
use std::time::{Clock, Instant};
use std::{fmt, fs, io};

/// How long a command works before it tells how far it is, in milliseconds.
const FIRST_WAIT: u64 = 1_000;

/// How long it works on before it tells it again, in milliseconds.
const NEXT_WAIT: u64 = 200;

/// What begins a line of a terminal anew.
const ANEW: &str = "\r\x1b[K";

/// The bytes of a megabyte.
const MEGABYTE: u64 = 1_000_000;

/// Which of the standard streams are terminals.
#[derive(Clone, Copy, Debug)]
pub struct Terminals {
    pub output: bool,
    pub errors: bool,
}

/// How far a command is.
#[derive(Clone, Copy)]
struct Work {
    /// When it is reported next. None: it isn't reported.
    due: Option<Instant>,
    /// Whether it stands on the terminal.
    reported: bool,
    /// Whether the output stands within a line there.
    within_line: bool,
    /// How many logs were opened.
    opened: u64,
    /// How many logs there are, where that is known.
    total: Option<u64>,
    /// Whether pictures are drawn, of logs that were judged. Each log is opened twice for its own.
    draws: bool,
    /// How many bytes were read of the log.
    read: u64,
    /// How many bytes are to be read of it, or 0 where that isn't known.
    size: u64,
}

impl fmt::Display for Work {
    fn fmt<W: fmt::Write>(&self, f: &mut fmt::Formatter<W>) -> fmt::Result {
        match self.total {
            _ if self.draws => write!(f, "picture {}, ", self.opened.div_ceil(2))?,
            Some(1) => {}
            Some(total) => write!(f, "log {} of {total}, ", self.opened)?,
            None => write!(f, "log {}, ", self.opened)?,
        }
        match self.read.saturating_mul(100).checked_div(self.size) {
            Some(percent) => write!(f, "{} %", percent.min(100)),
            None => write!(f, "{} MB", self.read / MEGABYTE),
        }
    }
}

/// Tells on standard error how far a command is, if that is a terminal.
#[derive(Drop)]
pub struct Progress<'r, R> {
    rt: &'r R,
    terminals: Terminals,
    work: Cell<Work>,
    /// Why the system refused a log.
    refusal: Cell<Option<io::Error>>,
}

impl<'r, R: Clock + Eprint + Files> Progress<'r, R> {
    /// The beginning of the work on so many logs.
    pub fn new(rt: &'r R, terminals: Terminals, total: Option<u64>) -> Progress<'r, R> {
        let due = if terminals.errors {
            after(rt, FIRST_WAIT)
        } else {
            None
        };
        Progress {
            rt,
            terminals,
            work: Cell::new(Work {
                due,
                reported: false,
                within_line: false,
                opened: 0,
                total,
                draws: false,
                read: 0,
                size: 0,
            }),
            refusal: Cell::new(None),
        }
    }

    /// Begins with the next log, which is read so often.
    pub fn begin_log(&self, name: &str, times: u64) {
        let mut work = self.work.get();
        if work.due.is_none() {
            return;
        }
        work.opened = work.opened.saturating_add(1);
        work.read = 0;
        work.size = size_of(self.rt, name).saturating_mul(times);
        self.work.set(work);
    }

    /// Begins with the pictures of logs that were judged.
    pub fn begin_pictures(&self) {
        let mut work = self.work.get();
        work.draws = true;
        work.opened = 0;
        self.work.set(work);
    }

    pub fn runtime(&self) -> &'r R {
        self.rt
    }

    /// Opens a log, whose bytes are counted. None if the system refuses it.
    pub fn open(&'r self, name: &str) -> Option<CountedReader<'r, R::File, R>> {
        match fs::open(self.rt, name) {
            Ok(file) => Some(CountedReader {
                file,
                progress: self,
            }),
            Err(error) => {
                self.refusal.set(Some(error));
                None
            }
        }
    }

    /// Why the system refused a log since the last call, if it did.
    pub fn take_refusal(&self) -> Option<io::Error> {
        let refusal = self.refusal.get();
        self.refusal.set(None);
        refusal
    }

    /// A writer to the output, which leaves no line of progress beside what it writes.
    pub fn writer<W>(&'r self, output: W) -> CleanWriter<'r, W, R> {
        CleanWriter {
            output,
            progress: self,
        }
    }

    /// Clears the terminal of what was reported.
    pub fn clear(&self) {
        let mut work = self.work.get();
        if work.reported {
            let rt = self.rt;
            let _ = eprint!(rt; "{ANEW}");
            work.reported = false;
            self.work.set(work);
        }
    }

    /// So many bytes more were read. Tells how far the work is, if that is due.
    fn add(&self, count: u64) {
        let mut work = self.work.get();
        let Some(due) = work.due else {
            return;
        };
        work.read = work.read.saturating_add(count);
        if !work.within_line && is_over(self.rt, due) {
            let rt = self.rt;
            let _ = eprint!(rt; "{ANEW}toxi: {work}");
            work.reported = true;
            work.due = after(self.rt, NEXT_WAIT);
        }
        self.work.set(work);
    }

    /// The output ended so on the terminal.
    fn note_output(&self, bytes: &[u8]) {
        if let Some(last) = bytes.last() {
            let mut work = self.work.get();
            work.within_line = *last != b'\n';
            self.work.set(work);
        }
    }
}

/// How many bytes a plain file has. 0 for another.
fn size_of(rt: &impl Files, name: &str) -> u64 {
    match fs::metadata(rt, name) {
        Ok(found) if found.is_file() => found.len(),
        _ => 0,
    }
}

/// A reader whose bytes are counted.
#[derive(Drop)]
pub struct CountedReader<'r, F, R> {
    file: F,
    progress: &'r Progress<'r, R>,
}

impl<'r, F: Read, R: Clock + Eprint + Files> Read for CountedReader<'r, F, R> {
    fn read(&mut self, buf: &mut [u8]) -> io::Result<usize> {
        match self.file.read(buf) {
            Ok(count) => {
                self.progress.add(count as u64);
                Ok(count)
            }
            Err(error) => {
                self.progress.refusal.set(Some(error));
                Err(error)
            }
        }
    }
}

/// A writer to the output.
#[derive(Drop)]
pub struct CleanWriter<'r, W, R> {
    output: W,
    progress: &'r Progress<'r, R>,
}

impl<'r, W: Write, R: Clock + Eprint + Files> Write for CleanWriter<'r, W, R> {
    fn write(&mut self, buf: &[u8]) -> io::Result<usize> {
        let on_terminal = self.progress.terminals.output;
        if on_terminal {
            self.progress.clear();
        }
        let count = self.output.write(buf)?;
        if on_terminal {
            self.progress.note_output(&buf[..count]);
        }
        Ok(count)
    }

    fn flush(&mut self) -> io::Result<()> {
        self.output.flush()
    }
}

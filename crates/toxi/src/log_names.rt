//! The names of logs on the command line and on standard input.
use crate::fail;
use std::io::{BufRead, BufReader};
use std::rt::Files;
use std::{fs, str};
use tox_arguments::NAMES_ON_INPUT;
use tox_proxy::ReplayFault;

/// The first line of a log.
const LOG_TITLE: &str = "toxi log 1";

/// What is done with each log.
pub trait LogTask<R> {
    /// Takes the log of this name. False if nothing more is to be taken.
    fn take(&mut self, rt: &R, name: &str) -> bool;

    /// Takes a name that isn't UTF-8, as it can be printed: no file is opened. False if nothing more is to be taken.
    fn miss(&mut self, rt: &R, name: &str) -> bool;
}

/// How the names were taken.
#[derive(Clone, Copy, Debug, PartialEq, Eq)]
pub enum NamesTaken {
    All,
    /// The names on standard input couldn't be read to their end. The fault was reported.
    Some,
    /// The task, or a fault that was reported, ended it.
    Ended,
}

/// How many logs are named. None if some of their names are on standard input.
pub fn log_count(files: &[&str]) -> Option<u64> {
    if files.iter().any(|file| *file == NAMES_ON_INPUT) {
        None
    } else {
        Some(files.len() as u64)
    }
}

/// Hands each log to a task, in order: those of the command line, and in place of `-` those whose names are on standard input.
pub fn take_names<R: Input + Eprint + Files + AllocGlobal, T: LogTask<R>>(
    rt: &R,
    files: &[&str],
    task: &mut T,
) -> NamesTaken {
    let mut taken = NamesTaken::All;
    for file in files {
        if *file != NAMES_ON_INPUT {
            if !task.take(rt, file) {
                return NamesTaken::Ended;
            }
            continue;
        }
        match take_named(rt, task) {
            NamesTaken::All => {}
            NamesTaken::Some => taken = NamesTaken::Some,
            NamesTaken::Ended => return NamesTaken::Ended,
        }
    }
    taken
}

/// Hands on the logs whose names are on standard input.
fn take_named<R: Input + Eprint + Files + AllocGlobal, T: LogTask<R>>(
    rt: &R,
    task: &mut T,
) -> NamesTaken {
    let alloc = rt.alloc();
    let Ok(reader) = BufReader::new(alloc, rt.reader()) else {
        fail(rt, &ReplayFault::OutOfMemory);
        return NamesTaken::Ended;
    };
    for line in reader.split(alloc, b'\n') {
        let Ok(line) = line else {
            fail(rt, &ReplayFault::Unreadable(NAMES_ON_INPUT));
            return NamesTaken::Some;
        };
        if !take_line(rt, &line, task) {
            return NamesTaken::Ended;
        }
        if line.as_slice() == LOG_TITLE.as_bytes() && fs::metadata(rt, LOG_TITLE).is_err() {
            let _ = eprintln!(rt;
                "toxi: warning: standard input has the lines of a log, and - takes names of logs, one a line"
            );
            return NamesTaken::Some;
        }
    }
    NamesTaken::All
}

/// Hands on the log that a line names, without its line feed. False if nothing more is to be taken.
fn take_line<R: Eprint + AllocGlobal, T: LogTask<R>>(rt: &R, line: &[u8], task: &mut T) -> bool {
    let name = line.strip_suffix(b"\r").unwrap_or(line);
    if name.is_empty() {
        return true;
    }
    if let Ok(name) = str::from_utf8(name) {
        return task.take(rt, name);
    }
    match String::from_utf8_lossy(rt.alloc(), name) {
        Ok(name) => task.miss(rt, &name),
        Err(_) => {
            fail(rt, &ReplayFault::OutOfMemory);
            false
        }
    }
}

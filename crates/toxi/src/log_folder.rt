//! The folder of `toxi serve --log`.
ghost use Rattle.std.specs.Prelude.{◌≤◌, length, take};
ghost use Rattle.std.specs.Io.KnownBytes.{Appends};

use crate::notices::send_notice;
use crate::shutdown::Shutdown;
use std::fs::OpenOptions;
use std::io::Write;
use std::rt::Files;
use std::sync::Wait;
use std::{fs, io};
use tox_proxy::{LogFiles, NoticeChannel};

/// The logs in a folder. None where no folder is named: then no log is kept.
#[derive(Drop)]
pub struct LogFolder<'a, R> {
    pub rt: &'a R,
    pub folder: Option<&'a str>,
    /// Where it is told that a log ends.
    pub channel: &'a NoticeChannel,
    pub shutdown: &'a Shutdown,
}

impl<'a, R: Files + AllocGlobal + Wait> LogFolder<'a, R> {
    /// Makes the file of a log to append to it. Where something has its name, it isn't opened.
    fn make(&self, name: &str) -> io::Result<R::File> {
        let path = self.path_of(name)?;
        let mut options = OpenOptions::new();
        options.append(true);
        options.create_new(true);
        options.open(self.rt, path.as_str())
    }

    /// Opens the file of a log to append to it, unless a link, a FIFO or another thing came in its place.
    fn open(&self, name: &str) -> io::Result<R::File> {
        let path = self.path_of(name)?;
        if !fs::symlink_metadata(self.rt, path.as_str())?.is_file() {
            return Err(io::ErrorKind::InvalidInput.into());
        }
        let mut options = OpenOptions::new();
        options.append(true);
        options.open(self.rt, path.as_str())
    }

    fn path_of(&self, name: &str) -> io::Result<String> {
        let folder = self.folder.unwrap_or(".");
        Ok(format!(in self.rt.alloc(); "{folder}/{name}")?)
    }

    /// Writes bytes to a file that could be opened. How many it took.
    fn write(&self, file: io::Result<R::File>, bytes: &[u8]) -> usize
        ensures { result ≤ length bytes.now }
    {
        let Ok(mut file) = file else {
            return 0;
        };
        let taken = write_counted(&mut file, bytes);
        if taken > 0 {
            self.shutdown.note_write();
        }
        taken
    }
}

impl<'a, R: Files + AllocGlobal + Wait> LogFiles for LogFolder<'a, R> {
    fn create(&self, name: &str, bytes: &[u8]) -> usize {
        self.write(self.make(name), bytes)
    }

    fn append(&self, name: &str, bytes: &[u8]) -> usize {
        self.write(self.open(name), bytes)
    }

    fn ended(&self, name: &str, lines: u64) {
        let rt = self.rt;
        if let Ok(text) = format!(in rt.alloc(); "log {name} ends at line {lines}") {
            send_notice(rt, self.channel, &text);
        }
    }
}

/// Writes bytes, and tells how many the file took: fewer once it fails.
fn write_counted<W: Write>(file: &mut W, bytes: &[u8]) -> usize
    ensures count { result ≤ length bytes.now }
    ensures first { Appends (W.contents file.old) (W.contents file.new) (take result bytes.now) }
{
    let mut done = 0;
    for _ in 0..bytes.len() {
        match file.write(&bytes[done..]) {
            Ok(0) => return done,
            Ok(count) => done += count,
            Err(error) if error.kind() == io::ErrorKind::Interrupted => {}
            Err(_) => return done,
        }
    }
    done
}

//! The log of a stream, which its direction and the writer of logs share.
ghost use Rattle.std.specs.Prelude.{◌≡◌, ◌≤◌, IsTrue, length, string_bytes};
ghost use Rattle.tox_log.specs.files.FileName.{names_file};
ghost use Rattle.tox_log.specs.files.WholeLines.{AreLines};

use crate::files::entry::Entry;
use crate::files::log_files::LogFiles;
use crate::files::log_text::{LogText, TakenLines};
use crate::files::waiting_bytes::WaitingBytes;
use crate::files::whole_lines::count_lines;
use std::sync::{Mutex, Wait};

/// The log of a stream.
#[derive(Drop)]
pub(crate) struct StreamLog {
    /// The name of its file.
    pub(crate) name: String,
    text: Mutex<LogText>,
    ghost named: { IsTrue (names_file (string_bytes name)) },
}

impl StreamLog {
    /// A log without lines.
    pub(crate) fn new(name: String, text: LogText) -> StreamLog
        requires { IsTrue (names_file (string_bytes name)) }
        ensures { result.name ≡ name }
    {
        StreamLog {
            name,
            text: Mutex::new(text),
        }
    }

    /// Adds an entry. True if the writer must be called.
    pub(crate) fn add<R: Wait>(&self, rt: &R, all: &WaitingBytes, entry: &Entry<'_>) -> bool {
        self.text.lock(rt).add(rt, all, entry)
    }

    /// Whether what waits must go to the file at once.
    pub(crate) fn is_urgent<R: Wait>(&self, rt: &R) -> bool {
        self.text.lock(rt).is_urgent()
    }

    /// The writer couldn't be called: the next entry calls it.
    pub(crate) fn call_again<R: Wait>(&self, rt: &R, all: &WaitingBytes) {
        let ahead = self.text.lock(rt).call_again();
        all.remove(rt, ahead);
    }

    /// Brings the lines that wait to the file. The lock is not held meanwhile, so that a slow disk holds no link.
    pub(crate) fn write<R: Wait, F: LogFiles>(&self, rt: &R, all: &WaitingBytes, files: &F) {
        let TakenLines {
            lines,
            is_first,
            mut share,
        } = self.text.lock(rt).take();
        let bytes = lines.bytes();
        let taken = self.bring(bytes, is_first, files);
        let count = count_lines(&bytes[..taken]) as u64;
        let failed = taken < bytes.len();
        let reported = self.text.lock(rt).wrote(count, failed, &mut share);
        all.remove(rt, share);
        if let Some(lines) = reported {
            files.ended(&self.name, lines);
        }
    }

    /// Brings whole lines to the file, if there are any. The first ones make it. How many bytes it took.
    fn bring<F: LogFiles>(&self, bytes: &[u8], is_first: bool, files: &F) -> usize
        requires { AreLines bytes.now }
        ensures { result ≤ length bytes.now }
    {
        if bytes.is_empty() {
            return 0;
        }
        if is_first {
            files.create(&self.name, bytes)
        } else {
            files.append(&self.name, bytes)
        }
    }
}

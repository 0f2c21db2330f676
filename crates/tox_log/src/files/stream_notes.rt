//! What a direction of a served link notes.
ghost use Rattle.std.specs.Prelude.{◌≡◌, None, option_map};
ghost use Rattle.tox_log.specs.files.SharedLog.{file_of};

use crate::files::channel::LogChannel;
use crate::files::entry::Entry;
use crate::files::stream_log::StreamLog;
use crate::{LastLine, LogLine};
use std::alloc::{AllocError, Global};
use std::marker::Model;
use std::sync::{Arc, Wait};
use tox_link::{LinkEvent, Notes};

/// The log of a stream, and where its writer is called.
#[derive(Drop)]
struct KeptLog<'r> {
    channel: &'r LogChannel,
    log: Arc<StreamLog, Global>,
}

/// The notes of a direction of a served link: the log of its stream, or nothing. A log that fails holds up no link.
#[derive(Drop)]
pub struct StreamNotes<'r, R> {
    rt: &'r R,
    kept: Option<KeptLog<'r>>,
    /// Whether the source's end is reported as a reset by its peer.
    source_reset: bool,
}

impl<'r, R> Model for StreamNotes<'r, R> {
    ghost use Rattle.std.specs.Prelude.{List, ℕ, Option, option_map};
    ghost use Rattle.tox_log.specs.files.SharedLog.{file_of};

    ghost Value = { Option (List ℕ) };

    ghost view = { λ notes. option_map (λ kept. file_of kept.log) notes.kept };
}

impl<'r, R: Wait> StreamNotes<'r, R> {
    /// Notes that keep nothing.
    pub fn none(rt: &'r R) -> StreamNotes<'r, R>
        ensures { result ≡ None }
    {
        StreamNotes {
            rt,
            kept: None,
            source_reset: false,
        }
    }

    /// Notes that go to a log, if there is one.
    pub(crate) fn of(
        rt: &'r R,
        channel: &'r LogChannel,
        log: Option<Arc<StreamLog, Global>>,
    ) -> StreamNotes<'r, R>
        ensures { result ≡ option_map file_of log }
    {
        let kept = match log {
            Some(log) => Some(KeptLog { channel, log }),
            None => None,
        };
        StreamNotes {
            rt,
            kept,
            source_reset: false,
        }
    }

    /// Adds an entry to the log, and calls its writer if that is due. Without memory for the call the next entry makes it.
    pub(crate) fn add(&self, entry: &Entry<'_>) {
        let Some(kept) = &self.kept else {
            return;
        };
        let all = &kept.channel.bytes;
        if kept.log.add(self.rt, all, entry) && !kept.call_writer(self.rt) {
            kept.log.call_again(self.rt, all);
        }
    }

    /// The source's peer reset it: its end, if it is noted from now on, is reported as a reset.
    pub fn source_was_reset(&mut self)
        ensures { self.new ≡ self.old }
    {
        self.source_reset = true;
    }

    /// The stream has ended, or broke off: its log gets its last line.
    pub fn end(&self, last: &LastLine) {
        self.add(&Entry::Line(&LogLine::Last(*last)));
    }
}

impl<'r> KeptLog<'r> {
    /// Calls the writer. False if out of memory.
    fn call_writer<R: Wait>(&self, rt: &R) -> bool {
        match self.log.clone() {
            Ok(log) => self.channel.push(rt, log),
            Err(_) => false,
        }
    }
}

impl<'r, R: Wait> Notes for StreamNotes<'r, R> {
    ghost events = { λ notes. None };

    fn note(&mut self, event: LinkEvent) -> Result<(), AllocError>
        ensures goes_on { result ≡ Ok tt }
        ensures same { self.new ≡ self.old }
    {
        self.add(&Entry::Line(&LogLine::of(&event, self.source_reset)));
        Ok(())
    }
}

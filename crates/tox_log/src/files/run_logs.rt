//! The logs of a run.
ghost use Rattle.std.specs.Prelude.{◌≡◌, ◌<◌, ◌≤◌, [], IfSome, None, false, length, nat_le};
ghost use Rattle.tox_log.specs.files.FileName.{log_name};
ghost use Rattle.tox_log.specs.files.SharedLog.{file_of};

use crate::LoggedLink;
use crate::files::channel::LogChannel;
use crate::files::entry::{Entry, Header};
use crate::files::file_name::file_name;
use crate::files::log_text::LogText;
use crate::files::stream_log::StreamLog;
use crate::files::stream_notes::StreamNotes;
use std::alloc::Global;
use std::marker::Model;
use std::sync::{Arc, Wait};
use tox_defs::Chain;

/// How much is logged.
#[derive(Clone, Copy, Debug, PartialEq, Eq)]
pub struct LogLimits {
    /// How many links of each proxy are logged, the first ones.
    pub links: u64,
    /// How many bytes a log has at most. It ends at its last whole line within them.
    pub bytes: u64,
}

/// The logs of a run.
#[derive(Drop)]
pub struct RunLogs {
    pub(crate) channel: LogChannel,
    limits: LogLimits,
}

impl Model for RunLogs {
    ghost use Rattle.tox_log.specs.declared.files.run_logs.LogLimits.{LogLimits as Limits};

    ghost Value = { Limits };

    ghost view = { λ logs. logs.limits };
}

impl RunLogs {
    /// No logs.
    pub fn new(alloc: Global, limits: LogLimits) -> RunLogs
        ensures { result ≡ limits }
    {
        RunLogs {
            channel: LogChannel::new(alloc),
            limits,
        }
    }

    /// No more logs come: their writer ends.
    pub fn close<R: Wait>(&self, rt: &R) {
        self.channel.close(rt);
    }

    /// The notes of a stream of a link of the proxy at a place, with the chain that it meets: its log, which has its header by then.
    /// They keep nothing where the link isn't among the first, or memory is refused.
    pub fn open<'r, R: Wait>(
        &'r self,
        rt: &'r R,
        alloc: Global,
        place: usize,
        link: &LoggedLink<'_>,
        chain: &Chain,
        names: &[String],
    ) -> StreamNotes<'r, R>
        requires { length names.now ≡ length chain.now.entries }
        ensures named { IfSome result (λ name.
            name ≡ log_name link.now.proxy.now place link.now.number link.now.stream) }
        ensures first { self.now.links < link.now.number → result ≡ None }
    {
        let notes = StreamNotes::of(rt, &self.channel, self.log_of(alloc, place, link));
        notes.add(&Entry::Header(Header { link, chain, names }));
        notes
    }

    /// The log of a stream, if its link is among the first and there is memory for it.
    fn log_of(
        &self,
        alloc: Global,
        place: usize,
        link: &LoggedLink<'_>,
    ) -> Option<Arc<StreamLog, Global>>
        ensures named { IfSome result (λ log.
            file_of log ≡ log_name link.now.proxy.now place link.now.number link.now.stream) }
        ensures first { self.now.links < link.now.number → result ≡ None }
    {
        if !self.is_logged(link.number) {
            return None;
        }
        let Ok(name) = file_name(alloc, place, link) else {
            return None;
        };
        let text = self.empty_log(alloc);
        Arc::new(alloc, StreamLog::new(name, text)).ok()
    }

    /// Whether a link of this number is among the first ones.
    fn is_logged(&self, number: u64) -> bool
        ensures { result ≡ nat_le number self.now.links }
    {
        number <= self.limits.links
    }

    /// A log without lines, of as many bytes as one may have.
    fn empty_log(&self, alloc: Global) -> LogText
        ensures empty { result.waiting ≡ ([], false) }
        ensures limit { result.most ≡ self.now.bytes }
    {
        LogText::new(alloc, self.limits.bytes)
    }
}

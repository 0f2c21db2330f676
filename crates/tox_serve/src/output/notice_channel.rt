//! What is told beside the lines, from many threads to the one that tells it. Whoever sends it waits for no output.
ghost use Rattle.std.specs.Prelude.{◌≡◌};
ghost use Rattle.tox_serve.specs.output.LineQueue.{no_lines};

use crate::link::break_reason::BreakReason;
use crate::output::breaks::{Breaks, BrokenLinks};
use crate::output::fills::{FilledProxy, Fills};
use crate::output::queue::LineQueue;
use crate::proxy::filling::Fill;
use std::alloc::{AllocError, Global};
use std::mem;
use std::sync::{Condvar, Mutex, MutexGuard, Wait};
use std::time::{Clock, Duration};

/// How long the start waits until the lines before it are told, in milliseconds.
const SETTLE: u64 = 400;

/// What is told next.
#[derive(Clone, Copy)]
pub(crate) enum Notice {
    /// The lines that were taken.
    Lines,
    /// So many lines of the output were dropped.
    Dropped(u64),
    Broken(BrokenLinks),
    Filled(FilledProxy),
}

/// What the lock keeps.
#[derive(Drop)]
struct Waiting {
    lines: LineQueue,
    /// How many lines of the output were dropped since that was told.
    dropped: u64,
    breaks: Breaks,
    fills: Fills,
    /// Whether something that was taken is being told.
    telling: bool,
    /// Whether no more comes.
    closed: bool,
}

impl Waiting {
    /// Whether lines wait, or are being told.
    fn has_lines(&self) -> bool {
        self.telling || !self.lines.is_empty()
    }

    /// What is told next but for lines, if its time has come.
    fn next<R: Clock>(&mut self, rt: &R) -> Option<Notice> {
        if self.dropped > 0 {
            return Some(Notice::Dropped(mem::replace(&mut self.dropped, 0)));
        }
        if let Some(filled) = self.fills.next() {
            return Some(Notice::Filled(filled));
        }
        match self.breaks.next(rt, self.closed) {
            Some(broken) => Some(Notice::Broken(broken)),
            None => None,
        }
    }
}

/// What waits to be told beside the lines of serving: lines of at most 65,536 bytes together, counts, and links that broke. It takes no
/// memory once it is made.
#[derive(Drop)]
pub struct NoticeChannel {
    waiting: Mutex<Waiting>,
    /// Notified when something was added, and when the channel is closed.
    added: Condvar,
    /// Notified when something was told.
    told: Condvar,
}

impl NoticeChannel {
    /// An open channel in which nothing waits, for so many proxies.
    pub fn new(alloc: Global, proxies: usize) -> Result<NoticeChannel, AllocError> {
        let lines = LineQueue::new(alloc)?;
        let breaks = Breaks::new(alloc, proxies)?;
        let fills = Fills::new(alloc, proxies)?;
        Ok(NoticeChannel {
            waiting: Mutex::new(Waiting {
                lines,
                dropped: 0,
                breaks,
                fills,
                telling: false,
                closed: false,
            }),
            added: Condvar::new(),
            told: Condvar::new(),
        })
    }

    /// Sends a line, with its line feed. Without room it is dropped and counted.
    pub fn send<R: Wait>(&self, rt: &R, line: &[u8]) {
        let mut waiting = self.waiting.lock(rt);
        waiting.lines.push(line);
        self.added.notify_one();
    }

    /// Notes that so many lines of the output were dropped.
    pub(crate) fn note_dropped<R: Wait>(&self, rt: &R, lines: u64) {
        let mut waiting = self.waiting.lock(rt);
        waiting.dropped = waiting.dropped.saturating_add(lines);
        self.added.notify_one();
    }

    /// Notes why a numbered link of the proxy at a place has broken, if that is reported.
    pub(crate) fn note_break<R: Wait>(
        &self,
        rt: &R,
        place: usize,
        number: u64,
        reason: BreakReason,
    ) {
        let mut waiting = self.waiting.lock(rt);
        waiting.breaks.note(place, number, reason);
        self.added.notify_one();
    }

    /// Notes how full the book of the proxy at a place has become.
    pub(crate) fn note_fill<R: Wait>(&self, rt: &R, place: usize, fill: Fill) {
        let mut waiting = self.waiting.lock(rt);
        waiting.fills.note(place, fill);
        self.added.notify_one();
    }

    /// No more comes.
    pub fn close<R: Wait>(&self, rt: &R) {
        self.waiting.lock(rt).closed = true;
        self.added.notify_all();
    }

    /// Waits for what is told next. Lines are moved into an empty queue. None once no more comes.
    pub(crate) fn receive<R: Wait + Clock>(&self, rt: &R, empty: &mut LineQueue) -> Option<Notice>
        requires { empty.old ≡ no_lines }
    {
        let mut waiting = self.waiting.lock(rt);
        waiting.telling = false;
        self.told.notify_all();
        for _ in rt.forever() {
            if !waiting.lines.is_empty() {
                waiting.lines.move_into(empty);
                waiting.telling = true;
                return Some(Notice::Lines);
            }
            if let Some(notice) = waiting.next(rt) {
                waiting.telling = true;
                return Some(notice);
            }
            if waiting.closed {
                return None;
            }
            let rest = waiting.breaks.rest(rt);
            waiting = self.wait(rt, waiting, rest);
        }
        unreachable!()
    }

    /// Waits until the lines that were sent are told, but not for long.
    pub(crate) fn settle<R: Wait + Clock>(&self, rt: &R) {
        let waiting = self.waiting.lock(rt);
        let limit = Duration::from_millis(SETTLE);
        let _ = self
            .told
            .wait_timeout_while(rt, waiting, limit, |waiting| waiting.has_lines());
    }

    /// The lock once something was added, or so long has passed.
    fn wait<'a, R: Wait + Clock>(
        &'a self,
        rt: &R,
        waiting: MutexGuard<'a, Waiting>,
        rest: Option<Duration>,
    ) -> MutexGuard<'a, Waiting> {
        match rest {
            Some(rest) => self.added.wait_timeout(rt, waiting, rest).0,
            None => self.added.wait(rt, waiting),
        }
    }
}

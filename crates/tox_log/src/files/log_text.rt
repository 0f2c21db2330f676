//! The lines of a log that wait for its file.
ghost use Rattle.std.specs.Prelude.{◌≡◌, ◌≢◌, ℕ, ◌+◌, ◌-◌, ◌*◌, ◌<◌, ◌≤◌, ◌^◌, ◌==◌, ◌&&◌, ◌||◌, List, [], ◌++◌, IsTrue, false, length, not, if◌then◌else◌};
ghost use Rattle.tox_log.specs.files.WholeLines.{AreLines};
ghost use Rattle.tox_log.specs.files.EntryText.{entry_text};
ghost use Rattle.tox_log.specs.files.LogSteps.{Adds, IsShareOf, is_wanted, state_behind, tells};

use crate::LogBytes;
use crate::files::entry::Entry;
use crate::files::entry_text::{print_entry, state_behind};
use crate::files::log_state::LogState;
use crate::files::waiting_bytes::{Share, WaitingBytes};
use crate::files::whole_lines::lines_within;
use std::alloc::Global;
use std::mem;
use std::sync::Wait;

/// How many bytes of one log may wait for its file. A file that can't follow ends the log.
const MAX_WAITING_PER_LOG: usize = 1_048_576;

/// From how many bytes on a log goes to its file at once.
const MANY_PER_LOG: usize = 262_144;

/// How many bytes of one log are counted at once, before they wait.
const MAX_AHEAD: usize = 4_096;

/// Whether so many bytes of a log may wait. Counts what its share lacks, or as many more as waited before, up to 4,096.
fn may_wait<R: Wait>(
    rt: &R,
    all: &WaitingBytes,
    share: &mut Share,
    before: usize,
    end: usize,
) -> bool
    requires ahead { share.old.bytes ≤ 2 * before }
    requires few { before ≤ 1048576 }
    requires more { before ≤ end }
    ensures few { IsTrue result → end ≤ 1048576 }
    ensures held { IsTrue result → end ≤ share.new.bytes }
    ensures ahead { IsTrue result → share.new.bytes ≤ 2 * end }
    ensures same { result ≡ false → share.new ≡ share.old }
{
    if end > MAX_WAITING_PER_LOG {
        return false;
    }
    let (held, end) = (share.bytes(), end as u64);
    if end <= held {
        return true;
    }
    let ahead = before.min(MAX_AHEAD) as u64;
    match all.reserve(rt, end - held, ahead) {
        Some(more) => {
            share.join(more);
            true
        }
        None => false,
    }
}

/// Adds the lines of an entry that have room, if they may wait, and tells how the log is then.
fn add_entry<R: Wait>(
    rt: &R,
    all: &WaitingBytes,
    waiting: &mut LogBytes,
    share: &mut Share,
    entry: &Entry<'_>,
    room: u64,
) -> LogState
    requires works { waiting.old.1 ≡ false }
    requires few { length waiting.old.0 ≤ 1048576 }
    requires counted { IsShareOf share.old.bytes waiting.old.0 }
    ensures adds { Adds room waiting.old.0 (entry_text entry.now) waiting.new.0
        (state_behind entry.now) result }
    ensures works { waiting.new.1 ≡ false }
    ensures counted { IsShareOf share.new.bytes waiting.new.0 }
{
    let before = waiting.bytes().len();
    let printed = print_entry(waiting, entry).is_ok();
    let text = &waiting.bytes()[before..];
    let count = lines_within(text, room);
    let is_whole = count == text.len();
    let end = before + count;
    if printed && may_wait(rt, all, share, before, end) {
        waiting.cut(end);
        return if is_whole {
            state_behind(entry)
        } else {
            LogState::Done
        };
    }
    waiting.cut(before);
    LogState::Cut
}

/// Lines that were taken for the file of a log.
pub(crate) struct TakenLines {
    pub(crate) lines: LogBytes,
    /// Whether none were taken before.
    pub(crate) is_first: bool,
    /// What is counted of the log.
    pub(crate) share: Share,
}

/// The lines of a log that wait for its file, and what its file has.
pub(crate) struct LogText {
    alloc: Global,
    waiting: LogBytes,
    /// The part of the count of all logs that what waits has.
    share: Share,
    /// How many bytes its writer has taken.
    taken: u64,
    /// How many bytes it may have.
    most: u64,
    /// How many lines its file has.
    lines: u64,
    state: LogState,
    /// Whether its writer was called for what waits.
    is_called: bool,
    ghost works: { waiting.1 ≡ false },
    ghost whole: { AreLines waiting.0 },
    ghost few: { length waiting.0 ≤ 1048576 },
    ghost within: { taken + length waiting.0 ≤ most },
    ghost counted: { IsShareOf share.bytes waiting.0 },
}

impl Drop for LogText {
    /// Only where its writer couldn't be called do lines wait then. They stay counted.
    fn drop(self) {
        let LogText {
            alloc: _,
            waiting: _,
            share,
            taken: _,
            most: _,
            lines: _,
            state: _,
            is_called: _,
        } = self;
        share.lose();
    }
}

impl LogText {
    ghost use Rattle.tox_log.specs.files.LogOf.{HasLogOf};

    /// A log without lines, of at most so many bytes.
    pub(crate) fn new(alloc: Global, most: u64) -> LogText
        ensures empty { result.waiting ≡ ([], false) }
        ensures start { (result.taken ≡ 0) × (result.lines ≡ 0) × (result.state ≡ LogState.Goes) }
        ensures limit { result.most ≡ most }
    {
        LogText {
            alloc,
            waiting: LogBytes::new(alloc),
            share: Share::none(),
            taken: 0,
            most,
            lines: 0,
            state: LogState::Goes,
            is_called: false,
        }
    }

    /// How many bytes wait.
    pub(crate) fn waiting(&self) -> usize
        ensures { result ≡ length self.now.waiting.0 }
    {
        self.waiting.bytes().len()
    }

    /// Adds an entry, unless the log has ended. Lines that may not wait end it. True if its writer must be called.
    pub(crate) fn add<R: Wait>(&mut self, rt: &R, all: &WaitingBytes, entry: &Entry<'_>) -> bool
        ensures log { (taken logged : List ℕ) → HasLogOf self.old taken logged
            → HasLogOf self.new taken (logged ++ entry_text entry.now) }
        ensures adds { self.old.state ≡ LogState.Goes
            → Adds (self.old.most - (self.old.taken + length self.old.waiting.0)) self.old.waiting.0
            (entry_text entry.now) self.new.waiting.0 (state_behind entry.now) self.new.state }
        ensures kept { (self.new.taken ≡ self.old.taken) × (self.new.most ≡ self.old.most)
            × (self.new.lines ≡ self.old.lines) }
        ensures calls { result
            ≡ (not self.old.is_called && is_wanted self.new.waiting.0 self.new.state) }
    {
        self.grow(rt, all, entry);
        if self.is_urgent() {
            all.set_urgent();
        }
        self.call()
    }

    /// Whether what waits must go to the file at once: there is much, or nothing comes behind it.
    pub(crate) fn is_urgent(&self) -> bool {
        let count = self.waiting();
        count >= MANY_PER_LOG || count > 0 && self.state != LogState::Goes
    }

    /// Adds an entry, unless the log has ended.
    fn grow<R: Wait>(&mut self, rt: &R, all: &WaitingBytes, entry: &Entry<'_>)
        ensures adds { self.old.state ≡ LogState.Goes
            → Adds (self.old.most - (self.old.taken + length self.old.waiting.0)) self.old.waiting.0
            (entry_text entry.now) self.new.waiting.0 (state_behind entry.now) self.new.state }
        ensures ended { self.old.state ≢ LogState.Goes
            → (self.new.waiting.0 ≡ self.old.waiting.0) × (self.new.state ≡ self.old.state) }
        ensures kept { (self.new.taken ≡ self.old.taken) × (self.new.most ≡ self.old.most)
            × (self.new.lines ≡ self.old.lines) × (self.new.is_called ≡ self.old.is_called) }
    {
        if self.state == LogState::Goes {
            let room = self.most - (self.taken + self.waiting() as u64);
            let (waiting, share) = (&mut self.waiting, &mut self.share);
            self.state = add_entry(rt, all, waiting, share, entry, room);
        }
    }

    /// True if there is something for the writer, and it wasn't called before.
    fn call(&mut self) -> bool
        ensures kept { self.new ≡ record self.old { is_called = self.new.is_called } }
        ensures calls { result
            ≡ (not self.old.is_called && is_wanted self.old.waiting.0 self.old.state) }
        ensures called { self.new.is_called ≡ (self.old.is_called || result) }
    {
        let is_wanted = !self.waiting.bytes().is_empty() || self.state == LogState::Cut;
        let calls = !self.is_called && is_wanted;
        self.is_called = self.is_called || calls;
        calls
    }

    /// The writer couldn't be called: the next entry calls it. Gives back what was counted ahead.
    pub(crate) fn call_again(&mut self) -> Share
        ensures again { self.new.is_called ≡ false }
        ensures kept { (self.new.waiting ≡ self.old.waiting) × (self.new.state ≡ self.old.state)
            × (self.new.taken ≡ self.old.taken) × (self.new.most ≡ self.old.most)
            × (self.new.lines ≡ self.old.lines) }
        ensures share { (self.new.share.bytes ≡ length self.old.waiting.0)
            × (self.new.share.bytes + result.bytes ≡ self.old.share.bytes) }
    {
        self.is_called = false;
        let kept = self.waiting() as u64;
        self.share.split(kept)
    }

    /// Takes the lines that wait, with all that is counted of the log.
    pub(crate) fn take(&mut self) -> TakenLines
        ensures taken { result.lines ≡ self.old.waiting }
        ensures first { result.is_first ≡ (self.old.taken == 0) }
        ensures share { (result.share ≡ self.old.share) × (result.share.bytes ≤ 2097152) }
        ensures counted { self.new.taken ≡ self.old.taken + length self.old.waiting.0 }
        ensures empty { (self.new.waiting ≡ ([], false)) × (self.new.is_called ≡ false) }
        ensures kept { (self.new.most ≡ self.old.most) × (self.new.lines ≡ self.old.lines)
            × (self.new.state ≡ self.old.state) }
    {
        self.is_called = false;
        let is_first = self.taken == 0;
        self.taken += self.waiting.bytes().len() as u64;
        TakenLines {
            lines: mem::replace(&mut self.waiting, LogBytes::new(self.alloc)),
            is_first,
            share: mem::replace(&mut self.share, Share::none()),
        }
    }

    /// The file has so many more lines, or has failed behind them. Tells how many lines it has if the log ends there, once.
    /// What is counted of the lines that are dropped joins what goes back.
    pub(crate) fn wrote(&mut self, lines: u64, failed: bool, back: &mut Share) -> Option<u64>
        requires { back.old.bytes ≤ 2097152 }
        ensures lines { self.old.lines + lines < 2 ^ 64 → self.new.lines ≡ self.old.lines + lines }
        ensures reported { result ≡ (if tells self.old.waiting.0 self.old.state failed
            then Some self.new.lines else None) }
        ensures state { self.new.state ≡ (if tells self.old.waiting.0 self.old.state failed
            then LogState.Reported else self.old.state) }
        ensures waits { self.new.waiting.0 ≡ (if failed then [] else self.old.waiting.0) }
        ensures kept { (self.new.taken ≡ self.old.taken) × (self.new.most ≡ self.old.most) }
        ensures share { self.new.share.bytes + back.new.bytes
            ≡ self.old.share.bytes + back.old.bytes }
    {
        self.lines = self.lines.saturating_add(lines);
        if failed {
            self.waiting = LogBytes::new(self.alloc);
            back.join(mem::replace(&mut self.share, Share::none()));
        }
        let is_over = failed || self.state == LogState::Cut && self.waiting.bytes().is_empty();
        if !is_over || self.state == LogState::Reported {
            return None;
        }
        self.state = LogState::Reported;
        Some(self.lines)
    }
}

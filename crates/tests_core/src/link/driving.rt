//! A direction that is driven drive by drive, as the steps of a table say.
ghost use Rattle.std.specs.Prelude.{◌≡◌, true, false, None};
ghost use Rattle.tox_time.specs.Time.{IsInstant};
ghost use Rattle.tox_link.specs.direction.Driven.{IsReady};

use crate::comparing::assert_equal_at;
use crate::link::case_notes::{CaseNotes, Kept};
use crate::link::link_ends::RestingClock;
use crate::link::polled_ends::front_of;
use crate::link::table_values::{Event, events_of};
use crate::planning::{one_word, plan_of};
use std::io::IoSlice;
use std::process::Abort;
use std::sync::Arc;
use std::sync::atomic::{AtomicU64, Ordering};
use tests_support::{Scarcity, at};
use tox_link::{LinkFault, PollSink, PollSource, PolledLink, Progress, drive};
use tox_time::{EndFault, Micros};

/// A source that gives so many bytes, some of them a call, and then would wait. The clock moves on by 10 at each call.
#[derive(Drop)]
struct TickingSource {
    micros: Arc<AtomicU64>,
    left: u64,
    most: u64,
    waits: bool,
}

impl PollSource for TickingSource {
    ghost failed = { λ _. false };

    ghost remaining = { λ _. None };

    ghost waits = { λ s. s.waits };

    fn poll_read(&mut self, buffer: &mut [u8]) -> Result<Option<usize>, EndFault> {
        self.micros.fetch_add(10, Ordering::SeqCst);
        self.waits = self.left == 0 || buffer.is_empty();
        if self.waits {
            return Ok(None);
        }
        let count = self.left.min(self.most).min(buffer.len() as u64);
        self.left = self.left.saturating_sub(count);
        Ok(Some(count as usize))
    }
}

/// A sink that takes the first buffer of a call, or would wait until it is due and then fails.
#[derive(Drop)]
struct DueSink {
    micros: Arc<AtomicU64>,
    due: Option<Micros>,
    failed: bool,
    /// The most nonempty buffers of one call.
    together: usize,
}

impl PollSink for DueSink {
    ghost failed = { λ s. s.failed };

    ghost written = { λ _. None };

    ghost waits = { λ _. true };

    ghost due = { λ s. s.due };

    fn poll_write(&mut self, buffers: &[IoSlice<'_>]) -> Result<Option<usize>, EndFault> {
        self.together = self.together.max(nonempty(buffers));
        let Some(due) = self.due else {
            return Ok(Some(front_of(buffers).len()));
        };
        self.failed = due.get() <= self.micros.load(Ordering::SeqCst);
        if self.failed {
            return Err(EndFault);
        }
        Ok(None)
    }

    fn due(&self) -> Option<Micros> {
        self.due
    }
}

/// How many buffers have bytes.
fn nonempty(buffers: &[IoSlice<'_>]) -> usize {
    buffers.iter().filter(|buffer| !buffer.is_empty()).count()
}

/// A direction under these toxics, at which nothing has arrived.
fn planned_link(rt: &(impl Abort + AllocGlobal), toxics: &str) -> PolledLink
    ensures { IsReady IsInstant result None false }
{
    let words = one_word(rt);
    let plan = plan_of(rt, toxics, &words);
    PolledLink::new(rt.alloc(), plan, words).expect(rt, "memory")
}

/// What a direction is driven with, and how.
pub struct DriveCase {
    pub toxics: &'static str,
    /// How many bytes the source gives, and how many of them a call.
    pub gives: u64,
    pub most_read: u64,
    /// When a sink that takes nothing is due.
    pub due: Option<u64>,
    pub kept: Kept,
    pub steps: &'static [Step],
}

/// A step of a table.
pub enum Step {
    /// A drive waits, at most until this instant if there is one, or breaks off.
    Drive(Result<Option<u64>, LinkFault>),
    /// A drive may go on at once.
    DriveOn,
    /// The same where there is no memory.
    DriveWithoutMemory(Result<Option<u64>, LinkFault>),
    /// The clock goes to this instant.
    Clock(u64),
    /// The source has so many bytes more.
    Gives(u64),
    /// So many bytes of the source are left.
    Left(u64),
    /// One call so far wrote so many nonempty buffers, and none wrote more.
    Together(usize),
    /// All events that were noted.
    Events(&'static [Event]),
}

/// A direction that is driven drive by drive.
#[derive(Drop)]
struct DrivenLink {
    link: PolledLink,
    clock: RestingClock,
    source: TickingSource,
    sink: DueSink,
    notes: CaseNotes,
}

/// Drives a direction as the steps of a case say, from a clock at 0. A difference names the step by its number.
pub fn follow(rt: &(impl Abort + AllocGlobal), case: &DriveCase) {
    let clock = RestingClock::new(rt);
    let mut driven = DrivenLink {
        link: planned_link(rt, case.toxics),
        source: case.source(rt, &clock),
        sink: case.sink(rt, &clock),
        clock,
        notes: CaseNotes::new(rt.alloc(), case.kept),
    };
    driven.take_all(rt, case.steps);
}

impl DriveCase {
    fn source(&self, rt: &impl Abort, clock: &RestingClock) -> TickingSource {
        TickingSource {
            micros: clock.share(rt),
            left: self.gives,
            most: self.most_read,
            waits: false,
        }
    }

    fn sink(&self, rt: &impl Abort, clock: &RestingClock) -> DueSink {
        DueSink {
            micros: clock.share(rt),
            due: self.due.map(at),
            failed: false,
            together: 0,
        }
    }
}

impl DrivenLink {
    /// Takes all steps.
    fn take_all(&mut self, rt: &(impl Abort + AllocGlobal), steps: &[Step])
        requires { IsReady IsInstant self.old.link None false }
    {
        for (nth, step) in steps.iter().enumerate() {
            self.take(rt, step, nth as u64);
        }
    }

    /// Takes a step.
    fn take(&mut self, rt: &(impl Abort + AllocGlobal), step: &Step, nth: u64)
        requires { IsReady IsInstant self.old.link None false }
        ensures { IsReady IsInstant self.new.link None false }
    {
        match step {
            Step::Drive(answer) => {
                let driven = self.drive(rt);
                compare_answer(rt, driven, answer, nth);
            }
            Step::DriveOn => {
                let driven = self.drive(rt);
                assert_equal_at(rt, &driven, &Ok(Progress::Again), nth);
            }
            Step::DriveWithoutMemory(answer) => {
                let driven = self.drive_without_memory(rt);
                compare_answer(rt, driven, answer, nth);
            }
            Step::Clock(micros) => self.clock.micros.store(*micros, Ordering::SeqCst),
            Step::Gives(count) => self.source.left = *count,
            Step::Left(count) => assert_equal_at(rt, &self.source.left, count, nth),
            Step::Together(count) => assert_equal_at(rt, &self.sink.together, count, nth),
            Step::Events(events) => {
                assert_equal_at(rt, &self.notes.noted.events, &events_of(rt, events), nth);
            }
        }
    }

    /// Drives it once.
    fn drive(&mut self, rt: &(impl Abort + AllocGlobal)) -> Result<Progress, LinkFault>
        requires { IsReady IsInstant self.old.link None false }
        ensures { IsReady IsInstant self.new.link None false }
    {
        assert!(rt; !self.sink.failed);
        let mut scratch = [0; 65_536];
        drive(
            &mut self.link,
            rt.alloc(),
            &self.clock,
            &mut self.notes,
            &mut self.source,
            &mut self.sink,
            &mut scratch,
        )
    }

    /// Drives it once without memory.
    fn drive_without_memory(
        &mut self,
        rt: &(impl Abort + AllocGlobal),
    ) -> Result<Progress, LinkFault>
        requires { IsReady IsInstant self.old.link None false }
        ensures { IsReady IsInstant self.new.link None false }
    {
        let mut scarcity = Scarcity::new(rt.alloc()).expect(rt, "memory");
        scarcity.leave(rt.alloc(), 0).expect(rt, "room");
        let driven = self.drive(rt);
        scarcity.end();
        driven
    }
}

/// Compares what a drive answered with what a table says.
fn compare_answer(
    rt: &impl Abort,
    driven: Result<Progress, LinkFault>,
    answer: &Result<Option<u64>, LinkFault>,
    nth: u64,
) {
    let answer = match answer {
        Ok(until) => Ok(Progress::Waits(until.map(at))),
        Err(fault) => Err(*fault),
    };
    assert_equal_at(rt, &driven, &answer, nth);
}

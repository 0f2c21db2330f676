//! Carries one direction of a link between ends in memory as a case says, and compares what came of it.
ghost use Rattle.std.specs.Prelude.{◌≡◌, false};

use crate::comparing::assert_equal;
use crate::end::End;
use crate::link::case_notes::{CaseNotes, Kept};
use crate::link::link_ends::{HungUp, RestingClock, TickingGate, WaitingSource, WatchingSink};
use crate::link::table_values::{Event, events_of};
use crate::planning::{one_word, plan_of};
use std::process::Abort;
use std::sync::atomic::{AtomicBool, AtomicU64, Ordering};
use std::sync::{Arc, Wait};
use std::thread::Threads;
use tests_support::Meeting;
use tox_link::{Ends, LinkEvent, LinkFault, SourceEnding, carry};
use tox_time::{Ending, Gate, MemorySink, MemorySource, OpenGate};

/// What a link is carried with, and what is then found. The clock stands at 0, and moves where the link rests or the gate ticks.
#[derive(Drop)]
pub struct CarryCase {
    pub toxics: &'static str,
    /// The reader gives so many bytes `a`, and then these bytes.
    pub leading: usize,
    pub bytes: &'static [u8],
    /// How many bytes a read gives at most.
    pub most_read: usize,
    /// The call of the reader that fails, counted from 1.
    pub failing_read: Option<u64>,
    /// Whether the second read waits until a byte is written.
    pub read_waits: bool,
    /// How many reads are made at most.
    pub reads: u64,
    /// The room of the writer, and how many bytes a write takes at most.
    pub room: usize,
    pub most_written: usize,
    /// The call of the writer that fails, counted from 1.
    pub failing_write: Option<u64>,
    /// Whether the reader's second read and the writer's first message wait for each other.
    pub meets: bool,
    /// Whether the clock moves on by 10 at each message that the writer's side takes.
    pub ticks: bool,
    /// How many bytes are taken and written, how the link ends, and how its source.
    pub answer: Result<(u64, End, SourceEnding), LinkFault>,
    /// How often the hangup is called, whether it is told of the source's end, and of which ending, and the clock at that.
    pub hangup: (u64, bool, End, u64),
    /// What is written, if it is compared.
    pub written: Option<&'static [u8]>,
    /// The clock at the first write, if it is compared.
    pub first_write: Option<u64>,
    /// Which events may be noted. None are compared if this is empty.
    pub events: &'static [&'static [Event]],
    /// Which events are noted.
    pub kept: Kept,
}

/// Two bytes that are read at once and written at once.
pub const AT_ONCE: CarryCase = CarryCase {
    toxics: "",
    leading: 0,
    bytes: b"ab",
    most_read: 16,
    failing_read: None,
    read_waits: false,
    reads: 10,
    room: 16,
    most_written: 16,
    failing_write: None,
    meets: false,
    ticks: false,
    answer: Ok((2, End::Closed(0), SourceEnding::Eof)),
    hangup: (1, true, End::Closed(0), 0),
    written: Some(b"ab"),
    first_write: None,
    events: &[],
    kept: Kept::All,
};

/// The far end of a link in memory.
type CaseEnds = Ends<WatchingSink, HungUp>;

/// A gate at which threads may meet, and which may move the clock on.
#[derive(Drop)]
struct CaseGate {
    meeting: Meeting,
    meets: bool,
    ticking: TickingGate,
    ticks: bool,
}

impl CaseGate {
    /// Whether the threads that wait for each other have met.
    fn met(&self) -> bool {
        !self.meets || self.meeting.met()
    }
}

impl Gate for CaseGate {
    fn pass(&self, stage: usize, nth: u64) {
        OpenGate.pass(stage, nth);
        if self.meets {
            self.meeting.pass(stage, nth);
        }
        if self.ticks {
            self.ticking.pass(stage, nth);
        }
    }
}

/// What is shared with the ends of a link: its clock and gate, how many bytes were written, and whether a read waited in vain.
#[derive(Drop)]
struct Shared {
    clock: RestingClock,
    gate: Arc<CaseGate>,
    written: Arc<AtomicU64>,
    missed: Arc<AtomicBool>,
}

impl Shared {
    fn new(rt: &(impl Abort + AllocGlobal), case: &CarryCase) -> Shared {
        let clock = RestingClock::new(rt);
        let written = Arc::new(rt.alloc(), AtomicU64::new(0));
        let missed = Arc::new(rt.alloc(), AtomicBool::new(false));
        Shared {
            gate: case.gate(rt, &clock),
            clock,
            written: written.expect(rt, "memory"),
            missed: missed.expect(rt, "memory"),
        }
    }

    fn share_written(&self, rt: &impl Abort) -> Arc<AtomicU64> {
        self.written.clone().expect(rt, "few owners")
    }

    /// Asserts that the threads met, and that no read waited in vain.
    fn assert_met(&self, rt: &impl Abort) {
        assert!(rt; self.gate.met());
        assert!(rt; !self.missed.load(Ordering::SeqCst));
    }
}

impl CarryCase {
    /// All bytes that the reader gives.
    fn given(&self, rt: &(impl Abort + AllocGlobal)) -> Vec<u8> {
        let mut bytes = vec![in rt.alloc(); 0x61; self.leading].expect(rt, "memory");
        bytes.extend_from_slice(self.bytes).expect(rt, "memory");
        bytes
    }

    fn reader(&self, rt: &(impl Abort + AllocGlobal), with: &Shared) -> WaitingSource
        ensures { result.source.failed ≡ false }
    {
        let bytes = self.given(rt);
        WaitingSource {
            source: MemorySource::new(bytes, self.most_read.max(1), self.failing_read),
            waits: self.read_waits,
            bytes: with.share_written(rt),
            reads: 0,
            missed: with.missed.clone().expect(rt, "few owners"),
        }
    }

    fn writer(&self, rt: &(impl Abort + AllocGlobal), with: &Shared) -> WatchingSink
        ensures { result.sink.failed ≡ false }
    {
        let most = self.most_written.max(1);
        let sink = MemorySink::new(rt.alloc(), self.room, most, self.failing_write);
        WatchingSink {
            sink: sink.expect(rt, "memory"),
            micros: with.clock.share(rt),
            bytes: with.share_written(rt),
            first: None,
        }
    }

    fn ends(&self, rt: &(impl Abort + AllocGlobal), with: &Shared) -> CaseEnds
        ensures { result.writer.sink.failed ≡ false }
    {
        Ends {
            writer: self.writer(rt, with),
            hangup: HungUp::new(with.clock.share(rt)),
        }
    }

    fn gate(&self, rt: &(impl Abort + AllocGlobal), clock: &RestingClock) -> Arc<CaseGate> {
        let ticking = TickingGate {
            micros: clock.share(rt),
        };
        let gate = CaseGate {
            meeting: Meeting::new(1),
            meets: self.meets,
            ticking,
            ticks: self.ticks,
        };
        Arc::new(rt.alloc(), gate).expect(rt, "memory")
    }
}

/// The bytes that were taken and written, and how the link and its source ended.
type Answer = Result<(u64, u64, Ending, SourceEnding), LinkFault>;

/// Carries a link, and compares what came of it with what its case says. Its threads meet, and its reads wait no longer than
/// they have to.
pub fn follow<R>(rt: &R, case: &CarryCase)
where
    R: Threads + Wait + Copy + Send + AllocGlobal + Abort + 'static,
{
    let with = Shared::new(rt, case);
    carry_case(rt, case, &with);
    with.assert_met(rt);
}

/// Carries what the reader of a case gives to its end, and compares what came of it.
fn carry_case<R>(rt: &R, case: &CarryCase, with: &Shared)
where
    R: Threads + Wait + Copy + Send + AllocGlobal + Abort + 'static,
{
    let mut ends = case.ends(rt, with);
    let mut notes = CaseNotes::new(rt.alloc(), case.kept);
    let answer = answer_of(rt, case, with, &mut ends, &mut notes);
    case.compare_ends(rt, &answer, &ends.hangup);
    case.compare_writer(rt, &ends.writer);
    case.compare_events(rt, &notes.noted.events);
}

/// What `carry` answers, without its reader.
fn answer_of<R>(
    rt: &R,
    case: &CarryCase,
    with: &Shared,
    ends: &mut CaseEnds,
    notes: &mut CaseNotes,
) -> Answer
where
    R: Threads + Wait + Copy + Send + AllocGlobal + Abort + 'static,
    requires { ends.old.writer.sink.failed ≡ false }
{
    let words = one_word(rt);
    match carry(
        rt,
        rt.alloc(),
        case.reader(rt, with),
        ends,
        &with.clock,
        plan_of(rt, case.toxics, &words),
        &words,
        case.reads,
        notes,
        &with.gate,
    ) {
        Ok(report) => Ok((report.taken, report.written, report.ending, report.source)),
        Err(fault) => Err(fault),
    }
}

impl CarryCase {
    /// Compares what `carry` answered, and what the hangup was told.
    fn compare_ends(&self, rt: &impl Abort, answer: &Answer, hangup: &HungUp) {
        let expected = match self.answer {
            Ok((bytes, end, source)) => Ok((bytes, bytes, end.ending(), source)),
            Err(fault) => Err(fault),
        };
        assert_equal(rt, answer, &expected);
        let reported = (hangup.calls, hangup.source_ended, hangup.ending, hangup.at);
        let (calls, source_ended, end, micros) = self.hangup;
        assert_equal(rt, &reported, &(calls, source_ended, end.ending(), micros));
    }

    fn compare_writer(&self, rt: &impl Abort, writer: &WatchingSink) {
        if self.written.is_some() {
            assert_equal(rt, &Some(writer.sink.bytes()), &self.written);
        }
        if self.first_write.is_some() {
            assert_equal(rt, &writer.first, &self.first_write);
        }
    }

    /// Asserts that the notes are one of the case's logs.
    fn compare_events(&self, rt: &(impl Abort + AllocGlobal), events: &Vec<LinkEvent>) {
        let mut found = self.events.is_empty();
        for log in self.events {
            found = found || is_log(rt, events, log);
        }
        assert!(rt; found, "{events:?}");
    }
}

/// Whether these are the events that a table writes.
fn is_log(rt: &(impl Abort + AllocGlobal), events: &Vec<LinkEvent>, log: &[Event]) -> bool {
    *events == events_of(rt, log)
}

//! Driven directions beside `deliver`, under schedules drawn at random.
ghost use Rattle.std.specs.Prelude.{◌≡◌, ◌<◌, false, Some, MatchResult};
ghost use Rattle.tox_time.specs.Time.{IsInstant};
ghost use Rattle.tox_link.specs.direction.Driven.{IsAtEnd, IsReady};
ghost use Rattle.tox_link.specs.direction.Follows.{IsHeld, IsNew};
ghost use Rattle.tox_link.specs.Reports.{written_before};

use crate::comparing::assert_equal_at;
use crate::link::link_ends::{Noted, RestingClock};
use crate::link::polled_ends::BusyEnd;
use crate::link::schedules::{drawn_chain, instants_of};
use rand_pcg::Lcg64Xsh32;
use std::process::Abort;
use std::sync::atomic::Ordering;
use tests_support::{below, drawn_words};
use tox_compile::compile;
use tox_defs::Chain;
use tox_link::{LinkEvent, LinkFault, PolledLink, Progress, TimedReport, drive, finish};
use tox_plan::deliver;
use tox_time::{Arrivals, Ending, MemorySink, MemorySource, Micros, Outcome, SliceList};
use tox_words::Words;

/// More drives than a drawn direction takes.
const MAX_DRIVES: usize = 1_000_000;

/// Drives a direction until it has ended or broken off. The clock goes on while it waits.
fn drive_on(
    rt: &(impl Abort + AllocGlobal),
    generator: &mut Lcg64Xsh32,
    link: &mut PolledLink,
    clock: &RestingClock,
    notes: &mut Noted,
    source: &mut BusyEnd<MemorySource>,
    sink: &mut BusyEnd<MemorySink>,
) -> Result<Ending, LinkFault>
    requires ready { IsReady IsInstant link.old
        (Some source.old.end.bytes) source.old.end.failed }
    requires working { sink.old.end.failed ≡ false }
    ensures held { IsHeld link.new }
    ensures driven { MatchResult result (IsAtEnd IsInstant link.new)
        (λ fault. written_before fault ≡ link.new.written) }
{
    let mut scratch = [0; 65_536];
    for _ in 0..MAX_DRIVES {
        match drive(link, rt.alloc(), clock, notes, source, sink, &mut scratch) {
            Ok(Progress::Again) => {}
            Ok(Progress::Waits(until)) => go_on(generator, clock, until),
            Ok(Progress::Ended(ending)) => return Ok(ending),
            Err(fault) => return Err(fault),
        }
    }
    panic!(rt; "no end")
}

/// Moves the clock on: to the instant that is waited for, or by a drawn time.
fn go_on(generator: &mut Lcg64Xsh32, clock: &RestingClock, until: Option<Micros>) {
    let now = clock.micros.load(Ordering::SeqCst);
    let drawn = now.saturating_add(u64::from(below(generator, 1500)));
    let next = match until {
        Some(until) if below(generator, 2) == 0 => until.get().max(now),
        _ => drawn,
    };
    clock.micros.store(next, Ordering::SeqCst);
}

/// The words that a seed draws.
fn words_drawn_by(rt: &(impl Abort + AllocGlobal), seed: u64) -> Words {
    drawn_words(rt.alloc(), &mut Lcg64Xsh32::new(seed, 4)).expect(rt, "words")
}

/// A direction under the chain and the words of a seed. It keeps the words only if it draws any.
fn link_of(rt: &(impl Abort + AllocGlobal), chain: &Chain, seed: u64) -> PolledLink
    ensures fresh { IsNew result }
    ensures held { IsHeld result }
{
    let words = words_drawn_by(rt, seed);
    let plan = compile(chain, &words);
    let link = if plan.draws() {
        PolledLink::new(rt.alloc(), plan, words)
    } else {
        PolledLink::without_words(rt.alloc(), plan)
    };
    link.expect(rt, "memory")
}

/// Bytes that tell their position, up to 600 of them.
pub fn drawn_bytes(rt: &(impl Abort + AllocGlobal), generator: &mut Lcg64Xsh32) -> Vec<u8> {
    let mut bytes = Vec::new(rt.alloc());
    for nth in 0..below(generator, 600) {
        bytes.push((nth % 251) as u8).expect(rt, "memory");
    }
    bytes
}

/// At one call in eight of those that fail, which one.
fn drawn_fault(generator: &mut Lcg64Xsh32) -> Option<u64> {
    if below(generator, 8) == 0 {
        Some(u64::from(1 + below(generator, 20)))
    } else {
        None
    }
}

/// What a direction heard and said.
#[derive(Drop)]
struct Log {
    arrivals: Arrivals,
    slices: SliceList,
}

impl Log {
    fn new(rt: &(impl Abort + AllocGlobal), notes: &Noted) -> Log {
        let mut log = Log {
            arrivals: Arrivals::new(rt.alloc()),
            slices: SliceList::new(rt.alloc()),
        };
        for event in notes.events.as_slice() {
            log.add(rt, event);
        }
        log
    }

    fn add(&mut self, rt: &impl Abort, event: &LinkEvent) {
        match event {
            LinkEvent::Piece(len, at) => self.arrivals.push(*len, *at).expect(rt, "a piece"),
            LinkEvent::SourceEnd(at) => self.arrivals.eof(*at).expect(rt, "an end"),
            LinkEvent::Wrote(slice, _) => self.slices.push(*slice).expect(rt, "a slice"),
        }
    }
}

/// How a direction reports that it ended, and how many bytes it says that it wrote.
#[derive(Drop)]
pub struct DrivenEnding {
    ending: Ending,
    written: u64,
}

/// What a drawn direction reported, noted and wrote.
#[derive(Drop)]
pub struct DrivenDirection {
    pub answer: Result<DrivenEnding, LinkFault>,
    pub notes: Noted,
    pub written: Vec<u8>,
}

/// A source of these bytes, which gives as many a call as the generator draws.
fn drawn_source(generator: &mut Lcg64Xsh32, bytes: Vec<u8>, seed: u64) -> BusyEnd<MemorySource>
    ensures { result.end.failed ≡ false }
{
    let most = 1 + below(generator, 60) as usize;
    let reader = MemorySource::new(bytes, most, drawn_fault(generator));
    BusyEnd::new(reader, seed)
}

/// A sink with room for 600 bytes, which takes as many a call as the generator draws.
fn drawn_sink(
    rt: &(impl Abort + AllocGlobal),
    generator: &mut Lcg64Xsh32,
    seed: u64,
) -> BusyEnd<MemorySink>
    ensures { result.end.failed ≡ false }
{
    let most = 1 + below(generator, 60) as usize;
    let writer = MemorySink::new(rt.alloc(), 600, most, drawn_fault(generator));
    BusyEnd::new(writer.expect(rt, "memory"), seed)
}

/// Drives a direction under a chain to its end. Its ends give and take as the generator draws.
pub fn driven_under(
    rt: &(impl Abort + AllocGlobal),
    generator: &mut Lcg64Xsh32,
    chain: &Chain,
    bytes: Vec<u8>,
    seed: u64,
) -> DrivenDirection {
    let mut notes = Noted::new(rt.alloc());
    let source = drawn_source(generator, bytes, seed);
    let mut sink = drawn_sink(rt, generator, seed);
    let link = link_of(rt, chain, seed);
    let answer = driven_to_end(rt, generator, link, &mut notes, source, &mut sink);
    let written = sink.end.bytes().to_vec(rt.alloc()).expect(rt, "memory");
    DrivenDirection {
        answer,
        notes,
        written,
    }
}

/// Drives a direction from its start to its end.
fn driven_to_end(
    rt: &(impl Abort + AllocGlobal),
    generator: &mut Lcg64Xsh32,
    mut link: PolledLink,
    notes: &mut Noted,
    mut source: BusyEnd<MemorySource>,
    sink: &mut BusyEnd<MemorySink>,
) -> Result<DrivenEnding, LinkFault>
    requires fresh { IsNew link }
    requires held { IsHeld link }
    requires gives { source.end.failed ≡ false }
    requires working { sink.old.end.failed ≡ false }
{
    let clock = RestingClock::new(rt);
    let driven = drive_on(rt, generator, &mut link, &clock, notes, &mut source, sink);
    driven_ending(&finish(link, &clock, driven, source))
}

/// What a report says of the ending.
fn driven_ending(
    finished: &Result<TimedReport<BusyEnd<MemorySource>>, LinkFault>,
) -> Result<DrivenEnding, LinkFault> {
    match finished {
        Ok(timed) => Ok(DrivenEnding {
            ending: timed.report.ending,
            written: timed.report.written,
        }),
        Err(fault) => Err(*fault),
    }
}

/// The instants of the bytes that a direction said, those that are due, and the ending that is due.
#[derive(Drop)]
struct Comparison {
    said: Vec<u64>,
    due: Vec<u64>,
    ending: Ending,
}

/// What a log says, beside what is delivered of what it heard.
fn comparison_of(
    rt: &(impl Abort + AllocGlobal),
    notes: &Noted,
    chain: &Chain,
    seed: u64,
) -> Comparison {
    let log = Log::new(rt, notes);
    let outcome = due(rt, chain, seed, &log.arrivals);
    Comparison {
        said: instants_of(rt, &log.slices),
        due: instants_of(rt, &outcome.slices),
        ending: outcome.ending,
    }
}

/// What is delivered of these arrivals, under the words of a seed.
fn due(rt: &(impl Abort + AllocGlobal), chain: &Chain, seed: u64, arrivals: &Arrivals) -> Outcome {
    let words = words_drawn_by(rt, seed);
    deliver(rt.alloc(), chain, &words, arrivals).expect(rt, "an outcome")
}

impl Comparison {
    /// A direction that ended said and wrote all that is due.
    fn compare_all(&self, rt: &impl Abort, driven: &DrivenEnding, written: usize, seed: u64) {
        let found = (&self.said, driven.ending, driven.written);
        let due = (&self.due, self.ending, written as u64);
        assert_equal_at(rt, &found, &due, seed);
    }

    /// A direction that broke off said and wrote the first of what is due.
    fn compare_part(&self, rt: &impl Abort, fault: &LinkFault, written: usize, seed: u64) {
        let is_part = written <= self.due.len();
        let found = (fault.written(), Some(self.said.as_slice()), is_part);
        let due = (written as u64, self.due.get(..self.said.len()), true);
        assert_equal_at(rt, &found, &due, seed);
    }
}

fn compare_bytes(rt: &impl Abort, written: &[u8], bytes: &[u8], seed: u64) {
    let front = bytes.get(..written.len());
    assert_equal_at(rt, &Some(written), &front, seed);
}

/// Compares a direction that a seed draws with what is delivered. Returns whether it broke off.
fn compare(rt: &(impl Abort + AllocGlobal), seed: u64) -> bool {
    let generator = &mut Lcg64Xsh32::new(seed, 3);
    let chain = drawn_chain(rt, generator);
    let bytes = drawn_bytes(rt, generator);
    compare_driven(rt, generator, &chain, &bytes, seed)
}

/// Compares a direction of these bytes under this chain with what is delivered. Returns whether it broke off.
fn compare_driven(
    rt: &(impl Abort + AllocGlobal),
    generator: &mut Lcg64Xsh32,
    chain: &Chain,
    bytes: &Vec<u8>,
    seed: u64,
) -> bool {
    let given = bytes.clone().expect(rt, "memory");
    let driven = driven_under(rt, generator, chain, given, seed);
    compare_bytes(rt, &driven.written, bytes, seed);
    compare_log(rt, &driven, chain, seed);
    driven.answer.is_err()
}

/// Compares what a direction said, and how it ended, with what is due.
fn compare_log(
    rt: &(impl Abort + AllocGlobal),
    driven: &DrivenDirection,
    chain: &Chain,
    seed: u64,
) {
    let comparison = comparison_of(rt, &driven.notes, chain, seed);
    let written = driven.written.len();
    match &driven.answer {
        Ok(end) => comparison.compare_all(rt, end, written, seed),
        Err(fault) => comparison.compare_part(rt, fault, written, seed),
    }
}

#[test]
fn drives_write_what_is_delivered(rt: HostRuntime) {
    let mut broken = 0u64;
    for seed in 0..1000 {
        broken = broken.saturating_add(u64::from(compare(&rt, seed)));
    }
    assert!(rt; 10 < broken && broken < 500);
}

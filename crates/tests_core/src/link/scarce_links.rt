//! Links in memory, with too little memory and too few threads.
ghost use Rattle.std.specs.Prelude.{◌≡◌, false, None};
ghost use Rattle.tox_time.specs.Time.{IsInstant};

use std::alloc::Global;
use std::process::Abort;
use std::sync::atomic::{AtomicU64, Ordering};
use std::sync::{Arc, Wait};
use std::thread::Threads;
use tests_support::{CountingGate, Refusals, Scarcity, Tried, try_each, with_stacks};
use tox_compile::compile;
use tox_defs::Chain;
use tox_link::{Clock, Ends, Hangup, LinkFault, NoNotes, carry};
use tox_time::{Ending, MemorySink, MemorySource, Micros};
use tox_words::Words;

/// More pages than a link needs.
const PAGES: usize = 100;

/// How often a link is tried with so many pages. A thread is refused too where the one before it still has the stack.
const TIMES: usize = 4;

/// A clock that stands still.
#[derive(Drop)]
struct StandingClock;

impl Clock for StandingClock {
    ghost reported = { λ _ instant. IsInstant instant };

    fn now(&self) -> Micros {
        Micros::ZERO
    }

    fn rest(&self, _until: Micros) {}

    ghost instants = { λ _ _ reported. reported };
}

/// Nothing hangs on these ends.
#[derive(Drop)]
struct NoHangup;

impl Hangup for NoHangup {
    ghost calls = { λ _. None };

    fn hang_up(&mut self, _ending: Ending, _source_ended: bool) {}
}

/// How many bytes a link took and wrote.
type Counts = (u64, u64);

/// What a link of two bytes answered, of which these were written. A fault tells how many.
fn tried_of(answer: &Result<Counts, LinkFault>, written: &[u8]) -> Tried {
    match answer {
        Ok((2, 2)) => Tried::Answered.writing(written, "ab"),
        Err(LinkFault::OutOfMemory(count)) if *count == written.len() as u64 => Tried::NoMemory,
        Err(LinkFault::SpawnRefused(0)) => Tried::NoThread.writing(written, ""),
        Ok(_) | Err(_) => Tried::Wrong,
    }
}

/// Carries what a reader gives through no toxics.
fn carried<R: Threads + Wait + Copy + Send + 'static>(
    rt: &R,
    alloc: Global,
    reader: MemorySource,
    ends: &mut Ends<MemorySink, NoHangup>,
    words: &Words,
    gate: &Arc<CountingGate>,
) -> Result<Counts, LinkFault>
    requires reader { reader.failed ≡ false }
    requires writer { ends.old.writer.failed ≡ false }
{
    let plan = compile(&Chain::new(), words);
    match carry(
        rt,
        alloc,
        reader,
        ends,
        &StandingClock,
        plan,
        words,
        10,
        &mut NoNotes,
        gate,
    ) {
        Ok(report) => Ok((report.taken, report.written)),
        Err(fault) => Err(fault),
    }
}

/// Carries two bytes, read one by one, with so many pages.
fn tried_link<R: Threads + Wait + Copy + Send + Abort + 'static>(
    rt: &R,
    scarcity: &mut Scarcity,
    alloc: Global,
    pages: usize,
    words: &Words,
    gate: &Arc<CountingGate>,
) -> Tried {
    let bytes = vec![in alloc; 0x61, 0x62].expect(rt, "memory");
    let reader = MemorySource::new(bytes, 1, None);
    let mut ends = Ends {
        writer: MemorySink::new(alloc, 16, 16, None).expect(rt, "memory"),
        hangup: NoHangup,
    };
    scarcity.leave_pages(alloc, pages).expect(rt, "room");
    let answer = carried(rt, alloc, reader, &mut ends, words, gate);
    scarcity.end();
    tried_of(&answer, ends.writer.bytes())
}

/// Carries a link with little memory. Counts in `reads_refused` a refusal after the reader's thread has read.
fn link<R: Threads + Wait + Copy + Send + Abort + 'static>(
    rt: &R,
    scarcity: &mut Scarcity,
    alloc: Global,
    pages: usize,
    reads_refused: &AtomicU64,
) -> Tried {
    let words = Words::from_list(alloc, &[0]).expect(rt, "memory");
    let gate = Arc::new(alloc, CountingGate::new()).expect(rt, "memory");
    let tried = tried_link(rt, scarcity, alloc, pages, &words, &gate);
    if tried == Tried::NoMemory && 0 < gate.passes() {
        reads_refused.fetch_add(1, Ordering::SeqCst);
    }
    tried
}

/// Carries links with ever more pages, where there are stacks for so many threads, and prints what was refused. Returns the
/// refusals, and how many of them came after a reader's thread had read.
fn carry_behind<R>(rt: &R, threads: usize) -> (Refusals, u64)
where
    R: Threads + Wait + Copy + Send + Sync + AllocGlobal + Abort + Eprint + 'static,
{
    let mut scarcity = with_stacks(rt, rt.alloc(), threads).expect(rt, "memory");
    let reads_refused = AtomicU64::new(0);
    let refusals = carry_all(rt, &mut scarcity, rt.alloc(), &reads_refused);
    let reads_refused = reads_refused.load(Ordering::SeqCst);
    print_refusals(rt, &refusals, reads_refused);
    (refusals, reads_refused)
}

/// Carries links with ever more pages. Counts in `reads_refused` the refusals after a reader's thread has read.
fn carry_all<R: Threads + Wait + Copy + Send + Sync + Abort + 'static>(
    rt: &R,
    scarcity: &mut Scarcity,
    alloc: Global,
    reads_refused: &AtomicU64,
) -> Refusals {
    let refusals = try_each(scarcity, TIMES * PAGES, |scarcity, nth| {
        Ok(link(rt, scarcity, alloc, nth / TIMES, reads_refused))
    });
    let Ok(refusals) = refusals else {
        panic!(rt; "another answer than with ample memory")
    };
    refusals
}

/// Prints how often links were refused, and how many of the refusals came after a reader's thread had read.
fn print_refusals(rt: &(impl Abort + Eprint), refusals: &Refusals, reads_refused: u64) {
    eprintln!(rt; "{refusals:?}, {reads_refused} of reads").expect(rt, "a standard error");
}

#[test]
fn a_link_is_refused_its_thread(rt: HostRuntime) {
    let (refusals, _) = carry_behind(&rt, 0);
    assert!(rt; !refusals.is_answered && 0 < refusals.memory && 0 < refusals.threads);
}

#[test]
fn a_link_is_refused_memory(rt: HostRuntime) {
    let (refusals, reads_refused) = carry_behind(&rt, 1);
    assert!(rt; refusals.is_answered && 0 < refusals.memory && 0 < reads_refused);
}

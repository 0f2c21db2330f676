//! A link core beside `deliver`, on schedules drawn at random.
use crate::comparing::assert_equal_at;
use crate::link::core_case::CoreCase;
use rand_pcg::Lcg64Xsh32;
use std::process::Abort;
use tests_support::{below, drawn_words, table_of};
use tox_compile::{Plan, compile};
use tox_defs::{Chain, read_short};
use tox_link::Act;
use tox_plan::deliver;
use tox_time::{Arrivals, Ending, Micros, Slice, SliceList};
use tox_words::Words;

/// The toxics of drawn chains.
const TOXICS: [&str; 16] = [
    "latency:latency=1",
    "latency:latency=2,jitter=2",
    "bandwidth:rate=2",
    "slow_close:delay=1",
    "timeout:timeout=0",
    "timeout:timeout=9",
    "reset_peer:timeout=4",
    "slicer:average_size=20,size_variation=7,delay=300",
    "limit_data:bytes=90",
    "limit_data:bytes=0",
    "latency:latency=2,until=9,from=3",
    "bandwidth:rate=2,from=2",
    "slicer:average_size=20,size_variation=7,delay=300,from=4",
    "timeout:timeout=9,from=3",
    "timeout:after=50",
    "reset_peer:timeout=4,after=30",
];

/// A chain of at most three toxics.
pub fn drawn_chain(rt: &impl Abort, generator: &mut Lcg64Xsh32) -> Chain {
    let mut chain = Chain::new();
    for _ in 0..below(generator, 4) {
        let drawn = below(generator, 16) as usize;
        let (toxic, toxicity) = read_short(TOXICS[drawn]).expect(rt, "a short form");
        assert!(rt; chain.push(toxic, toxicity).is_ok());
    }
    chain
}

/// A core, what arrived and was accepted, and what it had written.
#[derive(Drop)]
struct Run<'w> {
    case: CoreCase<'w>,
    arrivals: Arrivals,
    slices: SliceList,
}

impl<'w> Run<'w> {
    /// A core at which nothing has arrived.
    fn new(rt: &(impl Abort + AllocGlobal), plan: Plan, words: &'w Words) -> Run<'w> {
        Run {
            case: CoreCase::new(rt, plan, words),
            arrivals: Arrivals::new(rt.alloc()),
            slices: SliceList::new(rt.alloc()),
        }
    }

    /// One drawn event at `now`: a piece, the source's end, or nothing.
    fn hear(&mut self, rt: &impl Abort, generator: &mut Lcg64Xsh32, now: Micros) {
        match below(generator, 12) {
            0..8 if self.case.core.has_room() => {
                let len = u64::from(1 + below(generator, 60));
                self.hear_piece(rt, len, now);
            }
            8 if !self.case.ended => self.hear_end(rt, now),
            _ => {}
        }
    }

    /// A piece. It is an arrival if the core takes it.
    fn hear_piece(&mut self, rt: &impl Abort, len: u64, now: Micros) {
        if self.case.give(rt, len, now).is_ok() {
            self.arrivals.push(len, now).expect(rt, "an arrival");
        }
    }

    /// The source's end.
    fn hear_end(&mut self, rt: &impl Abort, now: Micros) {
        if self.case.core.ending().is_none() {
            self.arrivals.eof(now).expect(rt, "an end");
        }
        self.case.end(rt, now);
    }

    /// Asks the core at `now` until it writes nothing more.
    fn write(&mut self, rt: &impl Abort, now: Micros) -> Act {
        for _ in 0..1000 {
            match self.case.ask(rt, now) {
                Act::Write(slice) => self.keep(rt, slice, now),
                act => return act,
            }
        }
        panic!(rt; "too many slices")
    }

    /// Keeps a slice that the core writes at `now`.
    fn keep(&mut self, rt: &impl Abort, slice: Slice, now: Micros) {
        assert!(rt; slice.instant.get() <= now.get());
        self.slices.push(slice).expect(rt, "memory");
    }

    /// Hears drawn events at drawn instants, and is asked at some of them. Returns the last instant.
    fn drive(&mut self, rt: &impl Abort, generator: &mut Lcg64Xsh32) -> Micros {
        let mut now = Micros::ZERO;
        for _ in 0..below(generator, 30) {
            now = now.after(u64::from(below(generator, 1500)));
            self.hear(rt, generator, now);
            if below(generator, 3) == 0 {
                self.write(rt, now);
            }
        }
        now
    }

    /// Hears and writes what the generator draws. Returns the ending.
    fn finish(&mut self, rt: &impl Abort, generator: &mut Lcg64Xsh32) -> Ending {
        let now = self.drive(rt, generator);
        self.settle(rt, now)
    }

    /// Goes on from `now` until nothing is left to do. Returns the ending.
    fn settle(&mut self, rt: &impl Abort, mut now: Micros) -> Ending {
        for _ in 0..1000 {
            match self.write(rt, now) {
                Act::WaitUntil(instant) => now = instant,
                Act::End(ending) => return ending,
                _ => return Ending::StillOpen,
            }
        }
        panic!(rt; "no end")
    }
}

/// The instant of each byte, in microseconds.
pub fn instants_of(rt: &(impl Abort + AllocGlobal), slices: &SliceList) -> Vec<u64> {
    table_of(rt.alloc(), slices).expect(rt, "memory")
}

/// Compares a core on what a seed draws with what is delivered.
fn compare(rt: &(impl Abort + AllocGlobal), seed: u64) {
    let generator = &mut Lcg64Xsh32::new(seed, 1);
    let chain = drawn_chain(rt, generator);
    let words = drawn_words(rt.alloc(), generator).expect(rt, "words");
    compare_under(rt, generator, &chain, &words, seed);
}

/// Compares a core on what the generator draws with what is delivered under these words.
fn compare_under(
    rt: &(impl Abort + AllocGlobal),
    generator: &mut Lcg64Xsh32,
    chain: &Chain,
    words: &Words,
    seed: u64,
) {
    let mut run = Run::new(rt, compile(chain, words), words);
    let ending = run.finish(rt, generator);
    compare_run(rt, chain, words, &run, &ending, seed);
}

/// Compares a run that ended so with what is delivered of its arrivals.
fn compare_run(
    rt: &(impl Abort + AllocGlobal),
    chain: &Chain,
    words: &Words,
    run: &Run<'_>,
    ending: &Ending,
    seed: u64,
) {
    let outcome = deliver(rt.alloc(), chain, words, &run.arrivals).expect(rt, "an outcome");
    assert_equal_at(rt, ending, &outcome.ending, seed);
    let written = instants_of(rt, &run.slices);
    assert_equal_at(rt, &written, &instants_of(rt, &outcome.slices), seed);
}

#[test]
fn schedules_write_what_is_delivered(rt: HostRuntime) {
    for seed in 0..1000 {
        compare(&rt, seed);
    }
}

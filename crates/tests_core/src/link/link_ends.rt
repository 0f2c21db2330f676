//! What a link is carried with in tests: a clock, notes and ends that remember.
ghost use Rattle.std.specs.Prelude.{Some, None};
ghost use Rattle.tox_time.specs.Time.{IsInstant};

use std::alloc::{AllocError, Global};
use std::process::Abort;
use std::sync::Arc;
use std::sync::atomic::{AtomicBool, AtomicU64, Ordering};
use std::thread;
use tox_link::{Clock, Hangup, LinkEvent, Notes};
use tox_time::{EndFault, Ending, Gate, MemorySink, MemorySource, Micros, Sink, Source};

/// How often a source yields at most until a sink has a byte.
const TURNS: u64 = 1_000_000;

/// A clock that stands at 0, goes to `until` in `rest`, and moves nowhere else.
#[derive(Drop)]
pub struct RestingClock {
    pub micros: Arc<AtomicU64>,
}

impl RestingClock {
    /// A clock at 0.
    pub fn new(rt: &(impl Abort + AllocGlobal)) -> RestingClock {
        let micros = Arc::new(rt.alloc(), AtomicU64::new(0));
        RestingClock {
            micros: micros.expect(rt, "memory"),
        }
    }

    /// Its instant for another owner.
    pub fn share(&self, rt: &impl Abort) -> Arc<AtomicU64> {
        self.micros.clone().expect(rt, "few owners")
    }
}

impl Clock for RestingClock {
    ghost reported = { λ _ instant. IsInstant instant };

    fn now(&self) -> Micros {
        Micros::ZERO.after(self.micros.load(Ordering::SeqCst))
    }

    fn rest(&self, until: Micros) {
        self.micros.store(until.get(), Ordering::SeqCst);
    }

    ghost instants = { λ _ _ reported. reported };
}

/// Notes that keep their events.
#[derive(Drop)]
pub struct Noted {
    pub events: Vec<LinkEvent>,
}

impl Noted {
    pub fn new(alloc: Global) -> Noted {
        Noted {
            events: Vec::new(alloc),
        }
    }
}

impl Notes for Noted {
    ghost events = { λ s. Some s.events.items };

    fn note(&mut self, event: LinkEvent) -> Result<(), AllocError> {
        self.events.extend_from_slice(&[event])
    }
}

/// A gate that moves the clock on by 10 at each message that the writer's side takes.
#[derive(Drop)]
pub struct TickingGate {
    pub micros: Arc<AtomicU64>,
}

impl Gate for TickingGate {
    fn pass(&self, stage: usize, _nth: u64) {
        if stage == 1 {
            self.micros.fetch_add(10, Ordering::SeqCst);
        }
    }
}

/// A sink that looks at the clock at its first write of bytes, and counts them.
#[derive(Drop)]
pub struct WatchingSink {
    pub sink: MemorySink,
    pub micros: Arc<AtomicU64>,
    pub bytes: Arc<AtomicU64>,
    /// The clock at the first write of bytes.
    pub first: Option<u64>,
}

impl Sink for WatchingSink {
    ghost failed = { λ s. s.sink.failed };

    ghost written = { λ s. Some s.sink.bytes };

    fn write(&mut self, bytes: &[u8]) -> Result<usize, EndFault> {
        if self.first.is_none() && !bytes.is_empty() {
            self.first = Some(self.micros.load(Ordering::SeqCst));
        }
        let wrote = self.sink.write(bytes);
        if let Ok(count) = wrote {
            self.bytes.fetch_add(count as u64, Ordering::SeqCst);
        }
        wrote
    }
}

/// A source that yields before its second read until a sink has a byte, if it waits.
#[derive(Drop)]
pub struct WaitingSource {
    pub source: MemorySource,
    pub waits: bool,
    pub bytes: Arc<AtomicU64>,
    pub reads: u64,
    pub missed: Arc<AtomicBool>,
}

impl WaitingSource {
    /// Yields until a sink has a byte.
    fn wait(&self) {
        for _ in 0..TURNS {
            if self.bytes.load(Ordering::SeqCst) != 0 {
                return;
            }
            thread::yield_now();
        }
        self.missed.store(true, Ordering::SeqCst);
    }
}

impl Source for WaitingSource {
    ghost failed = { λ s. s.source.failed };

    ghost remaining = { λ s. Some s.source.bytes };

    fn read(&mut self, buffer: &mut [u8]) -> Result<usize, EndFault> {
        self.reads = self.reads.saturating_add(1);
        if self.waits && self.reads == 2 {
            self.wait();
        }
        self.source.read(buffer)
    }
}

/// Remembers how a link ended, and the clock at that.
#[derive(Drop)]
pub struct HungUp {
    pub calls: u64,
    pub ending: Ending,
    pub source_ended: bool,
    pub micros: Arc<AtomicU64>,
    pub at: u64,
}

impl HungUp {
    pub fn new(micros: Arc<AtomicU64>) -> HungUp {
        HungUp {
            calls: 0,
            ending: Ending::StillOpen,
            source_ended: false,
            micros,
            at: 0,
        }
    }
}

impl Hangup for HungUp {
    ghost calls = { λ _. None };

    fn hang_up(&mut self, ending: Ending, source_ended: bool) {
        self.calls = self.calls.saturating_add(1);
        self.ending = ending;
        self.source_ended = source_ended;
        self.at = self.micros.load(Ordering::SeqCst);
    }
}

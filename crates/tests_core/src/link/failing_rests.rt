//! A link that waits for an instant learns that its writer has failed.
ghost use Rattle.std.specs.Prelude.{◌≡◌, false, None};
ghost use Rattle.tox_time.specs.Time.{IsInstant};

use crate::comparing::assert_equal;
use crate::link::link_ends::HungUp;
use crate::planning::{one_word, plan_of};
use std::process::Abort;
use std::sync::atomic::{AtomicU64, Ordering};
use std::sync::{Arc, Wait};
use std::thread::Threads;
use tox_link::{Clock, Ends, LinkFault, NoNotes, carry};
use tox_time::{EndFault, Ending, MemorySource, Micros, OpenGate, Sink};

/// How far a rest moves the clock on.
const REST: u64 = 1_000;

/// From when on the writer fails.
const FAILS_FROM: u64 = 5_000;

/// A clock that moves on by `REST` at each rest, and nowhere else.
#[derive(Drop)]
struct SlowClock {
    micros: Arc<AtomicU64>,
}

impl SlowClock {
    /// A clock at 0.
    fn new(rt: &(impl Abort + AllocGlobal)) -> SlowClock {
        let micros = Arc::new(rt.alloc(), AtomicU64::new(0));
        SlowClock {
            micros: micros.expect(rt, "memory"),
        }
    }

    /// Its instant for another owner.
    fn share(&self, rt: &impl Abort) -> Arc<AtomicU64> {
        self.micros.clone().expect(rt, "few owners")
    }
}

impl Clock for SlowClock {
    ghost reported = { λ _ instant. IsInstant instant };

    fn now(&self) -> Micros {
        Micros::ZERO.after(self.micros.load(Ordering::SeqCst))
    }

    fn rest(&self, _until: Micros) {
        self.micros.fetch_add(REST, Ordering::SeqCst);
    }

    ghost instants = { λ _ _ reported. reported };
}

/// A writer that takes all bytes, and fails from `FAILS_FROM` on.
#[derive(Drop)]
struct FailingSink {
    micros: Arc<AtomicU64>,
    failed: bool,
}

impl Sink for FailingSink {
    ghost failed = { λ s. s.failed };

    ghost written = { λ _. None };

    fn write(&mut self, bytes: &[u8]) -> Result<usize, EndFault> {
        self.failed = FAILS_FROM <= self.micros.load(Ordering::SeqCst);
        if self.failed {
            return Err(EndFault);
        }
        Ok(bytes.len())
    }
}

/// A far end whose writer fails from `FAILS_FROM` on.
type FailingEnds = Ends<FailingSink, HungUp>;

fn failing_ends(rt: &impl Abort, clock: &SlowClock) -> FailingEnds
    ensures { result.writer.failed ≡ false }
{
    let writer = FailingSink {
        micros: clock.share(rt),
        failed: false,
    };
    let hangup = HungUp::new(clock.share(rt));
    Ends { writer, hangup }
}

/// The fault by which a link of two bytes under these toxics breaks off.
fn fault_of<R>(rt: &R, toxics: &str, clock: &SlowClock, ends: &mut FailingEnds) -> Option<LinkFault>
where
    R: Threads + Wait + Copy + Send + AllocGlobal + Abort + 'static,
    requires { ends.old.writer.failed ≡ false }
{
    let words = one_word(rt);
    let bytes = vec![in rt.alloc(); 0x61, 0x62].expect(rt, "memory");
    let gate = Arc::new(rt.alloc(), OpenGate).expect(rt, "memory");
    match carry(
        rt,
        rt.alloc(),
        MemorySource::new(bytes, 16, None),
        ends,
        clock,
        plan_of(rt, toxics, &words),
        &words,
        10,
        &mut NoNotes,
        &gate,
    ) {
        Ok(_) => None,
        Err(fault) => Some(fault),
    }
}

/// Asserts that a link under these toxics breaks off behind so many bytes once its writer fails.
fn compare<R>(rt: &R, toxics: &str, written: u64)
where
    R: Threads + Wait + Copy + Send + AllocGlobal + Abort + 'static,
{
    let clock = SlowClock::new(rt);
    let mut ends = failing_ends(rt, &clock);
    let fault = fault_of(rt, toxics, &clock, &mut ends);
    let reset = Ending::Reset(Micros::ZERO.after(FAILS_FROM));
    assert_equal(rt, &fault, &Some(LinkFault::WriteFault(written)));
    assert_equal(rt, &ends.hangup.ending, &reset);
    assert_equal(rt, &ends.hangup.at, &FAILS_FROM);
}

#[test]
fn a_link_that_writes_in_an_hour_ends_where_its_writer_fails(rt: HostRuntime) {
    compare(&rt, "latency:latency=3600000", 0);
}

#[test]
fn a_link_that_ends_in_an_hour_ends_where_its_writer_fails(rt: HostRuntime) {
    compare(&rt, "slow_close:delay=3600000", 2);
}

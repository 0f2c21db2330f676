//! Workers of `run_stages`: their items, their rings, and that they run side by side.
ghost use Rattle.std.specs.Prelude.{◌≤◌};

use crate::comparing::assert_equal_at;
use crate::network::gates::Log;
use crate::network::running::{TWO_LATENCIES, compare_singles, outcome_at};
use crate::plan::settings::Setting;
use crate::planning::one_word;
use std::process::Abort;
use std::sync::Wait;
use std::thread::Threads;
use tests_support::{Meeting, bytes_at_zero};
use tox_defs::Lanes;
use tox_runs::read_chain;
use tox_time::{OpenGate, Outcome};

/// A chain of so many latencies of a millisecond as there can be toxics, which one byte meets.
fn thirty_two_latencies(rt: &(impl Abort + AllocGlobal)) -> Setting {
    let toxics = ["latency:latency=1"; 32];
    Setting {
        words: one_word(rt),
        chain: read_chain(Lanes::ThirtyTwo, &toxics).expect(rt, "room"),
        arrivals: bytes_at_zero(rt.alloc(), 1).expect(rt, "memory"),
    }
}

#[test]
fn a_chain_may_have_thirty_two_workers(rt: HostRuntime) {
    let setting = thirty_two_latencies(&rt);
    let outcome = outcome_at(&rt, &setting, 1, &OpenGate);
    compare_singles(&rt, &outcome, 1, 32_000);
}

/// Compares what two latencies deliver over rings of `cap` items, where stage 1 with its first byte and stage 0 with byte
/// `nth` wait for each other. A failure prints `cap`.
fn meet<R: Threads + Wait + Sync + AllocGlobal + Abort>(
    rt: &R,
    toxics: &str,
    arrived: &str,
    cap: usize,
    nth: u64,
) -> Outcome
    requires { (1 ≤ cap) × (cap ≤ 1024) }
{
    let gate = Meeting::new(nth);
    let setting = Setting::read(rt, "0", toxics, arrived);
    let outcome = outcome_at(rt, &setting, cap, &gate);
    assert_equal_at(rt, &gate.met(), &true, cap as u64);
    outcome
}

#[test]
fn two_workers_meet(rt: HostRuntime) {
    let outcome = meet(&rt, TWO_LATENCIES, "1@0 1@0", 1, 1);
    compare_singles(&rt, &outcome, 2, 3000);
}

/// While stage 1 has one item in hand, the ring before it takes as many as it has room for, and stage 0 one more. The
/// toxic between them, which no link meets, has no stage.
#[test]
fn rings_have_their_room(rt: HostRuntime) {
    let toxics = "latency:latency=1 latency:latency=9,toxicity=0 latency:latency=2";
    let arrived = "1@0 1@0 1@0 1@0 1@0";
    compare_singles(&rt, &meet(&rt, toxics, arrived, 1, 2), 5, 3000);
    compare_singles(&rt, &meet(&rt, toxics, arrived, 3, 4), 5, 3000);
}

#[test]
fn each_worker_takes_from_its_own_ring(rt: HostRuntime) {
    let gate = Log::new();
    let setting = Setting::read(&rt, "0", TWO_LATENCIES, "1@0 1@0 1@0 1@0");
    let outcome = outcome_at(&rt, &setting, 1, &gate);
    gate.check(&rt);
    compare_singles(&rt, &outcome, 4, 3000);
}

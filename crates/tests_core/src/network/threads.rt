//! Running stages beside the compiled plan, and their runs from text to text.
ghost use Rattle.std.specs.Prelude.{◌≤◌};

use crate::comparing::{assert_equal, assert_equal_at};
use crate::network::gates::Log;
use crate::network::running::{TWO_LATENCIES, compare_text, outcome_at};
use crate::plan::outcomes::compare_outcomes;
use crate::plan::settings::Setting;
use std::process::Abort;
use std::sync::Wait;
use std::thread::Threads;
use tests_support::Meeting;
use tox_runs::StagesFault;
use tox_stages::StageFault;
use tox_text::DryFault;
use tox_time::{OpenGate, Outcome};

/// What arrives in most cases.
const ARRIVED: &str = "3@0 3@10 1@20000 eof@20005";

/// No toxic, each toxic alone, those that begin later too, and some in a row.
const CASES: &[(&str, &str)] = &[
    ("", "3@0 eof@5"),
    ("latency:latency=1,jitter=1", ARRIVED),
    ("bandwidth:rate=1", ARRIVED),
    ("slow_close:delay=1", ARRIVED),
    ("timeout:timeout=50", ARRIVED),
    ("reset_peer:timeout=20", ARRIVED),
    ("slicer:average_size=2,size_variation=1,delay=10", ARRIVED),
    ("slicer:average_size=2,size_variation=1,delay=10", "5@0"),
    ("limit_data:bytes=4", ARRIVED),
    ("limit_data:bytes=4 latency:latency=1", ARRIVED),
    ("latency:latency=1,jitter=1,from=1", ARRIVED),
    ("latency:latency=10,until=6,from=5", "1@0 1@5000 1@6000"),
    ("bandwidth:rate=1,from=1", ARRIVED),
    (
        "slicer:average_size=2,size_variation=1,delay=10,from=1",
        "2@0 3@1000",
    ),
    ("timeout:timeout=50,from=20", ARRIVED),
    ("timeout:timeout=1,from=2", "2@0 eof@1999"),
    ("timeout:after=4", ARRIVED),
    ("timeout:timeout=5,from=20,after=4", ARRIVED),
    ("reset_peer:timeout=30,after=6", ARRIVED),
    (
        "latency:latency=1,from=1 timeout:from=20 bandwidth:rate=1,from=20",
        ARRIVED,
    ),
    (
        "slicer:average_size=2,delay=10,from=1 reset_peer:timeout=1,after=7 latency:latency=1,from=2",
        ARRIVED,
    ),
    (
        "reset_peer:timeout=9,after=5 timeout:timeout=2,after=4 slicer:average_size=1,delay=1,from=5",
        ARRIVED,
    ),
];

/// Compares what running stages deliver over rings of `cap` items with what the plan does. A failure prints `cap`, and the
/// number of the case in front of it.
fn compare<R: Threads + Wait + Sync + AllocGlobal + Abort>(
    rt: &R,
    setting: &Setting,
    planned: &Outcome,
    cap: usize,
    case: u64,
)
    requires { (1 ≤ cap) × (cap ≤ 1024) }
{
    let running = outcome_at(rt, setting, cap, &OpenGate);
    let number = case.saturating_mul(10_000).saturating_add(cap as u64);
    compare_outcomes(rt, &running, planned, number);
}

/// Compares over rings of one item, of two, and of the most.
fn compare_each<R: Threads + Wait + Sync + AllocGlobal + Abort>(
    rt: &R,
    toxics: &str,
    arrived: &str,
    case: u64,
) {
    let setting = Setting::read(rt, "0,1,2", toxics, arrived);
    let planned = setting.delivered(rt);
    compare(rt, &setting, &planned, 1, case);
    compare(rt, &setting, &planned, 2, case);
    compare(rt, &setting, &planned, 1024, case);
}

#[test]
fn threads_deliver_what_the_plan_does(rt: HostRuntime) {
    for (case, (toxics, arrived)) in CASES.iter().enumerate() {
        compare_each(&rt, toxics, arrived, case as u64);
    }
}

#[test]
fn a_text_runs_in_threads(rt: HostRuntime) {
    let toxics = "limit_data:bytes=4 latency:latency=1";
    let read = "0 data 616263\n10 data 646566\n";
    let want = "1000 0..3 616263\n1010 3..4 64\nclosed 1010\n";
    compare_text(&rt, toxics, read, 1, &OpenGate, &Ok(()), want);
    let fault = Err(StagesFault::Dry(DryFault::BadLine(3)));
    let read = "0 data 61\n\n5 eof 6\n";
    compare_text(&rt, toxics, read, 1, &OpenGate, &fault, "");
}

/// Compares what two latencies make of a text over rings of `cap` items, where stage 1 with its first item and stage 0
/// with item `nth` wait for each other. If they miss each other, a failure prints `cap`.
fn meet<R: Threads + Wait + Sync + AllocGlobal + Abort>(
    rt: &R,
    read: &str,
    cap: usize,
    nth: u64,
    want: &str,
)
    requires { (1 ≤ cap) × (cap ≤ 1024) }
{
    let gate = Meeting::new(nth);
    compare_text(rt, TWO_LATENCIES, read, cap, &gate, &Ok(()), want);
    assert_equal_at(rt, &gate.met(), &true, cap as u64);
}

#[test]
fn workers_of_a_text_meet(rt: HostRuntime) {
    let want = "3000 0..1 61\n3000 1..2 62\nopen\n";
    meet(&rt, "0 data 61\n0 data 62\n", 1, 1, want);
}

#[test]
fn workers_of_a_text_have_rings_of_their_own(rt: HostRuntime) {
    let gate = Log::new();
    let read = "0 data 61\n0 data 62\n0 data 63\n0 data 64\n";
    let want = "3000 0..1 61\n3000 1..2 62\n3000 2..3 63\n3000 3..4 64\nopen\n";
    compare_text(&rt, TWO_LATENCIES, read, 1, &gate, &Ok(()), want);
    gate.check(&rt);
}

/// Stage 0 reaches its fifth item while stage 1 has its first in hand, since the ring between them has room for three.
#[test]
fn rings_of_a_text_have_their_room(rt: HostRuntime) {
    let read = "0 data 61\n0 data 62\n0 data 63\n0 data 64\n0 data 65\n";
    let want = "3000 0..1 61\n3000 1..2 62\n3000 2..3 63\n3000 3..4 64\n3000 4..5 65\nopen\n";
    meet(&rt, read, 3, 4, want);
}

/// Compares the name of a fault.
fn compare_name(rt: &(impl Abort + AllocGlobal), fault: StageFault, name: &str) {
    let text = format!(in rt.alloc(); "{}", StagesFault::Stages(fault)).expect(rt, "memory");
    assert_equal(rt, &text.as_str(), &name);
}

#[test]
fn faults_of_the_stages_have_names(rt: HostRuntime) {
    compare_name(&rt, StageFault::OutOfMemory, "F0 OutOfMemory");
    compare_name(&rt, StageFault::SpawnRefused, "F1 SpawnRefused");
}

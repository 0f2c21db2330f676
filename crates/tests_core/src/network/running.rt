//! Runs of stages in threads.
ghost use Rattle.std.specs.Prelude.{◌≡◌, ◌≤◌, false};

use crate::comparing::assert_equal;
use crate::plan::settings::Setting;
use crate::planning::one_word;
use std::process::Abort;
use std::sync::Wait;
use std::thread::Threads;
use tests_support::{chain_of, slice};
use tox_defs::Chain;
use tox_runs::{StagesFault, stages_run};
use tox_stages::run_stages;
use tox_time::{Ending, Gate, MemorySink, MemorySource, Outcome};

pub const TWO_LATENCIES: &str = "latency:latency=1 latency:latency=2";

/// What running stages deliver over rings of `cap` items.
pub fn outcome_at<R: Threads + Wait + Sync + AllocGlobal + Abort>(
    rt: &R,
    setting: &Setting,
    cap: usize,
    gate: &impl Gate,
) -> Outcome
    requires { (1 ≤ cap) × (cap ≤ 1024) }
{
    run_stages(
        rt,
        rt.alloc(),
        &setting.chain,
        &setting.words,
        &setting.arrivals,
        cap,
        gate,
    )
    .expect(rt, "memory and threads")
}

/// Compares with so many slices of one byte, all at this instant, and no end.
pub fn compare_singles(
    rt: &(impl Abort + AllocGlobal),
    outcome: &Outcome,
    bytes: u64,
    micros: u64,
) {
    let mut expected = Vec::new(rt.alloc());
    for start in 0..bytes {
        let single = slice(start, start + 1, micros);
        expected.push(single).expect(rt, "memory");
    }
    assert_equal(rt, &outcome.slices.as_slice(), &expected.as_slice());
    assert_equal(rt, &outcome.ending, &Ending::StillOpen);
}

/// Compares what `stages_run` answers and writes of a text over rings of `cap` items.
pub fn compare_text<R: Threads + Wait + Sync + AllocGlobal + Abort>(
    rt: &R,
    toxics: &str,
    read: &str,
    cap: usize,
    gate: &impl Gate,
    answer: &Result<(), StagesFault>,
    written: &str,
)
    requires { (1 ≤ cap) × (cap ≤ 1024) }
{
    let chain = chain_of(toxics).expect(rt, "short forms");
    let mut writer = MemorySink::new(rt.alloc(), 100, 7, None).expect(rt, "memory");
    let ran = run_into(rt, &chain, read, cap, gate, &mut writer);
    assert_equal(rt, &ran, answer);
    let text = String::from_utf8_lossy(rt.alloc(), writer.bytes()).expect(rt, "memory");
    assert_equal(rt, &text.as_str(), &written);
}

/// What `stages_run` answers over rings of `cap` items. It writes into the sink.
fn run_into<R: Threads + Wait + Sync + AllocGlobal + Abort>(
    rt: &R,
    chain: &Chain,
    read: &str,
    cap: usize,
    gate: &impl Gate,
    writer: &mut MemorySink,
) -> Result<(), StagesFault>
    requires room { (1 ≤ cap) × (cap ≤ 1024) }
    requires works { writer.old.failed ≡ false }
{
    let words = one_word(rt);
    let bytes = read.as_bytes().to_vec(rt.alloc()).expect(rt, "memory");
    let mut reader = MemorySource::new(bytes, 7, None);
    stages_run(
        rt,
        rt.alloc(),
        &mut reader,
        writer,
        chain,
        &words,
        cap,
        gate,
    )
}

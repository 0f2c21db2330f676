//! Running stages, with too little memory and too few threads.
ghost use Rattle.std.specs.Prelude.{◌≡◌, false};

use crate::comparing::assert_equal;
use crate::network::running::{TWO_LATENCIES, compare_singles};
use crate::plan::demands::demand;
use crate::plan::settings::Setting;
use std::process::Abort;
use std::sync::Wait;
use std::test::Fail;
use std::thread::Threads;
use tests_support::{CountingGate, Refusals, Scarcity, Tried, try_each, with_stacks};
use tox_runs::{StagesFault, stages_run};
use tox_stages::{StageFault, run_stages};
use tox_text::DryFault;
use tox_time::{MemorySink, MemorySource, Outcome};

const TEXT: &str = "0 data 61\n0 data 62\n";

const RESULT: &str = "3000 0..1 61\n3000 1..2 62\nopen\n";

/// The room of each ring, in items.
const CAP: usize = 1024;

/// At least so many pages lie in the three rings of two stages.
const RING_PAGES: usize = 3 * 6;

/// More pages than running stages need.
const PAGES: usize = 90;

/// What two stages work on: two bytes as arrivals, or as a text.
#[derive(Clone, Copy)]
enum Input {
    Arrivals,
    Text,
}

/// What running stages answered to the two bytes. An outcome has both late, and no end.
fn tried_of(rt: &(impl Abort + AllocGlobal), answer: &Result<Outcome, StageFault>) -> Tried {
    match answer {
        Ok(outcome) => {
            compare_singles(rt, outcome, 2, 3000);
            Tried::Answered
        }
        Err(StageFault::OutOfMemory) => Tried::NoMemory,
        Err(StageFault::SpawnRefused) => Tried::NoThread,
    }
}

/// What running stages answered to the text.
fn text_tried(answer: &Result<(), StagesFault>) -> Tried {
    match answer {
        Ok(()) => Tried::Answered,
        Err(
            StagesFault::Dry(DryFault::OutOfMemory) | StagesFault::Stages(StageFault::OutOfMemory),
        ) => Tried::NoMemory,
        Err(StagesFault::Stages(StageFault::SpawnRefused)) => Tried::NoThread,
        Err(StagesFault::Dry(_)) => Tried::Wrong,
    }
}

/// Running stages with the memory that is left.
fn run_arrivals<R: Threads + Wait + Sync + AllocGlobal>(
    rt: &R,
    setting: &Setting,
    gate: &CountingGate,
) -> Result<Outcome, StageFault> {
    run_stages(
        rt,
        rt.alloc(),
        &setting.chain,
        &setting.words,
        &setting.arrivals,
        CAP,
        gate,
    )
}

/// The same from text to text.
fn run_text<R: Threads + Wait + Sync + AllocGlobal>(
    rt: &R,
    setting: &Setting,
    gate: &CountingGate,
    reader: &mut MemorySource,
    writer: &mut MemorySink,
) -> Result<(), StagesFault>
    requires reads { reader.old.failed ≡ false }
    requires works { writer.old.failed ≡ false }
{
    let (chain, words) = (&setting.chain, &setting.words);
    stages_run(rt, rt.alloc(), reader, writer, chain, words, CAP, gate)
}

/// Wrong if the gate was passed after the answer.
fn settled(gate: &CountingGate, passes: u64, tried: Tried) -> Tried {
    if gate.passes() == passes {
        tried
    } else {
        Tried::Wrong
    }
}

/// Running stages with so many pages of memory. Nobody passes the gate once they have answered.
fn try_arrivals<R: Threads + Wait + Sync + AllocGlobal + Abort>(
    rt: &R,
    scarcity: &mut Scarcity,
    setting: &Setting,
    pages: usize,
) -> Tried {
    let gate = CountingGate::new();
    scarcity.leave_pages(rt.alloc(), pages).expect(rt, "pages");
    let answer = run_arrivals(rt, setting, &gate);
    let passes = gate.passes();
    scarcity.end();
    settled(&gate, passes, tried_of(rt, &answer))
}

/// The same from text to text. Nothing is written after a refusal.
fn try_text<R: Threads + Wait + Sync + AllocGlobal + Abort>(
    rt: &R,
    scarcity: &mut Scarcity,
    setting: &Setting,
    pages: usize,
) -> Tried {
    let text = TEXT.as_bytes().to_vec(rt.alloc()).expect(rt, "memory");
    let mut reader = MemorySource::new(text, 64, None);
    let mut writer = MemorySink::new(rt.alloc(), 100, 64, None).expect(rt, "memory");
    let gate = CountingGate::new();
    scarcity.leave_pages(rt.alloc(), pages).expect(rt, "pages");
    let answer = run_text(rt, setting, &gate, &mut reader, &mut writer);
    let passes = gate.passes();
    scarcity.end();
    settled(&gate, passes, text_tried(&answer)).writing(writer.bytes(), RESULT)
}

/// Running stages with so many pages of memory.
fn try_input<R: Threads + Wait + Sync + AllocGlobal + Abort>(
    rt: &R,
    scarcity: &mut Scarcity,
    setting: &Setting,
    pages: usize,
    input: Input,
) -> Tried {
    match input {
        Input::Arrivals => try_arrivals(rt, scarcity, setting, pages),
        Input::Text => try_text(rt, scarcity, setting, pages),
    }
}

/// Runs two stages with ever more memory, where there are stacks for so many threads.
fn refusals_of<R: Threads + Wait + Sync + AllocGlobal + Abort>(
    rt: &R,
    input: Input,
    threads: usize,
) -> Result<Refusals, Fail> {
    let setting = Setting::read(rt, "0", TWO_LATENCIES, "1@0 1@0");
    let mut scarcity = with_stacks(rt, rt.alloc(), threads).expect(rt, "stacks");
    try_each(&mut scarcity, PAGES, |scarcity, pages| {
        Ok(try_input(rt, scarcity, &setting, pages, input))
    })
}

/// Prints and compares what two stages were refused where there are stacks for so many threads: memory, and a thread in the
/// end if there are fewer than two; otherwise memory for each page of the rings, and nothing in the end.
fn compare<R: Threads + Wait + Sync + AllocGlobal + Abort + Eprint>(
    rt: &R,
    input: Input,
    threads: usize,
) -> Result<(), Fail> {
    let refusals = refusals_of(rt, input, threads)?;
    eprintln!(rt; "{refusals:?}").expect(rt, "standard error");
    let (fewest, last) = if threads < 2 {
        (0, Tried::NoThread)
    } else {
        (RING_PAGES, Tried::Answered)
    };
    demand(rt, fewest < refusals.memory);
    assert_equal(rt, &refusals.last, &Some(last));
    Ok(())
}

#[test]
fn running_stages_are_refused_each_thread(rt: HostRuntime) -> Result<(), Fail> {
    compare(&rt, Input::Arrivals, 0)
}

#[test]
fn running_stages_are_refused_the_second_thread(rt: HostRuntime) -> Result<(), Fail> {
    compare(&rt, Input::Arrivals, 1)
}

#[test]
fn running_stages_are_refused_memory(rt: HostRuntime) -> Result<(), Fail> {
    compare(&rt, Input::Arrivals, 2)
}

#[test]
fn a_text_in_threads_is_refused_the_second_thread(rt: HostRuntime) -> Result<(), Fail> {
    compare(&rt, Input::Text, 1)
}

#[test]
fn a_text_in_threads_is_refused_memory(rt: HostRuntime) -> Result<(), Fail> {
    compare(&rt, Input::Text, 2)
}

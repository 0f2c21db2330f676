//! A runner, call by call.
ghost use Rattle.std.specs.Prelude.{◌≡◌};

use crate::comparing::assert_equal_at;
use crate::end::End;
use crate::plan::demands::demand;
use crate::planning::{plan_of, words_of};
use std::process::Abort;
use tests_support::{at, slice};
use tox_plan::Runner;
use tox_time::{ArrivalFault, Ending, Slice};
use tox_words::Words;

/// A call of a runner, and what it answers. Instants are in microseconds.
pub enum Step {
    /// An idle runner is offered so many bytes at an instant.
    Offer(u64, u64, Result<(), ArrivalFault>),
    /// The next slice has this start, stop and instant.
    Gives(u64, u64, u64),
    GivesNothing,
    /// Whether it is idle.
    Idle(bool),
    /// How it ends, where it is known.
    Ending(Option<End>),
    /// The source of an idle runner ends at an instant, and the link in this way.
    Finish(u64, End),
    /// The source of an idle runner stays quiet. The link stays open.
    Quiet,
    Counts(Count, u64),
}

/// What a runner counts, and its latest instant.
pub enum Count {
    Cuts,
    Pieces,
    Turns,
    Latest,
}

/// A runner of these toxics that was offered nothing yet.
pub fn runner_of<'w>(rt: &impl Abort, toxics: &str, words: &'w Words) -> Runner<'w>
    ensures { result.piece.span.stop ≡ 0 }
{
    Runner::new(plan_of(rt, toxics, words), words)
}

/// Compares how an idle runner answers an offer.
fn answers(
    rt: &impl Abort,
    runner: &mut Runner<'_>,
    len: u64,
    micros: u64,
    answer: &Result<(), ArrivalFault>,
    number: u64,
) {
    demand(rt, runner.is_idle());
    assert_equal_at(rt, &runner.offer(len, at(micros)), answer, number);
}

/// Compares the next slice.
fn gives(rt: &impl Abort, runner: &mut Runner<'_>, slice: Option<Slice>, number: u64) {
    assert_equal_at(rt, &runner.next_cut(), &slice, number);
}

/// Compares how it ends, where it is known.
fn compare_ending(rt: &impl Abort, runner: &Runner<'_>, last: &Option<End>, number: u64) {
    let ending = match last {
        Some(last) => Some(last.ending()),
        None => None,
    };
    assert_equal_at(rt, &runner.ending(), &ending, number);
}

/// Compares the ending of an idle runner whose source ends.
fn finishes(rt: &impl Abort, runner: &mut Runner<'_>, micros: u64, last: &End, number: u64) {
    let end = at(micros);
    demand(rt, runner.is_idle());
    demand(rt, runner.latest() <= end);
    assert_equal_at(rt, &runner.finish(end), &last.ending(), number);
}

/// Compares the ending of an idle runner whose source stays quiet.
fn stays_open(rt: &impl Abort, runner: &mut Runner<'_>, number: u64) {
    demand(rt, runner.is_idle());
    assert_equal_at(rt, &runner.quiet(), &Ending::StillOpen, number);
}

fn count_of(runner: &Runner<'_>, count: &Count) -> u64 {
    match count {
        Count::Cuts => runner.cuts(),
        Count::Pieces => runner.pieces(),
        Count::Turns => runner.turns(),
        Count::Latest => runner.latest().get(),
    }
}

/// Makes the step of this number.
fn make_step(rt: &impl Abort, runner: &mut Runner<'_>, step: &Step, number: u64) {
    match step {
        Step::Offer(len, micros, answer) => answers(rt, runner, *len, *micros, answer, number),
        Step::Gives(start, stop, micros) => {
            gives(rt, runner, Some(slice(*start, *stop, *micros)), number);
        }
        Step::GivesNothing => gives(rt, runner, None, number),
        Step::Idle(idle) => assert_equal_at(rt, &runner.is_idle(), idle, number),
        Step::Ending(last) => compare_ending(rt, runner, last, number),
        Step::Finish(end, last) => finishes(rt, runner, *end, last, number),
        Step::Quiet => stays_open(rt, runner, number),
        Step::Counts(count, want) => assert_equal_at(rt, &count_of(runner, count), want, number),
    }
}

/// Makes these steps with a runner. A failure prints the number of its step, counted from 0.
pub fn make_steps(rt: &impl Abort, runner: &mut Runner<'_>, steps: &[Step]) {
    for (number, step) in steps.iter().enumerate() {
        make_step(rt, runner, step, number as u64);
    }
}

/// Makes these steps with a runner of these toxics under these words.
fn follow(rt: &(impl Abort + AllocGlobal), toxics: &str, words: &[u32], steps: &[Step]) {
    let words = words_of(rt, words);
    let mut runner = runner_of(rt, toxics, &words);
    make_steps(rt, &mut runner, steps);
}

const LIMIT: &[Step] = &[
    Step::Offer(1, 5, Ok(())),
    Step::Gives(0, 1, 5),
    Step::Ending(None),
    Step::GivesNothing,
    Step::Ending(Some(End::Closed(5))),
    Step::Offer(1, 5, Err(ArrivalFault::AfterEnd)),
    Step::Counts(Count::Cuts, 1),
    Step::Counts(Count::Pieces, 1),
    Step::Counts(Count::Latest, 5),
];

#[test]
fn a_limit_ends_the_link(rt: HostRuntime) {
    follow(&rt, "limit_data:bytes=1", &[0], LIMIT);
}

const LATENCY: &[Step] = &[
    Step::Offer(2, 5, Ok(())),
    Step::Gives(0, 2, 1005),
    Step::GivesNothing,
    Step::Offer(2, 4, Err(ArrivalFault::TimeBack)),
    Step::Finish(9, End::Closed(1005)),
    Step::Ending(Some(End::Closed(1005))),
    Step::Offer(1, 8, Err(ArrivalFault::TimeBack)),
    Step::Counts(Count::Turns, 1),
];

#[test]
fn a_runner_goes_on_until_its_source_ends(rt: HostRuntime) {
    follow(&rt, "latency:latency=1", &[0], LATENCY);
}

const SLICER: &[Step] = &[
    Step::Offer(5, 0, Ok(())),
    Step::Gives(0, 5, 0),
    Step::Counts(Count::Cuts, 2),
    Step::GivesNothing,
];

#[test]
fn neighbours_of_one_instant_are_one_slice(rt: HostRuntime) {
    let slicer = "slicer:average_size=2,size_variation=1";
    follow(&rt, slicer, &[0, 1, 2], SLICER);
}

const CUTOFF: &[Step] = &[
    Step::Offer(1, 20000, Ok(())),
    Step::GivesNothing,
    Step::Ending(Some(End::Reset(20000))),
    Step::Offer(1, 20001, Err(ArrivalFault::AfterEnd)),
];

#[test]
fn a_cutoff_is_remembered_once_its_piece_is_read(rt: HostRuntime) {
    follow(&rt, "reset_peer:timeout=20", &[0], CUTOFF);
}

const CUTOFF_AT_THE_START: &[Step] = &[
    Step::Ending(None),
    Step::Offer(1, 0, Ok(())),
    Step::GivesNothing,
    Step::Ending(Some(End::Reset(0))),
];

#[test]
fn a_cutoff_at_the_start_waits_for_a_piece(rt: HostRuntime) {
    follow(&rt, "reset_peer:timeout=0", &[0], CUTOFF_AT_THE_START);
}

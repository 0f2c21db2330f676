//! A link core, call by call.
use crate::comparing::assert_equal_at;
use crate::end::End;
use crate::link::core_case::CoreCase;
use crate::planning::{one_word, plan_of};
use std::process::Abort;
use tests_support::{at, slice};
use tox_link::{Act, LinkCore};
use tox_time::ArrivalFault;

/// What a core answers.
enum Answer {
    /// It writes the bytes from the first number to the second, which leave at an instant.
    Write(u64, u64, u64),
    WaitUntil(u64),
    WaitForInput,
    End(End),
}

impl Answer {
    fn act(&self) -> Act {
        match self {
            Answer::Write(start, stop, micros) => Act::Write(slice(*start, *stop, *micros)),
            Answer::WaitUntil(micros) => Act::WaitUntil(at(*micros)),
            Answer::WaitForInput => Act::WaitForInput,
            Answer::End(end) => Act::End(end.ending()),
        }
    }
}

/// A call of a core, or a look at it.
enum Step {
    /// A piece of so many bytes comes at an instant.
    Piece(u64, u64, Result<(), ArrivalFault>),
    /// The core is asked at an instant.
    Ask(u64, Answer),
    /// The source ends at an instant.
    SourceEnd(u64),
    /// The last instant handed in, and the ending once it is known.
    State(u64, Option<End>),
}

/// Calls a core under these toxics as the steps say. A difference names the step by its number.
fn follow(rt: &(impl Abort + AllocGlobal), toxics: &str, steps: &[Step]) {
    let words = one_word(rt);
    let plan = plan_of(rt, toxics, &words);
    take_all(rt, &mut CoreCase::new(rt, plan, &words), steps);
}

fn take_all(rt: &impl Abort, case: &mut CoreCase<'_>, steps: &[Step]) {
    for (nth, step) in steps.iter().enumerate() {
        take(rt, case, step, nth as u64);
    }
}

fn take(rt: &impl Abort, case: &mut CoreCase<'_>, step: &Step, nth: u64) {
    match step {
        Step::Piece(len, micros, answer) => {
            assert_equal_at(rt, &case.give(rt, *len, at(*micros)), answer, nth);
        }
        Step::Ask(micros, answer) => {
            assert_equal_at(rt, &case.ask(rt, at(*micros)), &answer.act(), nth);
        }
        Step::SourceEnd(micros) => case.end(rt, at(*micros)),
        Step::State(latest, end) => compare_state(rt, &case.core, *latest, *end, nth),
    }
}

fn compare_state(rt: &impl Abort, core: &LinkCore<'_>, latest: u64, end: Option<End>, nth: u64) {
    let state = (core.latest(), core.ending());
    assert_equal_at(rt, &state, &(at(latest), end.map(End::ending)), nth);
}

/// A piece comes at 0 and leaves after a millisecond, and then the source ends.
const LATENCY: &[Step] = &[
    Step::State(0, None),
    Step::Piece(2, 0, Ok(())),
    Step::Ask(0, Answer::WaitUntil(1000)),
    Step::Ask(1000, Answer::Write(0, 2, 1000)),
    Step::Ask(1000, Answer::WaitForInput),
    Step::State(1000, None),
    Step::SourceEnd(1500),
    Step::State(1500, Some(End::Closed(1500))),
    Step::Ask(1500, Answer::End(End::Closed(1500))),
    Step::State(1500, Some(End::Closed(1500))),
];

#[test]
fn latency_waits_writes_and_closes(rt: HostRuntime) {
    follow(&rt, "latency:latency=1", LATENCY);
}

/// A piece comes right before the deadline, and another one after it.
const RESET: &[Step] = &[
    Step::Ask(5, Answer::WaitUntil(20_000)),
    Step::Piece(0, 19_999, Err(ArrivalFault::EmptyPiece)),
    Step::Piece(1, 19_999, Ok(())),
    Step::Ask(20_000, Answer::Write(0, 1, 19_999)),
    Step::Ask(20_000, Answer::End(End::Reset(20_000))),
    Step::Piece(1, 20_001, Err(ArrivalFault::AfterEnd)),
];

#[test]
fn a_reset_comes_at_its_deadline(rt: HostRuntime) {
    follow(&rt, "reset_peer:timeout=20", RESET);
}

/// A piece comes before the timeout begins, and another one after that.
const HALT: &[Step] = &[
    Step::Piece(2, 0, Ok(())),
    Step::Ask(0, Answer::Write(0, 2, 0)),
    Step::Ask(0, Answer::WaitUntil(2000)),
    Step::Ask(2000, Answer::WaitUntil(5000)),
    Step::Piece(1, 2500, Err(ArrivalFault::AfterEnd)),
    Step::Ask(5000, Answer::End(End::Closed(5000))),
];

#[test]
fn a_later_timeout_waits_and_closes(rt: HostRuntime) {
    follow(&rt, "timeout:timeout=5,from=2", HALT);
}

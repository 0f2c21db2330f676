//! What a stage may take. What each toxic's stage gives is among the worked cases of `plan/cases.rt`.
use crate::comparing::assert_equal_at;
use crate::plan::demands::demand;
use crate::plan::staged::stage_of;
use crate::planning::one_word;
use std::process::Abort;
use tests_support::at;
use tox_defs::{Stage, Toxic};
use tox_time::{Item, Span};
use tox_words::Lanes;

/// Start and stop of a chunk, its instant in microseconds, and whether a new stage may take it.
const CHUNKS: &[(u64, u64, u64, bool)] = &[
    (1, 2, 0, false),
    (0, 0, 0, false),
    (0, 1_099_511_627_776, 5, true),
    (0, 1_099_511_627_777, 5, false),
];

/// Compares whether a stage may take each chunk. It may take a `Quiet`.
fn compare(rt: &impl Abort, stage: &Stage<'_>) {
    for (number, (start, stop, micros, fits)) in CHUNKS.iter().enumerate() {
        let span = Span {
            start: *start,
            stop: *stop,
        };
        let chunk = Item::Chunk(span, at(*micros));
        assert_equal_at(rt, &stage.may_take(&chunk), fits, number as u64);
    }
    demand(rt, stage.may_take(&Item::Quiet));
}

#[test]
fn a_new_stage_takes_what_begins_a_stream(rt: HostRuntime) {
    let words = one_word(&rt);
    let toxic = Toxic::SlowClose { delay: 0 };
    let stage = stage_of(&rt, toxic, Lanes::ThirtyTwo, 31, &words);
    compare(&rt, &stage);
}

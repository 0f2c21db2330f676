//! Comparing what links deliver.
use crate::comparing::assert_equal_at;
use std::process::Abort;
use tests_support::table_of;
use tox_time::Outcome;

/// Compares in one of many cases, whose number a failure prints, when each byte was delivered, and the endings.
pub fn compare_outcomes(
    rt: &(impl Abort + AllocGlobal),
    outcome: &Outcome,
    expected: &Outcome,
    case: u64,
) {
    let table = table_of(rt.alloc(), &outcome.slices).expect(rt, "memory");
    let due = table_of(rt.alloc(), &expected.slices).expect(rt, "memory");
    assert_equal_at(rt, &table, &due, case);
    assert_equal_at(rt, &outcome.ending, &expected.ending, case);
}

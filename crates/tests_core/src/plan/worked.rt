//! Worked cases, by the compiled plan and by the stages.
use crate::comparing::assert_equal_at;
use crate::plan::cases::{CASES, Case};
use crate::plan::later_cases::LATER_CASES;
use crate::plan::outcomes::compare_outcomes;
use crate::plan::settings::Setting;
use crate::plan::staged::{outcome_of, staged_items};
use std::process::Abort;
use tests_support::arrivals_of;
use tox_time::Item;

/// The items that the stages of a case give.
fn expected_items(rt: &(impl Abort + AllocGlobal), case: &Case) -> Vec<Item> {
    let chunks = arrivals_of(rt.alloc(), case.chunks).expect(rt, "chunks");
    let mut items = chunks.items().to_vec(rt.alloc()).expect(rt, "memory");
    items
        .push(case.last.ending().to_item())
        .expect(rt, "memory");
    items
}

/// Compares item by item what the stages give in the case of this number, and byte by byte what the compiled plan delivers.
fn compare(rt: &(impl Abort + AllocGlobal), case: &Case, number: u64) {
    let setting = Setting::read(rt, case.words, case.toxics, case.arrived);
    let expected = expected_items(rt, case);
    assert_equal_at(rt, &staged_items(rt, &setting), &expected, number);
    let outcome = outcome_of(rt, &expected);
    compare_outcomes(rt, &setting.delivered(rt), &outcome, number);
}

#[test]
fn plan_and_stages_give_the_worked_cases(rt: HostRuntime) {
    for (number, case) in CASES.iter().enumerate() {
        compare(&rt, case, number as u64);
    }
}

#[test]
fn plan_and_stages_give_the_later_cases(rt: HostRuntime) {
    for (number, case) in LATER_CASES.iter().enumerate() {
        compare(&rt, case, number as u64);
    }
}

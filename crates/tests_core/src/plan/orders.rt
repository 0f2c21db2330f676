//! The stage network, settled in drawn orders, beside the compiled plan.
ghost use Rattle.std.specs.Prelude.{◌≤◌};

use crate::plan::cases::{CASES, Case};
use crate::plan::outcomes::compare_outcomes;
use crate::plan::settings::Setting;
use rand_pcg::Lcg64Xsh32;
use std::process::Abort;
use tests_support::below;
use tox_network::{Move, Network};
use tox_time::Outcome;

/// How many moves are listed; where not all of a run's are, `possible` has the rest.
const LISTED: usize = 40;

/// How many lists each case settles with.
const LISTS: u64 = 100;

/// A move of a network of at most two stages, possible or not.
fn drawn_move(generator: &mut Lcg64Xsh32) -> Move {
    let stage = below(generator, 2) as usize;
    match below(generator, 4) {
        0 => Move::Arrive,
        1 => Move::Take(stage),
        2 => Move::Put(stage),
        _ => Move::Deliver,
    }
}

/// A list of drawn moves.
fn drawn_moves(generator: &mut Lcg64Xsh32) -> [Move; LISTED] {
    let mut moves = [Move::Arrive; LISTED];
    for next in moves.iter_mut() {
        *next = drawn_move(generator);
    }
    moves
}

/// What a network delivered that was settled by a drawn list.
fn settled(
    rt: &(impl Abort + AllocGlobal),
    setting: &Setting,
    cap: usize,
    generator: &mut Lcg64Xsh32,
) -> Outcome
    requires { (1 ≤ cap) × (cap ≤ 1024) }
{
    let moves = drawn_moves(generator);
    let mut network = Network::new(
        rt.alloc(),
        &setting.chain,
        &setting.words,
        &setting.arrivals,
        cap,
    )
    .expect(rt, "memory");
    network.settle(&moves).expect(rt, "memory");
    network.outcome()
}

/// Compares networks with queues of `cap` items, each settled by a list of its own, with the compiled plan.
fn compare(rt: &(impl Abort + AllocGlobal), setting: &Setting, delivered: &Outcome, cap: usize)
    requires { (1 ≤ cap) × (cap ≤ 1024) }
{
    let generator = &mut Lcg64Xsh32::new(cap as u64, 1);
    for list in 0..LISTS {
        let outcome = settled(rt, setting, cap, generator);
        compare_outcomes(rt, &outcome, delivered, list);
    }
}

/// Compares a case with little room and with ample room.
fn compare_rooms(rt: &(impl Abort + AllocGlobal), case: &Case) {
    let setting = Setting::read(rt, case.words, case.toxics, case.arrived);
    let delivered = setting.delivered(rt);
    compare(rt, &setting, &delivered, 1);
    compare(rt, &setting, &delivered, 2);
    compare(rt, &setting, &delivered, 1024);
}

#[test]
fn drawn_orders_and_the_plan_agree(rt: HostRuntime) {
    for case in CASES {
        compare_rooms(&rt, case);
    }
}

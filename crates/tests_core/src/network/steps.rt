//! The stage network, move by move and settled in several orders.
ghost use Rattle.std.specs.Prelude.{◌≤◌};

use crate::comparing::{assert_equal, assert_equal_at};
use crate::plan::settings::Setting;
use std::process::Abort;
use tests_support::{at, slice};
use tox_network::{Move, Network, StepFault};
use tox_time::{Ending, Outcome};

/// A network in a setting, with queues of `cap` items.
fn network_of<'a>(rt: &(impl Abort + AllocGlobal), setting: &'a Setting, cap: usize) -> Network<'a>
    requires { (1 ≤ cap) × (cap ≤ 1024) }
{
    Network::new(
        rt.alloc(),
        &setting.chain,
        &setting.words,
        &setting.arrivals,
        cap,
    )
    .expect(rt, "memory")
}

/// Settles a network that begins with these moves, and compares how many it makes in all and what it delivers: the first
/// byte, a millisecond late.
fn settle(
    rt: &impl Abort,
    mut network: Network<'_>,
    moves: &[Move],
    steps: u64,
    ending: Ending,
    number: u64,
) {
    network.settle(moves).expect(rt, "memory");
    assert_equal_at(rt, &network.steps(), &steps, number);
    assert_equal_at(rt, &network.possible(), &None, number);
    compare(rt, &network.outcome(), ending, number);
}

/// Compares with the one slice that the chains here deliver.
fn compare(rt: &impl Abort, outcome: &Outcome, ending: Ending, number: u64) {
    let late = slice(0, 1, 1000);
    assert_equal_at(rt, &outcome.slices.as_slice(), &[late].as_slice(), number);
    assert_equal_at(rt, &outcome.ending, &ending, number);
}

/// The first moves of a byte through one stage, and others that are not possible.
const FIRST_MOVES: &[(Move, Result<(), StepFault>)] = &[
    (Move::Deliver, Err(StepFault::NotPossible)),
    (Move::Arrive, Ok(())),
    (Move::Arrive, Err(StepFault::NotPossible)),
    (Move::Take(0), Ok(())),
    (Move::Arrive, Ok(())),
    (Move::Take(0), Err(StepFault::NotPossible)),
    (Move::Put(0), Ok(())),
    (Move::Put(0), Err(StepFault::NotPossible)),
    (Move::Take(0), Ok(())),
    (Move::Put(0), Err(StepFault::NotPossible)),
    (Move::Take(1), Err(StepFault::NotPossible)),
];

/// Makes the first moves.
fn make_moves(rt: &impl Abort, network: &mut Network<'_>) {
    for (number, (next, answer)) in FIRST_MOVES.iter().enumerate() {
        assert_equal_at(rt, &network.step(*next), answer, number as u64);
    }
    assert_equal(rt, &network.possible(), &Some(Move::Deliver));
}

#[test]
fn network_moves_one_item_at_a_time(rt: HostRuntime) {
    let setting = Setting::read(&rt, "0", "latency:latency=1", "1@0");
    let mut network = network_of(&rt, &setting, 1);
    make_moves(&rt, &mut network);
    settle(&rt, network, &[], 8, Ending::StillOpen, 1);
}

/// Orders to settle in: the default one, one that lets all arrive first, and one from the output back.
const ORDERS: &[&[Move]] = &[
    &[],
    &[Move::Arrive, Move::Arrive, Move::Arrive, Move::Take(0)],
    &[Move::Deliver, Move::Put(1), Move::Take(1), Move::Take(0)],
];

/// Settles networks of a chain that drops the second byte in each order, which takes 14 moves. A failure prints the room of
/// the queues, and the number of the order in front of it.
fn settle_at(rt: &(impl Abort + AllocGlobal), setting: &Setting, cap: usize)
    requires { (1 ≤ cap) × (cap ≤ 1024) }
{
    let mut number = cap as u64;
    for moves in ORDERS {
        let network = network_of(rt, setting, cap);
        settle(rt, network, moves, 14, Ending::Closed(at(1000)), number);
        number = number.saturating_add(10_000);
    }
}

#[test]
fn network_settles_the_same_in_any_order(rt: HostRuntime) {
    let setting = Setting::read(&rt, "0", "limit_data:bytes=1 latency:latency=1", "1@0 1@0");
    settle_at(&rt, &setting, 1);
    settle_at(&rt, &setting, 2);
    settle_at(&rt, &setting, 1024);
}

//! Chains made from short forms.
ghost use Rattle.std.specs.Prelude.{◌≤◌};

use crate::comparing::{assert_equal, assert_equal_at};
use std::process::Abort;
use tox_defs::{Chain, Lanes, TooManyToxics, Toxic};
use tox_proxy::{ToxicsFault, read_chain};

/// What the chains here are filled with.
const TOXIC: Toxic = Toxic::LimitData { bytes: 5 };

/// Fills an empty chain that has room for so many toxics.
fn fill(rt: &impl Abort, chain: &mut Chain, most: u16)
    requires { most ≤ 32 }
{
    assert!(rt; TOXIC.check().is_ok());
    assert_equal(rt, &chain.is_empty(), &true);
    for toxicity in 0..most {
        assert_equal_at(rt, &chain.is_full(), &false, &toxicity);
        assert_equal_at(rt, &chain.push(TOXIC, toxicity), &Ok(()), &toxicity);
    }
    assert_equal(rt, &chain.is_full(), &true);
}

/// Fills a new chain, and compares it. It takes no other toxic.
fn has_room_for(rt: &impl Abort, chain: &mut Chain, most: u16)
    requires { (16 ≤ most) × (most ≤ 32) }
{
    fill(rt, chain, most);
    assert!(rt; TOXIC.check().is_ok());
    assert_equal(rt, &chain.push(TOXIC, most), &Err(TooManyToxics));
    assert!(rt; chain.len() == usize::from(most));
    assert_equal(rt, &chain.toxicity(15), &15);
    assert_equal(rt, &chain.toxic(15), &TOXIC);
}

#[test]
fn a_chain_has_a_toxic_for_each_lane(rt: HostRuntime) {
    has_room_for(&rt, &mut Chain::new(), 16);
    has_room_for(&rt, &mut Chain::with_lanes(Lanes::ThirtyTwo), 32);
}

/// Compares the number of the short form that is one too many.
fn refuse(rt: &impl Abort, lanes: Lanes, number: usize) {
    let fault = read_chain(lanes, &["latency"; 33]).err();
    assert_equal(rt, &fault, &Some(ToxicsFault::TooMany(number)));
}

#[test]
fn short_forms_are_one_for_each_lane(rt: HostRuntime) {
    refuse(&rt, Lanes::Sixteen, 17);
    refuse(&rt, Lanes::ThirtyTwo, 33);
}

//! Directions whose plan has no operation.
use crate::comparing::assert_equal_at;
use crate::link::case_notes::Kept;
use crate::link::drives::{drawn_bytes, driven_under};
use crate::link::driving::{DriveCase, Step, follow};
use rand_pcg::Lcg64Xsh32;
use std::mem::size_of;
use std::process::Abort;
use tests_support::chain_of;
use tox_defs::Chain;
use tox_link::{LinkEvent, PolledLink};

#[test]
fn a_direction_stands_under_512_bytes(rt: HostRuntime) {
    assert!(rt; size_of::<PolledLink>() < 512);
}

/// What a direction under these toxics notes and writes, under a schedule that a seed draws.
fn drawn_under(
    rt: &(impl Abort + AllocGlobal),
    chain: &Chain,
    seed: u64,
) -> (Vec<LinkEvent>, Vec<u8>) {
    let generator = &mut Lcg64Xsh32::new(seed, 5);
    let bytes = drawn_bytes(rt, generator);
    let direction = driven_under(rt, generator, chain, bytes, seed);
    (direction.notes.events, direction.written)
}

/// A slow close changes no slice, so a direction under it has the same log up to the ending.
#[test]
fn a_plain_direction_has_the_log_of_a_planned_one(rt: HostRuntime) {
    let slow = chain_of("slow_close:delay=1").expect(&rt, "a short form");
    for seed in 0..200 {
        let plain = drawn_under(&rt, &Chain::new(), seed);
        assert_equal_at(&rt, &plain, &drawn_under(&rt, &slow, seed), seed);
    }
}

const ONE_READ: &DriveCase = &DriveCase {
    toxics: "",
    gives: 5,
    most_read: 1,
    due: Some(20_000),
    kept: Kept::Nothing,
    steps: &[
        Step::Drive(Ok(Some(20_000))),
        Step::DriveWithoutMemory(Ok(Some(20_000))),
        Step::Left(4),
    ],
};

/// While the sink waits nothing more is read, and a drive that moves no piece takes no memory.
#[test]
fn a_plain_direction_holds_one_read(rt: HostRuntime) {
    follow(&rt, ONE_READ);
}

const ONE_CALL: &DriveCase = &DriveCase {
    toxics: "",
    gives: 65_536,
    most_read: 65_536,
    due: None,
    kept: Kept::Nothing,
    steps: &[Step::DriveOn, Step::Left(0), Step::Together(4)],
};

/// What one call reads is written by one call.
#[test]
fn a_plain_direction_writes_a_read_by_one_call(rt: HostRuntime) {
    follow(&rt, ONE_CALL);
}

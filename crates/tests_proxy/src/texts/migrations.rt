//! Migrated scripts, and what connections meet by them.
use crate::comparing::assert_equal;
use crate::setups::setup_of;
use crate::texts::written::{CONFIG, ROOM, SCRIPT, compare_third, migrated};
use std::process::Abort;
use tox_proxy::{PrintMigratedFault, print_migrated};
use tox_script::ScriptFault;
use tox_time::MemorySink;

/// Compares the pick text of connection 3 downstream.
fn compare_pick(rt: &(impl Abort + AllocGlobal), script: &[u8]) {
    compare_third(rt, &setup_of(rt, CONFIG, script), ROOM, None);
}

#[test]
fn a_migrated_script_has_the_same_pick(rt: HostRuntime) {
    compare_pick(&rt, SCRIPT.as_bytes());
    compare_pick(&rt, migrated(&rt).bytes());
}

#[test]
fn a_migrated_script_is_not_migrated_again(rt: HostRuntime) {
    let mut other = MemorySink::new(rt.alloc(), ROOM, ROOM, None).expect(&rt, "memory");
    let answer = print_migrated(rt.alloc(), &mut other, migrated(&rt).bytes());
    let refusal = PrintMigratedFault::Script(ScriptFault::AlreadyVersion2);
    assert_equal(&rt, &answer, &Err(refusal));
    assert_equal(&rt, &other.bytes().len(), &0);
}

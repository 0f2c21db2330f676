//! Scripts: their versions, chains and lanes, and what migration keeps. Their faults are in `tests/rows`.
use crate::comparing::{assert_equal, assert_equal_at};
use crate::setups::script_of;
use crate::texts::written::SCRIPT;
use std::process::Abort;
use tox_defs::{Entry, Lanes, Toxic};
use tox_script::{Script, ScriptFault, Version, migrate};
use tox_time::Stream;

/// The toxics that connection 3 of a meets downstream.
const TOXICS: &[Entry] = &[
    Entry {
        toxic: Toxic::Latency {
            latency: 100,
            jitter: 0,
            until: 0,
            from: 0,
        },
        toxicity: 1000,
    },
    Entry {
        toxic: Toxic::LimitData { bytes: 7 },
        toxicity: 0,
    },
];

/// Compares the toxics that a connection of a meets downstream.
fn compare_toxics(rt: &impl Abort, script: &Script, conn: u64, expected: &[Entry]) {
    let chain = script.chain("a", conn, Stream::Downstream);
    assert_equal_at(rt, &chain.entries(), &expected, &conn);
}

#[test]
fn a_chain_has_its_toxics_in_order(rt: HostRuntime) {
    let script = script_of(&rt, SCRIPT.as_bytes());
    compare_toxics(&rt, &script, 3, TOXICS);
    compare_toxics(&rt, &script, 1, &[]);
}

/// What a script begins with, and its version and lanes.
const HEADS: &[(&str, Version, Lanes)] = &[
    ("", Version::One, Lanes::Sixteen),
    ("version = 1\n", Version::One, Lanes::Sixteen),
    ("version = 2\n", Version::Two, Lanes::ThirtyTwo),
    ("version = 2\nlanes = 16\n", Version::Two, Lanes::Sixteen),
];

/// A script that begins so, with another rule, which has no toxics.
fn script_after(rt: &(impl Abort + AllocGlobal), head: &str) -> Script {
    let text = format!(in rt.alloc(); "{head}{SCRIPT}[[rule]]\nproxy = 'b'\nfirst = 1\n");
    script_of(rt, text.expect(rt, "memory").as_bytes())
}

/// Compares the lanes of chains: one with toxics, one without, and one that no rule covers.
fn compare_lanes(rt: &impl Abort, script: &Script, head: &str, lanes: &Lanes) {
    for proxy in ["a", "b", "c"] {
        let chain = script.chain(proxy, 3, Stream::Downstream);
        assert_equal_at(rt, &chain.lanes(), lanes, &(proxy, head));
    }
}

/// Chains have the lanes of their script.
#[test]
fn a_script_tells_its_version_and_lanes(rt: HostRuntime) {
    for (head, version, lanes) in HEADS {
        let script = script_after(&rt, head);
        assert_equal_at(&rt, &script.version(), version, head);
        compare_lanes(&rt, &script, head, lanes);
    }
}

/// The text of a script's migration.
fn migrated(rt: &(impl Abort + AllocGlobal), script: &[u8]) -> String {
    migrate(rt.alloc(), script).expect(rt, "a migration")
}

/// Compares what connection 3 of a meets downstream before a migration and after it.
fn compare_migrated(rt: &impl Abort, before: &Script, after: &Script) {
    assert_equal(
        rt,
        &after.chain("a", 3, Stream::Downstream).entries(),
        &before.chain("a", 3, Stream::Downstream).entries(),
    );
    assert_equal(
        rt,
        &after.names("a", 3, Stream::Downstream),
        &before.names("a", 3, Stream::Downstream),
    );
}

/// Compares version and lanes of a migrated script.
fn compare_version(rt: &impl Abort, script: &Script, conn: u64, stream: Stream) {
    assert_equal(rt, &script.version(), &Version::Two);
    let lanes = script.chain("a", conn, stream).lanes();
    assert_equal(rt, &lanes, &Lanes::Sixteen);
}

#[test]
fn a_migrated_script_gives_the_same_chains(rt: HostRuntime) {
    let text = migrated(&rt, SCRIPT.as_bytes());
    let after = script_of(&rt, text.as_bytes());
    compare_version(&rt, &after, 3, Stream::Downstream);
    compare_migrated(&rt, &script_of(&rt, SCRIPT.as_bytes()), &after);
    let again = migrate(rt.alloc(), text.as_bytes()).err();
    assert_equal(&rt, &again, &Some(ScriptFault::AlreadyVersion2));
}

#[test]
fn a_script_without_rules_is_migrated(rt: HostRuntime) {
    let script = script_of(&rt, migrated(&rt, b"").as_bytes());
    compare_version(&rt, &script, 1, Stream::Upstream);
}

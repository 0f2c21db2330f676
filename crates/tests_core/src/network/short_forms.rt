//! Short forms of toxics.
use crate::comparing::assert_equal_at;
use std::process::Abort;
use tox_defs::{ShortFault, Toxic, ToxicFault, read_short};

/// Short forms, and the toxic and the toxicity that each is read as.
const READ: &[(&str, Toxic, u16)] = &[
    (
        "latency:latency=100",
        Toxic::Latency {
            latency: 100,
            jitter: 0,
            until: 0,
            from: 0,
        },
        1000,
    ),
    (
        "latency:toxicity=7,jitter=000000000000000020",
        Toxic::Latency {
            latency: 0,
            jitter: 20,
            until: 0,
            from: 0,
        },
        7,
    ),
    (
        "bandwidth:from=3600000,rate=1",
        Toxic::Bandwidth {
            rate: 1,
            until: 0,
            from: 3_600_000,
        },
        1000,
    ),
    (
        "timeout:after=1099511627776,from=2",
        Toxic::Timeout {
            timeout: 0,
            from: 2,
            after: 1_099_511_627_776,
        },
        1000,
    ),
    (
        "reset_peer:timeout=5,after=3",
        Toxic::ResetPeer {
            timeout: 5,
            after: 3,
        },
        1000,
    ),
    ("slow_close", Toxic::SlowClose { delay: 0 }, 1000),
    (
        "limit_data:bytes=1099511627776,toxicity=0",
        Toxic::LimitData {
            bytes: 1_099_511_627_776,
        },
        0,
    ),
];

#[test]
fn reads_short_forms(rt: HostRuntime) {
    for (number, (text, toxic, toxicity)) in READ.iter().enumerate() {
        compare(&rt, text, &Ok((*toxic, *toxicity)), number as u64);
    }
}

/// Compares what the text of a row is read as.
fn compare(rt: &impl Abort, text: &str, want: &Result<(Toxic, u16), ShortFault>, row: u64) {
    assert_equal_at(rt, &read_short(text), want, row);
}

/// Other texts, and why each is refused.
const REFUSED: &[(&str, ShortFault)] = &[
    ("", ShortFault::BadForm),
    ("latency:", ShortFault::BadForm),
    ("latency:latency=+1", ShortFault::BadForm),
    ("latency:latency=0000000000000000001", ShortFault::BadForm),
    ("noop", ShortFault::Toxic(ToxicFault::UnknownType)),
    ("latency:latency=1,latency=2", ShortFault::DoubleKey),
    (
        "latency:latency=1,jitter=2,toxicity=1001,rate=3",
        ShortFault::Toxic(ToxicFault::ToxicityNotThousandths),
    ),
    (
        "latency:rate=1",
        ShortFault::Toxic(ToxicFault::UnknownAttribute),
    ),
    (
        "slow_close:from=1",
        ShortFault::Toxic(ToxicFault::UnknownAttribute),
    ),
    (
        "limit_data:after=1",
        ShortFault::Toxic(ToxicFault::UnknownAttribute),
    ),
    (
        "latency:after=1",
        ShortFault::Toxic(ToxicFault::UnknownAttribute),
    ),
    (
        "reset_peer:from=1",
        ShortFault::Toxic(ToxicFault::UnknownAttribute),
    ),
    (
        "timeout:from=3600001",
        ShortFault::Toxic(ToxicFault::OutOfRange),
    ),
    (
        "reset_peer:after=1099511627777",
        ShortFault::Toxic(ToxicFault::OutOfRange),
    ),
    ("bandwidth", ShortFault::Toxic(ToxicFault::OutOfRange)),
    (
        "latency:latency=4294967296",
        ShortFault::Toxic(ToxicFault::OutOfRange),
    ),
    (
        "slicer:average_size=2,size_variation=2",
        ShortFault::Toxic(ToxicFault::Variation),
    ),
    (
        "slicer:average_size=2,size_variation=99999999999",
        ShortFault::Toxic(ToxicFault::Variation),
    ),
];

#[test]
fn refuses_other_texts(rt: HostRuntime) {
    for (number, (text, fault)) in REFUSED.iter().enumerate() {
        compare(&rt, text, &Err(*fault), number as u64);
    }
}

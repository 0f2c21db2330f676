//! What chains are compiled into. What `plan` prints of them is in `tests/rows`.
use crate::comparing::assert_equal;
use crate::planning::{one_word, plan_of};
use std::process::Abort;
use tests_support::at;
use tox_compile::Op;
use tox_time::{Ending, Micros};

/// The operations of the toxics below, in order.
fn operations() -> [Op; 7] {
    [
        Op::Delay {
            fixed: 3,
            latency: 0,
            jitter: 0,
            lane: 0,
            until: 0,
            from: 0,
        },
        Op::Pace {
            rate: 7,
            until: 0,
            from: 0,
        },
        Op::Delay {
            fixed: 0,
            latency: 5,
            jitter: 2,
            lane: 2,
            until: 0,
            from: 0,
        },
        Op::Slow { millis: 2 },
        Op::Limit { bytes: 9 },
        Op::Slicing {
            average: 4,
            variation: 1,
            micros: 6,
            lane: 5,
            until: 0,
            from: 0,
        },
        Op::Cutoff {
            instant: Micros::from_millis(8),
        },
    ]
}

/// Compares the operations and the deadline of the plan of these toxics.
fn compare(rt: &(impl Abort + AllocGlobal), toxics: &str, operations: &[Op], deadline: Micros) {
    let words = one_word(rt);
    let plan = plan_of(rt, toxics, &words);
    assert_equal(rt, &plan.ops(), &operations);
    assert_equal(rt, &plan.deadline(), &Some(deadline));
}

/// Each toxic, in the order of the operations above.
const TOXICS: &str = "\
latency:latency=3
bandwidth:rate=7
latency:latency=5,jitter=2
slow_close:delay=2
limit_data:bytes=9
slicer:average_size=4,size_variation=1,delay=6
reset_peer:timeout=8
";

#[test]
fn each_toxic_has_its_operation(rt: HostRuntime) {
    compare(&rt, TOXICS, &operations(), Micros::from_millis(8));
}

#[test]
fn a_timeout_stands_alone(rt: HostRuntime) {
    let ending = Ending::Closed(at(50_000));
    let toxics = "timeout:timeout=50 bandwidth:rate=7";
    compare(&rt, toxics, &[Op::Mute { ending }], Micros::ZERO);
}

/// The operations of the toxics below, in order.
fn later_operations() -> [Op; 6] {
    [
        Op::Halt {
            at: Some(Micros::from_millis(2)),
            after: 9,
            ending: Ending::StillOpen,
        },
        Op::Delay {
            fixed: 1,
            latency: 0,
            jitter: 0,
            lane: 0,
            until: 0,
            from: 3,
        },
        Op::Pace {
            rate: 7,
            until: 0,
            from: 1,
        },
        Op::Halt {
            at: None,
            after: 8,
            ending: Ending::Reset(at(1000)),
        },
        Op::Slicing {
            average: 4,
            variation: 1,
            micros: 6,
            lane: 4,
            until: 9,
            from: 4,
        },
        Op::Halt {
            at: Some(Micros::from_millis(6)),
            after: 0,
            ending: Ending::Closed(at(1000)),
        },
    ]
}

/// Each toxic that can begin later, in the order of the operations above.
const LATER_TOXICS: &str = "\
timeout:from=2,after=9
latency:latency=1,from=3
bandwidth:rate=7,from=1
reset_peer:timeout=1,after=8
slicer:average_size=4,size_variation=1,delay=6,until=9,from=4
timeout:timeout=1,from=6
";

#[test]
fn each_later_toxic_has_its_operation(rt: HostRuntime) {
    let deadline = Micros::from_millis(2);
    compare(&rt, LATER_TOXICS, &later_operations(), deadline);
}

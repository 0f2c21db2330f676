//! What arrivals accept and refuse.
use crate::comparing::{assert_equal, assert_equal_at};
use std::process::Abort;
use tests_support::at;
use tox_time::{ArrivalFault, Arrivals, Item, MAX_BYTES, Micros, Span};

/// What arrives at an instant in microseconds.
enum Call {
    Piece(u64, u64),
    End(u64),
}

/// Calls and what each answers.
type Calls = &'static [(Call, Result<(), ArrivalFault>)];

/// Makes these calls. A failure prints the number of its call, counted from 0.
fn arrive(rt: &(impl Abort + AllocGlobal), calls: Calls) -> Arrivals {
    let mut arrivals = Arrivals::new(rt.alloc());
    for (number, (call, answer)) in calls.iter().enumerate() {
        let got = match *call {
            Call::Piece(len, micros) => arrivals.push(len, at(micros)),
            Call::End(micros) => arrivals.eof(at(micros)),
        };
        assert_equal_at(rt, &got, answer, number as u64);
    }
    arrivals
}

const ACCEPTED: Calls = &[
    (Call::Piece(3, 5), Ok(())),
    (Call::Piece(MAX_BYTES - 3, 5), Ok(())),
    (Call::End(7), Ok(())),
];

#[test]
fn arrivals_are_listed(rt: HostRuntime) {
    let arrivals = arrive(&rt, ACCEPTED);
    let first = Span { start: 0, stop: 3 };
    let second = Span {
        start: 3,
        stop: MAX_BYTES,
    };
    let listed = [
        Item::Chunk(first, at(5)),
        Item::Chunk(second, at(5)),
        Item::Closed(at(7)),
    ];
    assert_equal(&rt, &arrivals.items(), &listed.as_slice());
}

const REFUSED_IN_ORDER: Calls = &[
    (Call::Piece(MAX_BYTES, 5), Ok(())),
    (Call::End(5), Ok(())),
    (Call::Piece(0, 4), Err(ArrivalFault::TimeBack)),
    (Call::Piece(1, 4), Err(ArrivalFault::TimeBack)),
    (Call::Piece(0, 5), Err(ArrivalFault::EmptyPiece)),
    (Call::Piece(1, 5), Err(ArrivalFault::TooManyBytes)),
    (Call::End(4), Err(ArrivalFault::TimeBack)),
    (Call::End(5), Err(ArrivalFault::AfterEnd)),
];

#[test]
fn arrivals_are_refused_in_order(rt: HostRuntime) {
    let _ended = arrive(&rt, REFUSED_IN_ORDER);
}

const REFUSED_BEHIND_AN_END: Calls = &[
    (Call::End(5), Ok(())),
    (Call::Piece(0, 4), Err(ArrivalFault::TimeBack)),
    (Call::Piece(0, 5), Err(ArrivalFault::EmptyPiece)),
    (Call::Piece(1, 5), Err(ArrivalFault::AfterEnd)),
];

#[test]
fn arrivals_are_refused_behind_an_end(rt: HostRuntime) {
    let _closed = arrive(&rt, REFUSED_BEHIND_AN_END);
}

/// The last instant, in microseconds.
const LAST: u64 = 1_000_000_000_000_000;

#[test]
fn time_stops_at_the_horizon(rt: HostRuntime) {
    let horizon = at(u64::MAX);
    assert_equal(&rt, &horizon.get(), &LAST);
    assert_equal(&rt, &Micros::new(LAST), &Some(horizon));
    assert_equal(&rt, &Micros::new(LAST + 1), &None);
    assert_equal(&rt, &Micros::from_millis(3_600_000), &at(3_600_000_000));
    assert_equal(&rt, &Micros::from_millis(u64::MAX), &horizon);
    assert_equal(&rt, &horizon.plus(at(1)), &horizon);
    assert_equal(&rt, &at(3).later(at(2)), &at(3));
}

//! One direction of a link, carried between ends in memory.
use crate::end::End;
use crate::link::carrying::{AT_ONCE, CarryCase, follow};
use crate::link::case_notes::Kept;
use crate::link::table_values::Event;
use tox_link::{LinkFault, SourceEnding};

/// How many reads of one byte a long link takes.
const MANY: usize = 1_048_576;

const LATENCY: &CarryCase = &CarryCase {
    toxics: "latency:latency=1",
    answer: Ok((2, End::Closed(1000), SourceEnding::Eof)),
    hangup: (1, true, End::Closed(1000), 1000),
    first_write: Some(1000),
    events: &[
        &[
            Event::Piece(2, 0),
            Event::SourceEnd(0),
            Event::Wrote(0, 2, 1000),
        ],
        &[
            Event::Piece(2, 0),
            Event::SourceEnd(1000),
            Event::Wrote(0, 2, 1000),
        ],
        &[
            Event::Piece(2, 0),
            Event::Wrote(0, 2, 1000),
            Event::SourceEnd(1000),
        ],
    ],
    ..AT_ONCE
};

#[test]
fn latency_delays_two_bytes(rt: HostRuntime) {
    follow(&rt, LATENCY);
}

const MEETING: &CarryCase = &CarryCase {
    meets: true,
    ..AT_ONCE
};

#[test]
fn reader_and_writer_meet(rt: HostRuntime) {
    follow(&rt, MEETING);
}

const MUTED: &CarryCase = &CarryCase {
    toxics: "timeout:timeout=0",
    bytes: b"",
    answer: Ok((0, End::StillOpen, SourceEnding::NotReached)),
    hangup: (1, true, End::StillOpen, 0),
    written: Some(b""),
    events: &[&[]],
    ..AT_ONCE
};

#[test]
fn a_muted_link_stays_open(rt: HostRuntime) {
    follow(&rt, MUTED);
}

const LATER_PIECE: &CarryCase = &CarryCase {
    toxics: "latency:latency=1",
    most_read: 1,
    read_waits: true,
    answer: Ok((2, End::Closed(2000), SourceEnding::Eof)),
    hangup: (1, true, End::Closed(2000), 2000),
    events: &[
        &[
            Event::Piece(1, 0),
            Event::Wrote(0, 1, 1000),
            Event::Piece(1, 1000),
            Event::SourceEnd(1000),
            Event::Wrote(1, 2, 2000),
        ],
        &[
            Event::Piece(1, 0),
            Event::Wrote(0, 1, 1000),
            Event::Piece(1, 1000),
            Event::SourceEnd(2000),
            Event::Wrote(1, 2, 2000),
        ],
        &[
            Event::Piece(1, 0),
            Event::Wrote(0, 1, 1000),
            Event::Piece(1, 1000),
            Event::Wrote(1, 2, 2000),
            Event::SourceEnd(2000),
        ],
    ],
    ..AT_ONCE
};

#[test]
fn a_later_piece_has_a_later_instant(rt: HostRuntime) {
    follow(&rt, LATER_PIECE);
}

const TICKS: &CarryCase = &CarryCase {
    bytes: b"abc",
    most_read: 1,
    ticks: true,
    answer: Ok((3, End::Closed(40), SourceEnding::Eof)),
    hangup: (1, true, End::Closed(40), 40),
    written: Some(b"abc"),
    events: &[&[
        Event::Piece(1, 10),
        Event::Piece(1, 20),
        Event::Piece(1, 30),
    ]],
    kept: Kept::Pieces,
    ..AT_ONCE
};

/// The clock is read anew for each message, once it is taken.
#[test]
fn each_piece_has_an_instant_of_its_own(rt: HostRuntime) {
    follow(&rt, TICKS);
}

const SLOW_CLOSE: &CarryCase = &CarryCase {
    toxics: "slow_close:delay=1",
    answer: Ok((2, End::Closed(1000), SourceEnding::Eof)),
    hangup: (1, true, End::Closed(1000), 1000),
    events: &[
        &[
            Event::Piece(2, 0),
            Event::SourceEnd(0),
            Event::Wrote(0, 2, 0),
        ],
        &[
            Event::Piece(2, 0),
            Event::Wrote(0, 2, 0),
            Event::SourceEnd(0),
        ],
    ],
    ..AT_ONCE
};

#[test]
fn a_slow_close_waits_for_its_instant(rt: HostRuntime) {
    follow(&rt, SLOW_CLOSE);
}

const FAILING_READER: &CarryCase = &CarryCase {
    failing_read: Some(2),
    answer: Ok((2, End::Closed(0), SourceEnding::ReadFault)),
    ..AT_ONCE
};

#[test]
fn a_failing_reader_closes_the_link(rt: HostRuntime) {
    follow(&rt, FAILING_READER);
}

const USED_UP: &CarryCase = &CarryCase {
    most_read: 1,
    reads: 1,
    answer: Ok((1, End::Closed(0), SourceEnding::ReadsUsedUp)),
    written: Some(b"a"),
    ..AT_ONCE
};

#[test]
fn reads_are_used_up(rt: HostRuntime) {
    follow(&rt, USED_UP);
}

const MANY_READS: &CarryCase = &CarryCase {
    leading: MANY,
    bytes: b"",
    most_read: 1,
    reads: MANY as u64,
    room: MANY,
    most_written: 16_384,
    answer: Ok((1_048_576, End::Closed(0), SourceEnding::ReadsUsedUp)),
    written: None,
    ..AT_ONCE
};

#[test]
fn many_small_reads_are_used_up(rt: HostRuntime) {
    follow(&rt, MANY_READS);
}

const FAILING_WRITER: &CarryCase = &CarryCase {
    bytes: b"abc",
    most_written: 1,
    failing_write: Some(3),
    answer: Err(LinkFault::WriteFault(2)),
    hangup: (1, false, End::Reset(0), 0),
    ..AT_ONCE
};

#[test]
fn a_failing_writer_resets_the_link(rt: HostRuntime) {
    follow(&rt, FAILING_WRITER);
}

const FULL_WRITER: &CarryCase = &CarryCase {
    bytes: b"abc",
    room: 0,
    most_written: 1,
    answer: Err(LinkFault::WriteFault(0)),
    hangup: (1, false, End::Reset(0), 0),
    written: Some(b""),
    ..AT_ONCE
};

#[test]
fn a_writer_that_takes_nothing_resets_the_link(rt: HostRuntime) {
    follow(&rt, FULL_WRITER);
}

//! A driven direction, drive by drive.
use crate::link::case_notes::Kept;
use crate::link::driving::{DriveCase, Step, follow};
use crate::link::table_values::Event;
use tox_link::LinkFault;

const STAMPED: &DriveCase = &DriveCase {
    toxics: "latency:latency=1",
    gives: 1,
    most_read: 1,
    due: None,
    kept: Kept::All,
    steps: &[
        Step::Drive(Ok(Some(1010))),
        Step::Events(&[Event::Piece(1, 10)]),
        Step::Clock(1010),
        Step::Drive(Ok(None)),
        Step::Events(&[Event::Piece(1, 10), Event::Wrote(0, 1, 1010)]),
    ],
};

#[test]
fn a_piece_is_stamped_after_its_read(rt: HostRuntime) {
    follow(&rt, STAMPED);
}

const WAITING_SLICE: &DriveCase = &DriveCase {
    toxics: "reset_peer:timeout=20",
    gives: 1,
    most_read: 1,
    due: Some(20_000),
    kept: Kept::Nothing,
    steps: &[
        Step::Drive(Ok(Some(20_000))),
        Step::Clock(20_000),
        Step::Drive(Err(LinkFault::WriteFault(0))),
    ],
};

#[test]
fn a_slice_that_waits_hides_no_reset(rt: HostRuntime) {
    follow(&rt, WAITING_SLICE);
}

const NOTHING_MOVES: &DriveCase = &DriveCase {
    toxics: "latency:latency=1",
    gives: 0,
    most_read: 1,
    due: None,
    kept: Kept::Nothing,
    steps: &[
        Step::DriveWithoutMemory(Ok(None)),
        Step::Gives(1),
        Step::DriveWithoutMemory(Err(LinkFault::OutOfMemory(0))),
    ],
};

/// Where no piece moves a drive takes no memory, and a read without memory breaks off.
#[test]
fn a_drive_that_moves_nothing_takes_no_memory(rt: HostRuntime) {
    follow(&rt, NOTHING_MOVES);
}

const MANY_CUTS: &DriveCase = &DriveCase {
    toxics: "slicer:average_size=1,size_variation=0,delay=0",
    gives: 1_000_000,
    most_read: 16_384,
    due: None,
    kept: Kept::All,
    steps: &[
        Step::DriveOn,
        Step::Left(983_616),
        Step::Events(&[Event::Piece(16_384, 10)]),
        Step::DriveOn,
        Step::Left(967_232),
        Step::Events(&[
            Event::Piece(16_384, 10),
            Event::Wrote(0, 16_384, 10),
            Event::Piece(16_384, 20),
        ]),
    ],
};

/// A piece of 16,384 cuts at one instant is one slice, and a drive looks for one such slice.
#[test]
fn a_drive_ends_behind_many_cuts(rt: HostRuntime) {
    follow(&rt, MANY_CUTS);
}

const MANY_BYTES: &DriveCase = &DriveCase {
    toxics: "latency:latency=1",
    gives: 1_000_000,
    most_read: 16_384,
    due: None,
    kept: Kept::Nothing,
    steps: &[Step::DriveOn, Step::Left(918_080)],
};

/// A drive that reads 81,920 bytes reads no more.
#[test]
fn a_drive_ends_behind_many_bytes(rt: HostRuntime) {
    follow(&rt, MANY_BYTES);
}

const LARGE_READ: &DriveCase = &DriveCase {
    toxics: "latency:latency=1",
    gives: 65_536,
    most_read: 65_536,
    due: None,
    kept: Kept::All,
    steps: &[
        Step::Drive(Ok(Some(1_010))),
        Step::Left(0),
        Step::Events(&[
            Event::Piece(16_384, 10),
            Event::Piece(16_384, 10),
            Event::Piece(16_384, 10),
            Event::Piece(16_384, 10),
        ]),
    ],
};

/// One read of 65,536 bytes is four pieces.
#[test]
fn a_large_read_is_kept_in_pieces(rt: HostRuntime) {
    follow(&rt, LARGE_READ);
}

const WHOLE_PIECES: &DriveCase = &DriveCase {
    toxics: "latency:latency=1",
    gives: 65_536,
    most_read: 65_536,
    due: None,
    kept: Kept::Nothing,
    steps: &[
        Step::Drive(Ok(Some(1_010))),
        Step::Clock(1_010),
        Step::Drive(Ok(None)),
        Step::Together(4),
    ],
};

/// The four pieces of one read leave by one call.
#[test]
fn whole_pieces_are_written_together(rt: HostRuntime) {
    follow(&rt, WHOLE_PIECES);
}

const CUTS: &DriveCase = &DriveCase {
    toxics: "slicer:average_size=4096,size_variation=0,delay=10",
    gives: 65_536,
    most_read: 65_536,
    due: None,
    kept: Kept::Nothing,
    steps: &[
        Step::Drive(Ok(Some(20))),
        Step::Clock(1_000),
        Step::DriveOn,
        Step::Drive(Ok(None)),
        Step::Together(1),
    ],
};

/// Each cut of a slicer has a call of its own, however late it is.
#[test]
fn cuts_are_written_one_by_one(rt: HostRuntime) {
    follow(&rt, CUTS);
}

//! Slices lent from pieces.
ghost use Rattle.std.specs.Prelude.{◌≡◌, ◌+◌, length, false};
ghost use Rattle.tox_plan.specs.Slices.{CanLend, IsOffered};

use crate::comparing::assert_equal_at;
use crate::plan::demands::demand;
use crate::plan::runners::{Step, make_steps, runner_of};
use crate::planning::{one_word, words_of};
use std::process::Abort;
use tests_support::at;
use tox_lend::{Lent, Piece};
use tox_plan::{Runner, Slices};
use tox_time::Span;

/// Start, instant and bytes of a slice.
type Shown<'a> = (u64, u64, &'a [u8]);

/// A piece of these bytes.
pub fn piece_of(rt: &(impl Abort + AllocGlobal), start: u64, bytes: &[u8], micros: u64) -> Piece
    ensures { (result.start ≡ start) × (result.bytes ≡ bytes.now) }
{
    Piece {
        start,
        bytes: Vec::from_slice(rt.alloc(), bytes).expect(rt, "memory"),
        instant: at(micros),
    }
}

/// Compares a slice of a number with the expected one.
fn compare(rt: &impl Abort, lent: &Option<Lent<'_>>, expected: &Option<Shown<'_>>, number: u64) {
    let shown = match lent {
        Some(lent) => Some((lent.start, lent.instant.get(), lent.bytes)),
        None => None,
    };
    assert_equal_at(rt, &shown, expected, number);
}

#[test]
fn a_piece_lends_its_own_bytes(rt: HostRuntime) {
    let piece = piece_of(&rt, 10, b"abc", 5);
    let span = Span {
        start: 11,
        stop: 13,
    };
    let lent = Some(piece.lend(span, at(8)));
    compare(&rt, &lent, &Some((11, 8, b"bc")), 0);
}

/// Compares the next slices.
fn compare_next(rt: &impl Abort, slices: &mut Slices<'_, '_>, expected: &[Option<Shown<'_>>])
    requires { CanLend slices.old }
    ensures { slices.new.runner.piece ≡ slices.old.runner.piece }
{
    for (number, slice) in expected.iter().enumerate() {
        compare(rt, &slices.next(), slice, number as u64);
    }
}

/// Offers a piece to an idle runner.
fn offer(rt: &impl Abort, runner: &mut Runner<'_>, piece: &Piece)
    requires { runner.old.piece.span.stop ≡ piece.now.start }
    ensures offered { IsOffered runner.new piece.now }
    ensures unread { (runner.new.idle ≡ false)
        × (runner.new.position ≡ runner.new.piece.span.start) }
{
    demand(rt, runner.is_idle());
    runner
        .offer(piece.bytes.len() as u64, piece.instant)
        .expect(rt, "an accepted piece");
}

/// Offers a piece of these bytes, compares the next slices, and takes the runner back.
fn lend<'w>(
    rt: &(impl Abort + AllocGlobal),
    mut runner: Runner<'w>,
    start: u64,
    bytes: &[u8],
    micros: u64,
    expected: &[Option<Shown<'_>>],
) -> Runner<'w>
    requires { runner.piece.span.stop ≡ start }
    ensures { result.piece.span.stop ≡ start + length bytes.now }
{
    let piece = piece_of(rt, start, bytes, micros);
    offer(rt, &mut runner, &piece);
    let mut slices = runner.slices(&piece);
    compare_next(rt, &mut slices, expected);
    slices.into_runner()
}

const OF_THE_FIRST: &[Option<Shown<'static>>] = &[
    Some((0, 10, b"ab")),
    Some((2, 20, b"cde")),
    None,
];

const OF_THE_SECOND: &[Option<Shown<'static>>] = &[
    Some((5, 110, b"f")),
    Some((6, 120, b"g")),
    None,
];

#[test]
fn a_slicer_lends_slices_of_each_piece(rt: HostRuntime) {
    let words = words_of(&rt, &[0, 1, 2]);
    let slicer = "slicer:average_size=2,size_variation=1,delay=10";
    let runner = runner_of(&rt, slicer, &words);
    let runner = lend(&rt, runner, 0, b"abcde", 0, OF_THE_FIRST);
    let mut runner = lend(&rt, runner, 5, b"fg", 100, OF_THE_SECOND);
    make_steps(&rt, &mut runner, &[Step::Quiet]);
}

/// The calls of a runner that was taken back early.
const REST: &[Step] = &[
    Step::Idle(false),
    Step::Gives(2, 3, 20),
    Step::Idle(false),
    Step::GivesNothing,
    Step::Idle(true),
];

/// A runner that is taken back before its slices are all given goes on with the rest of the piece.
#[test]
fn a_runner_taken_back_early_keeps_the_piece(rt: HostRuntime) {
    let words = one_word(&rt);
    let runner = runner_of(&rt, "slicer:average_size=2,delay=10", &words);
    let mut runner = lend(&rt, runner, 0, b"abc", 0, &[Some((0, 10, b"ab"))]);
    make_steps(&rt, &mut runner, REST);
}

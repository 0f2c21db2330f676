//! The bytes that one call writes.
ghost use Rattle.std.specs.Prelude.{◌≡◌, ℕ, ◌<◌, ◌≤◌, ◌^◌, ◌++◌, slice_get, length, Some};
ghost use Rattle.std.specs.Io.Slices.{io_slices_bytes};
ghost use Rattle.tox_link.specs.direction.Follows.{AreJoined};
ghost use Rattle.tox_link.specs.steps.Held.{AreFrom, HoldsSpan};

use crate::direction::unwritten::{MAX_TOGETHER, Unwritten};
use crate::steps::front::front_of;
use crate::steps::read_size::READ_SIZE;
use std::io::IoSlice;
use tox_lend::Window;
use tox_time::Span;

/// The bytes that are written next of slices that are written up to a position: the front of the first one, and behind it those that
/// are whole pieces. A slice that is cut from a piece has a call of its own, so that the peer sees a slicer's cuts.
pub(crate) fn parts_of<'a>(
    window: &'a Window,
    unwritten: &[Unwritten],
    first: &Unwritten,
    written: u64,
) -> [IoSlice<'a>; MAX_TOGETHER]
    requires held { HoldsSpan window.now
        (record { start = written; stop = first.now.slice.span.stop }) }
    requires left { written < first.now.slice.span.stop }
    requires fits { window.now.stop ≤ 2 ^ 40 }
    requires first { slice_get unwritten.now 0 ≡ Some first.now }
    ensures some { 0 < length (io_slices_bytes result) }
    ensures few { length (io_slices_bytes result) ≤ 65_536 }
    ensures bytes { (position : ℕ) → AreJoined position unwritten.now
        → AreFrom window.now.held written position (io_slices_bytes result) }
{
    let left = Span {
        start: written,
        stop: first.slice.span.stop.min(written + READ_SIZE as u64),
    };
    let front = front_of(window, &left, first.slice.instant);
    let is_joined = unwritten.len() > 1
        && !whole_at(window, unwritten, 0, first.slice.span.start).is_empty();
    if !is_joined {
        return parts(front, &[], &[], &[]);
    }
    let at = written + front.len() as u64;
    let second = whole_at(window, unwritten, 1, at);
    let at = at + second.len() as u64;
    let third = whole_at(window, unwritten, 2, at);
    let at = at + third.len() as u64;
    parts(front, second, third, whole_at(window, unwritten, 3, at))
}

/// The bytes of the nth slice, if it is a whole piece and starts at a position. Else none.
fn whole_at<'a>(window: &'a Window, unwritten: &[Unwritten], nth: usize, at: u64) -> &'a [u8]
    ensures few { length result.now ≤ 16_384 }
    ensures bytes { (position : ℕ) → AreJoined position unwritten.now → at ≤ position
        → AreFrom window.now.held at position result.now }
{
    let (Some(next), Some(piece)) = (unwritten.get(nth), window.piece(at)) else {
        return &[];
    };
    let bytes = piece.bytes.as_slice();
    let len = next.slice.span.stop.saturating_sub(at);
    if piece.start == at && bytes.len() as u64 == len && bytes.len() <= READ_SIZE {
        bytes
    } else {
        &[]
    }
}

fn parts<'a>(
    first: &'a [u8],
    second: &'a [u8],
    third: &'a [u8],
    fourth: &'a [u8],
) -> [IoSlice<'a>; MAX_TOGETHER]
    ensures { io_slices_bytes result
        ≡ first.now ++ (second.now ++ (third.now ++ fourth.now)) }
{
    [
        IoSlice::new(first),
        IoSlice::new(second),
        IoSlice::new(third),
        IoSlice::new(fourth),
    ]
}

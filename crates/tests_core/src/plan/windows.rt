//! A window from outside: what it holds after each call.
ghost use Rattle.std.specs.Prelude.{◌≡◌, []};

use crate::comparing::assert_equal;
use crate::plan::demands::demand;
use crate::plan::slices::piece_of;
use std::process::Abort;
use tox_lend::{Piece, Window};

/// Compares start and bytes of a piece.
fn compare(rt: &impl Abort, piece: Option<&Piece>, expected: Option<(u64, &[u8])>) {
    let shown = match piece {
        Some(piece) => Some((piece.start, piece.bytes.as_slice())),
        None => None,
    };
    assert_equal(rt, &shown, &expected);
}

/// Adds two pieces that leave no room, and gives up the first and then both.
fn fill_and_empty(rt: &(impl Abort + AllocGlobal), window: &mut Window)
    requires { window.old ≡ record { held = []; room = 2; stop = 0 } }
{
    window.add(piece_of(rt, 0, b"abc", 0));
    window.add(piece_of(rt, 3, b"de", 0));
    assert_equal(rt, &window.has_room(), &false);
    compare(rt, window.piece(3), Some((3, b"de")));
    compare(rt, window.piece(5), None);
    window.drop_before(4);
    compare_second(rt, window);
    window.drop_before(5);
}

/// Compares with a window that holds the second piece alone.
fn compare_second(rt: &impl Abort, window: &Window) {
    compare(rt, window.piece(2), None);
    compare(rt, window.piece(4), Some((3, b"de")));
    assert_equal(rt, &window.has_room(), &true);
}

/// Takes the first piece.
fn compare_taken(rt: &impl Abort, window: &mut Window, expected: Option<(u64, &[u8])>) {
    let taken = window.take_first();
    compare(rt, taken.as_ref(), expected);
}

/// Adds one byte at 5 to an empty window, and takes it.
fn add_last(rt: &(impl Abort + AllocGlobal), window: &mut Window) {
    demand(rt, window.has_room());
    demand(rt, window.stop() == 5);
    window.add(piece_of(rt, 5, b"f", 0));
    compare_taken(rt, window, Some((5, b"f")));
    compare_taken(rt, window, None);
    assert_equal(rt, &window.stop(), &6);
}

#[test]
fn pieces_are_given_up_from_the_front(rt: HostRuntime) {
    let mut window = Window::new(rt.alloc(), 2).expect(&rt, "memory");
    fill_and_empty(&rt, &mut window);
    add_last(&rt, &mut window);
}

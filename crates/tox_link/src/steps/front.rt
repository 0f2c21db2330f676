//! The bytes that a slice is written from.
ghost use Rattle.std.specs.Prelude.{◌≡◌, ℕ, ◌+◌, ◌<◌, ◌≤◌, List, length, take, drop};
ghost use Rattle.tox_link.specs.steps.Held.{AreOf, HoldsSpan};

use tox_lend::Window;
use tox_time::{Micros, Span};

/// The first bytes of a span, as far as one piece holds them: at least one.
pub(crate) fn front_of<'a>(window: &'a Window, span: &Span, instant: Micros) -> &'a [u8]
    requires held { HoldsSpan window.now span.now }
    requires some { span.now.start < span.now.stop }
    ensures some { 0 < length result.now }
    ensures few { span.now.start + length result.now ≤ span.now.stop }
    ensures bytes { (heard : List ℕ) → AreOf heard window.now.held
        → result.now ≡ take (length result.now) (drop span.now.start heard) }
{
    let Some(piece) = window.piece(span.start) else {
        unreachable!()
    };
    let bytes = piece.bytes.as_slice();
    let left = bytes.len() as u64 - (span.start - piece.start);
    let stop = span.start + left.min(span.stop - span.start);
    let front = Span {
        start: span.start,
        stop,
    };
    piece.lend(front, instant).bytes
}

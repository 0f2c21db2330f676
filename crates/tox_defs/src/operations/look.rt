//! A look of an operation at the rest of a chunk.
ghost use Rattle.std.specs.Prelude.{◌≡◌, ◌+◌, ◌<◌, ◌^◌, List, false};
ghost use Rattle.tox_time.specs.declared.streams.item.Item.{Item as OneItem};
ghost use Rattle.tox_words.specs.Draw.{draws_of};
ghost use Rattle.tox_defs.specs.operations.Op.{IsOp, is_mute, op_reaction};
ghost use Rattle.tox_defs.specs.operations.Look.{Finds, IsFrontOf};

use crate::operations::during::{is_outside, uncounted};
use crate::operations::op::Op;
use crate::operations::state::State;
use crate::toxics::{bandwidth, halt, latency, limit_data, reset_peer, slicer, slow_close};
use tox_time::{Ending, Slice};
use tox_words::Drawing;

/// What a look at the rest of a chunk finds.
#[derive(Clone, Copy)]
pub(crate) enum Look {
    /// The next piece. The bytes behind it stay unread.
    Piece(Slice),
    /// The last piece, and the ending that follows it.
    LastPiece(Slice, Ending),
    /// The ending, and no piece before it.
    Ended(Ending),
    /// The whole rest, which isn't counted.
    Uncounted(Slice),
}

impl Op {
    /// Finds the next piece that the operation gives for the rest of a chunk. Not inlining this, the toxics' looks
    /// and [`OpCursor::advance`](crate::OpCursor::advance) makes each look 25 % slower. Asking whether the rest is outside before the
    /// dispatch, by another one, makes it 10 to 20 % slower.
    #[inline(always)]
    pub(crate) fn look(&self, state: &State, rest: &Slice, drawing: &Drawing<'_>) -> Look
        requires operation { IsOp self.now }
        requires heard { is_mute self.now ≡ false }
        requires running { state.now.done ≡ false }
        requires some { rest.now.span.start < rest.now.span.stop }
        requires chunks { state.now.chunks + 1 < 2 ^ 64 }
        requires pieces { state.now.pieces + 1 < 2 ^ 64 }
        ensures finds { (items : List OneItem)
            → Finds (op_reaction self.now (draws_of drawing.now)) state.now rest.now items result }
        ensures front { IsFrontOf rest.now result }
    {
        match *self {
            Op::Delay {
                fixed,
                latency,
                jitter,
                lane,
                until,
                from,
            } => {
                if is_outside(from, until, rest) {
                    return uncounted(state, rest);
                }
                latency::look(fixed, latency, jitter, lane, state, rest, drawing)
            }
            Op::Pace { rate, until, from } => {
                if is_outside(from, until, rest) {
                    return uncounted(state, rest);
                }
                bandwidth::look(rate, state, rest)
            }
            Op::Slow { .. } => slow_close::look(rest),
            Op::Mute { .. } => unreachable!(),
            Op::Cutoff { instant } => reset_peer::look(instant, rest),
            Op::Slicing {
                average,
                variation,
                micros,
                lane,
                until,
                from,
            } => {
                if is_outside(from, until, rest) {
                    return uncounted(state, rest);
                }
                slicer::look(average, variation, micros, lane, state, rest, drawing)
            }
            Op::Limit { bytes } => limit_data::look(bytes, state, rest),
            Op::Halt { at, after, ending } => halt::look(&at, after, &ending, state, rest),
        }
    }
}

//! Toxics that end a link behind so many bytes.
ghost use Rattle.std.specs.Prelude.{◌≡◌, ◌<◌, ℕ};
ghost use Rattle.tox_time.specs.declared.streams.ending.Ending.{Ending as OneEnding};
ghost use Rattle.tox_defs.specs.operations.Look.{FindsAll, IsFrontOf, as_chunk};
ghost use Rattle.tox_defs.specs.toxics.FirstBytes.{bytes_give};

use crate::operations::look::Look;
use crate::operations::state::State;
use crate::toxics::pieces::front;
use tox_time::{Ending, Slice};

/// Finds the whole rest while it is shorter than the room, and else its first bytes, with the ending behind them.
#[inline(always)]
pub(crate) fn look(bytes: u64, ending: &Ending, state: &State, rest: &Slice) -> Look
    requires { rest.now.span.start < rest.now.span.stop }
    ensures finds { (ending_at : ℕ → OneEnding) → ending.now ≡ ending_at rest.now.instant
        → FindsAll (bytes_give bytes ending_at state.now (as_chunk rest.now)) rest.now result }
    ensures front { IsFrontOf rest.now result }
{
    let room = bytes.saturating_sub(state.passed);
    if rest.span.stop - rest.span.start < room {
        return Look::Piece(*rest);
    }
    if room == 0 {
        return Look::Ended(*ending);
    }
    let span = front(rest, room);
    Look::LastPiece(Slice { span, ..*rest }, *ending)
}

//! Toxics that end a link later: at an instant, or behind so many bytes.
ghost use Rattle.std.specs.Prelude.{◌≡◌, ◌<◌, ℕ, List, false, [], ◌∷◌};
ghost use Rattle.tox_time.specs.declared.streams.item.Item.{Item as OneItem};
ghost use Rattle.tox_time.specs.streams.Table.{final_of};
ghost use Rattle.tox_defs.specs.declared.operations.state.State.{State as OneState};
ghost use Rattle.tox_defs.specs.operations.Look.{Finds, FindsAll, IsFrontOf, as_chunk};
ghost use Rattle.tox_defs.specs.stage.Reaction.{counted};
ghost use Rattle.tox_defs.specs.toxics.Halt.{halt_after, halt_gives, is_before, raised};

use crate::operations::look::Look;
use crate::operations::state::State;
use crate::toxics::first_bytes;
use tox_time::{Ending, Micros, Slice};

/// Whether an ending comes before an instant. `StillOpen` never does.
pub(crate) fn is_before(instant: Micros, ending: &Ending) -> bool
    ensures { result ≡ is_before instant (final_of ending.now) }
{
    match ending {
        Ending::StillOpen => false,
        Ending::Closed(end) | Ending::Reset(end) => *end < instant,
    }
}

/// The ending, not before an instant.
pub(crate) fn raised(ending: &Ending, instant: Micros) -> Ending
    ensures { result ≡ raised ending.now instant }
{
    match ending {
        Ending::StillOpen => Ending::StillOpen,
        Ending::Closed(end) => Ending::Closed(end.later(instant)),
        Ending::Reset(end) => Ending::Reset(end.later(instant)),
    }
}

/// Finds the ending from the instant `at` on, and before it the rest, or its bytes up to the last of `after` and the
/// ending behind them.
#[inline(always)]
pub(crate) fn look(
    at: &Option<Micros>,
    after: u64,
    ending: &Ending,
    state: &State,
    rest: &Slice,
) -> Look
    requires running { state.now.done ≡ false }
    requires some { rest.now.span.start < rest.now.span.stop }
    ensures finds { (items : List OneItem)
        → Finds (counted (halt_gives at.now after ending.now)) state.now rest.now items result }
    ensures front { IsFrontOf rest.now result }
{
    match at {
        Some(at) if *at <= rest.instant => Look::Ended(raised(ending, *at)),
        _ => look_after(after, ending, state, rest),
    }
}

/// Finds the rest, or its bytes up to the last of `after` and the ending behind them. With 0 it is the rest.
#[inline(always)]
fn look_after(after: u64, ending: &Ending, state: &State, rest: &Slice) -> Look
    requires { rest.now.span.start < rest.now.span.stop }
    ensures finds { FindsAll (halt_after after ending.now state.now (as_chunk rest.now)) rest.now result }
    ensures front { IsFrontOf rest.now result }
{
    if after == 0 {
        return Look::Piece(*rest);
    }
    first_bytes::look(after, &raised(ending, rest.instant), state, rest)
}

/// The ending before the instant `at`, and the halt's own from then on.
pub(crate) fn map_ending(at: &Option<Micros>, last: &Ending, ending: &Ending) -> Ending
    ensures { (after : ℕ) (state : OneState)
        → halt_gives at.now after last.now state (final_of ending.now) ≡ final_of result ∷ [] }
{
    match at {
        Some(at) if !is_before(*at, ending) => raised(last, *at),
        _ => *ending,
    }
}

//! Operations that begin later or stop: outside their time, chunks pass whole, in order and uncounted.
ghost use Rattle.std.specs.Prelude.{◌≡◌, max};
ghost use Rattle.tox_defs.specs.operations.Look.{as_chunk};
ghost use Rattle.tox_defs.specs.operations.During.{is_outside};

use crate::operations::look::Look;
use crate::operations::state::State;
use tox_time::Slice;

/// Whether a rest comes before `from` milliseconds, or at or past `until`. With 0 none does.
#[inline(always)]
pub(crate) fn is_outside(from: u32, until: u32, rest: &Slice) -> bool
    ensures { result ≡ is_outside from until (as_chunk rest.now) }
{
    let instant = rest.instant.get();
    instant < 1000 * u64::from(from) || (until != 0 && 1000 * u64::from(until) <= instant)
}

/// What a look finds for a rest outside the time: all of it, in order.
#[inline(always)]
pub(crate) fn uncounted(state: &State, rest: &Slice) -> Look
    ensures { result ≡ Look.Uncounted (record {
      span = rest.now.span;
      instant = max state.now.previous rest.now.instant;
    }) }
{
    Look::Uncounted(Slice {
        span: rest.span,
        instant: state.previous.later(rest.instant),
    })
}

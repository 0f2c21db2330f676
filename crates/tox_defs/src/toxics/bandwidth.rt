//! bandwidth: limits a connection to `rate` KB/s, which is `rate` bytes in a millisecond, between `from` and `until`.
ghost use Rattle.std.specs.Prelude.{◌≡◌, ◌<◌, List, false, [], ◌∷◌, ◌≤◌, length};
ghost use Rattle.tox_time.specs.declared.streams.item.Item.{Item as OneItem};
ghost use Rattle.tox_defs.specs.DescriptionInside.{description_view};
ghost use Rattle.tox_defs.specs.operations.Look.{Finds, IsFrontOf};
ghost use Rattle.tox_defs.specs.stage.Reaction.{counted};
ghost use Rattle.tox_defs.specs.Toxic.{checked};
ghost use Rattle.tox_defs.specs.toxics.Bandwidth.{bandwidth_description, bandwidth_of, pace_gives};

use crate::attributes::attribute::{Attribute, FROM, UNTIL};
use crate::attributes::description::Description;
use crate::attributes::effect::Effect;
use crate::attributes::limits::ONE_TO_MILLION;
use crate::attributes::unit::Unit;
use crate::attributes::values::{listed, saturated};
use crate::attributes::window::Window;
use crate::operations::look::Look;
use crate::operations::op::Op;
use crate::operations::state::State;
use crate::toxic::Toxic;
use crate::toxics::pieces::front;
use tox_time::Slice;

/// The name, the attributes, and what is known of what it does.
pub(crate) fn description(rate: u32, until: u32, from: u32) -> Description
    ensures described { description_view result ≡ bandwidth_description rate until from }
    ensures few { length result.attributes.now ≤ 5 }
{
    Description {
        name: "bandwidth",
        words: "passes so many kilobytes (of 1000 bytes) a second",
        attributes: &[
            Attribute {
                name: "rate",
                unit: Unit::Kilobytes,
                limits: ONE_TO_MILLION,
                words: "how many pass each second",
            },
            UNTIL,
            FROM,
        ],
        values: listed(&[u64::from(rate), u64::from(until), u64::from(from)]),
        window: Window { from, until },
        effect: Effect {
            needs_data: true,
            ..Effect::ANY
        },
    }
}

/// The bandwidth with these values of its attributes.
pub(crate) fn from_values(values: &[u64]) -> Toxic
    ensures { checked result ≡ checked (bandwidth_of values.now) }
{
    Toxic::Bandwidth {
        rate: saturated(values, 0),
        until: saturated(values, 1),
        from: saturated(values, 2),
    }
}

/// The operation.
pub(crate) fn op(rate: u32, until: u32, from: u32) -> Op
    ensures { result ≡ Op.Pace rate until from }
{
    Op::Pace { rate, until, from }
}

/// Finds a piece of 100 `rate` bytes, or what is left, which leaves once it could have passed.
#[inline(always)]
pub(crate) fn look(rate: u32, state: &State, rest: &Slice) -> Look
    requires rate { 0 < rate }
    requires running { state.now.done ≡ false }
    requires some { rest.now.span.start < rest.now.span.stop }
    ensures finds { (items : List OneItem)
        → Finds (counted (pace_gives rate)) state.now rest.now items result }
    ensures front { IsFrontOf rest.now result }
{
    let span = front(rest, 100 * u64::from(rate));
    let wait = (1000 * (span.stop - span.start)).div_ceil(u64::from(rate));
    Look::Piece(Slice {
        span,
        instant: state.previous.later(rest.instant).after(wait),
    })
}

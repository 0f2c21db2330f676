//! slow_close: delays the closing by `delay` milliseconds.
ghost use Rattle.std.specs.Prelude.{◌≡◌, ◌*◌, ◌<◌, ℕ, List, [], ◌∷◌, false, ◌≤◌, length};
ghost use Rattle.tox_time.specs.declared.streams.item.Item.{Item as OneItem};
ghost use Rattle.tox_time.specs.streams.Table.{final_of};
ghost use Rattle.tox_defs.specs.DescriptionInside.{description_view};
ghost use Rattle.tox_defs.specs.operations.Look.{Finds, IsFrontOf};
ghost use Rattle.tox_defs.specs.stage.Reaction.{counted};
ghost use Rattle.tox_defs.specs.declared.operations.state.State.{State as OneState};
ghost use Rattle.tox_defs.specs.Toxic.{checked};
ghost use Rattle.tox_defs.specs.toxics.SlowClose.{slow_close_description, slow_close_of, slow_gives};

use crate::attributes::attribute::Attribute;
use crate::attributes::description::Description;
use crate::attributes::effect::Effect;
use crate::attributes::limits::UP_TO_HOUR;
use crate::attributes::unit::Unit;
use crate::attributes::values::{listed, saturated};
use crate::attributes::window::Window;
use crate::operations::look::Look;
use crate::operations::op::Op;
use crate::toxic::Toxic;
use tox_time::{Ending, Slice};

/// The name, the attribute, and what is known of what it does.
pub(crate) fn description(delay: u32) -> Description
    ensures described { description_view result ≡ slow_close_description delay }
    ensures few { length result.attributes.now ≤ 5 }
{
    Description {
        name: "slow_close",
        words: "delays the closing",
        attributes: &[Attribute {
            name: "delay",
            unit: Unit::Milliseconds,
            limits: UP_TO_HOUR,
            words: "how much later the link closes",
        }],
        values: listed(&[u64::from(delay)]),
        window: Window::ALWAYS,
        effect: Effect {
            does_nothing: delay == 0,
            ..Effect::ANY
        },
    }
}

/// The slow_close with this value of its attribute.
pub(crate) fn from_values(values: &[u64]) -> Toxic
    ensures { checked result ≡ checked (slow_close_of values.now) }
{
    Toxic::SlowClose {
        delay: saturated(values, 0),
    }
}

/// The operation.
pub(crate) fn op(delay: u32) -> Op
    ensures { result ≡ Op.Slow delay }
{
    Op::Slow { millis: delay }
}

/// Finds the whole rest, unchanged.
#[inline(always)]
pub(crate) fn look(rest: &Slice) -> Look
    requires { rest.now.span.start < rest.now.span.stop }
    ensures finds { (micros : ℕ) (state : OneState) (items : List OneItem) → state.done ≡ false
        → Finds (counted (slow_gives micros)) state rest.now items result }
    ensures front { IsFrontOf rest.now result }
{
    Look::Piece(*rest)
}

/// The ending, where a close comes `millis` later.
pub(crate) fn map_ending(millis: u32, ending: &Ending) -> Ending
    ensures { (state : OneState)
        → slow_gives (1000 * millis) state (final_of ending.now) ≡ final_of result ∷ [] }
{
    match ending {
        Ending::StillOpen => Ending::StillOpen,
        Ending::Closed(instant) => Ending::Closed(instant.after(1000 * u64::from(millis))),
        Ending::Reset(instant) => Ending::Reset(*instant),
    }
}

//! limit_data: closes the connection once `bytes` have passed.
ghost use Rattle.std.specs.Prelude.{◌≡◌, ◌<◌, List, false, [], ◌∷◌, ◌≤◌, length};
ghost use Rattle.tox_time.specs.declared.streams.item.Item.{Item as OneItem};
ghost use Rattle.tox_defs.specs.DescriptionInside.{description_view};
ghost use Rattle.tox_defs.specs.operations.Look.{Finds, IsFrontOf};
ghost use Rattle.tox_defs.specs.stage.Reaction.{counted};
ghost use Rattle.tox_defs.specs.Toxic.{checked};
ghost use Rattle.tox_defs.specs.toxics.LimitData.{limit_data_description, limit_data_of, limit_gives};

use crate::attributes::attribute::Attribute;
use crate::attributes::description::Description;
use crate::attributes::effect::Effect;
use crate::attributes::limits::UP_TO_MAX_BYTES;
use crate::attributes::unit::Unit;
use crate::attributes::values::{listed, value};
use crate::attributes::window::Window;
use crate::operations::look::Look;
use crate::operations::op::Op;
use crate::operations::state::State;
use crate::toxic::Toxic;
use crate::toxics::first_bytes;
use tox_time::{Ending, Slice};

/// The name, the attribute, and what is known of what it does.
pub(crate) fn description(bytes: u64) -> Description
    ensures described { description_view result ≡ limit_data_description bytes }
    ensures few { length result.attributes.now ≤ 5 }
{
    Description {
        name: "limit_data",
        words: "closes the connection after so many bytes",
        attributes: &[Attribute {
            name: "bytes",
            unit: Unit::Bytes,
            limits: UP_TO_MAX_BYTES,
            words: "how many pass before it closes",
        }],
        values: listed(&[bytes]),
        window: Window::ALWAYS,
        effect: Effect::ANY,
    }
}

/// The limit_data with this value of its attribute.
pub(crate) fn from_values(values: &[u64]) -> Toxic
    ensures { checked result ≡ checked (limit_data_of values.now) }
{
    Toxic::LimitData {
        bytes: value(values, 0),
    }
}

/// The operation.
pub(crate) fn op(bytes: u64) -> Op
    ensures { result ≡ Op.Limit bytes }
{
    Op::Limit { bytes }
}

/// Finds the whole rest while it is shorter than the room, and else its first bytes, with a close behind them.
#[inline(always)]
pub(crate) fn look(bytes: u64, state: &State, rest: &Slice) -> Look
    requires running { state.now.done ≡ false }
    requires some { rest.now.span.start < rest.now.span.stop }
    ensures finds { (items : List OneItem)
        → Finds (counted (limit_gives bytes)) state.now rest.now items result }
    ensures front { IsFrontOf rest.now result }
{
    first_bytes::look(bytes, &Ending::Closed(rest.instant), state, rest)
}

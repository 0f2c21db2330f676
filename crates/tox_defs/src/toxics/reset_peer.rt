//! reset_peer: resets the connection `timeout` milliseconds after its start, or behind so many bytes.
ghost use Rattle.std.specs.Prelude.{◌≡◌, ◌<◌, List, [], ◌∷◌, false, ◌≤◌, length};
ghost use Rattle.tox_time.specs.declared.streams.item.Item.{Item as OneItem};
ghost use Rattle.tox_time.specs.streams.Table.{final_of};
ghost use Rattle.tox_defs.specs.DescriptionInside.{description_view};
ghost use Rattle.tox_defs.specs.operations.Look.{Finds, IsFrontOf};
ghost use Rattle.tox_defs.specs.stage.Reaction.{counted};
ghost use Rattle.tox_defs.specs.declared.operations.state.State.{State as OneState};
ghost use Rattle.tox_defs.specs.Toxic.{checked};
ghost use Rattle.tox_defs.specs.toxics.ResetPeer.{cutoff_gives, reset_peer_description, reset_peer_of, reset_peer_op};

use crate::attributes::attribute::Attribute;
use crate::attributes::description::Description;
use crate::attributes::effect::Effect;
use crate::attributes::limits::{UP_TO_HOUR, UP_TO_MAX_BYTES};
use crate::attributes::unit::Unit;
use crate::attributes::values::{listed, saturated, value};
use crate::attributes::window::Window;
use crate::operations::look::Look;
use crate::operations::op::Op;
use crate::toxic::Toxic;
use crate::toxics::halt::is_before;
use tox_time::{Ending, Micros, Slice};

/// The name, the attributes, and what is known of what it does.
pub(crate) fn description(timeout: u32, after: u64) -> Description
    ensures described { description_view result ≡ reset_peer_description timeout after }
    ensures few { length result.attributes.now ≤ 5 }
{
    Description {
        name: "reset_peer",
        words: "resets the connection after a time",
        attributes: &[
            Attribute {
                name: "timeout",
                unit: Unit::Milliseconds,
                limits: UP_TO_HOUR,
                words: "when the connection is reset",
            },
            Attribute {
                name: "after",
                unit: Unit::Bytes,
                limits: UP_TO_MAX_BYTES,
                words: "resets behind so many bytes, and not before that time; 0: at that time",
            },
        ],
        values: listed(&[u64::from(timeout), after]),
        window: Window::ALWAYS,
        effect: Effect::ANY,
    }
}

/// The reset_peer with these values of its attributes.
pub(crate) fn from_values(values: &[u64]) -> Toxic
    ensures { checked result ≡ checked (reset_peer_of values.now) }
{
    Toxic::ResetPeer {
        timeout: saturated(values, 0),
        after: value(values, 1),
    }
}

/// The operation. With `after` it is a halt, which no instant begins.
pub(crate) fn op(timeout: u32, after: u64) -> Op
    ensures { result ≡ reset_peer_op timeout after }
{
    let instant = Micros::from_millis(u64::from(timeout));
    if after == 0 {
        return Op::Cutoff { instant };
    }
    Op::Halt {
        at: None,
        after,
        ending: Ending::Reset(instant),
    }
}

/// Finds the whole rest before the instant, and a reset from then on.
#[inline(always)]
pub(crate) fn look(limit: Micros, rest: &Slice) -> Look
    requires { rest.now.span.start < rest.now.span.stop }
    ensures finds { (state : OneState) (items : List OneItem) → state.done ≡ false
        → Finds (counted (cutoff_gives limit)) state rest.now items result }
    ensures front { IsFrontOf rest.now result }
{
    if rest.instant < limit {
        Look::Piece(*rest)
    } else {
        Look::Ended(Ending::Reset(limit))
    }
}

/// The ending before the instant, and a reset from then on.
pub(crate) fn map_ending(limit: Micros, ending: &Ending) -> Ending
    ensures { (state : OneState)
        → cutoff_gives limit state (final_of ending.now) ≡ final_of result ∷ [] }
{
    if is_before(limit, ending) {
        *ending
    } else {
        Ending::Reset(limit)
    }
}

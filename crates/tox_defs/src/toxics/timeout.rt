//! timeout: stops all data, from the start or later, and closes after `timeout` milliseconds, or never with 0.
ghost use Rattle.std.specs.Prelude.{◌≡◌, [], ◌∷◌, ◌≤◌, length};
ghost use Rattle.tox_defs.specs.DescriptionInside.{description_view};
ghost use Rattle.tox_defs.specs.Toxic.{checked};
ghost use Rattle.tox_defs.specs.toxics.Timeout.{timeout_description, timeout_ending, timeout_of, timeout_op, timeout_start};

use crate::attributes::attribute::{Attribute, FROM};
use crate::attributes::description::Description;
use crate::attributes::effect::Effect;
use crate::attributes::limits::{UP_TO_HOUR, UP_TO_MAX_BYTES};
use crate::attributes::unit::Unit;
use crate::attributes::values::{listed, saturated, value};
use crate::attributes::window::Window;
use crate::operations::op::Op;
use crate::toxic::Toxic;
use tox_time::{Ending, Micros};

/// The name, the attributes, and what is known of what it does.
pub(crate) fn description(timeout: u32, from: u32, after: u64) -> Description
    ensures described { description_view result ≡ timeout_description timeout from after }
    ensures few { length result.attributes.now ≤ 5 }
{
    Description {
        name: "timeout",
        words: "drops all data, and closes after a time",
        attributes: &[
            Attribute {
                name: "timeout",
                unit: Unit::Milliseconds,
                limits: UP_TO_HOUR,
                words: "when the link closes; 0: never",
            },
            FROM,
            Attribute {
                name: "after",
                unit: Unit::Bytes,
                limits: UP_TO_MAX_BYTES,
                words: "begins behind so many bytes, if that is sooner; 0: not for their sake",
            },
        ],
        values: listed(&[u64::from(timeout), u64::from(from), after]),
        window: Window::ALWAYS,
        effect: Effect {
            drops_data: from == 0 && after == 0,
            ..Effect::ANY
        },
    }
}

/// The timeout with these values of its attributes.
pub(crate) fn from_values(values: &[u64]) -> Toxic
    ensures { checked result ≡ checked (timeout_of values.now) }
{
    Toxic::Timeout {
        timeout: saturated(values, 0),
        from: saturated(values, 1),
        after: value(values, 2),
    }
}

/// The operation: a mute, which drops all data and gives its own ending for any other. With `from` or `after` it is a halt.
pub(crate) fn op(timeout: u32, from: u32, after: u64) -> Op
    ensures { result ≡ timeout_op timeout from after }
{
    let ending = ending(timeout);
    if from == 0 && after == 0 {
        return Op::Mute { ending };
    }
    Op::Halt {
        at: start(from),
        after,
        ending,
    }
}

/// How the link ends: with 0 it doesn't.
fn ending(timeout: u32) -> Ending
    ensures { result ≡ timeout_ending timeout }
{
    if timeout == 0 {
        return Ending::StillOpen;
    }
    Ending::Closed(Micros::from_millis(u64::from(timeout)))
}

/// The instant of its start: with 0 it has none.
fn start(from: u32) -> Option<Micros>
    ensures { result ≡ timeout_start from }
{
    if from == 0 {
        return None;
    }
    Some(Micros::from_millis(u64::from(from)))
}

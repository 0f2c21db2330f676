//! latency: delays all data by `latency` plus or minus `jitter`, both in milliseconds, between `from` and `until`.
ghost use Rattle.std.specs.Prelude.{◌≡◌, ◌+◌, ◌<◌, ◌^◌, List, false, [], ◌∷◌, ◌≤◌, length};
ghost use Rattle.tox_time.specs.declared.streams.item.Item.{Item as OneItem};
ghost use Rattle.tox_words.specs.Draw.{draws_of};
ghost use Rattle.tox_defs.specs.DescriptionInside.{description_view};
ghost use Rattle.tox_defs.specs.operations.Look.{Finds, IsFrontOf};
ghost use Rattle.tox_defs.specs.stage.Reaction.{counted};
ghost use Rattle.tox_defs.specs.Toxic.{checked};
ghost use Rattle.tox_defs.specs.toxics.Latency.{delay_of, delay_op_gives, latency_description, latency_of};

use crate::attributes::attribute::{Attribute, FROM, UNTIL};
use crate::attributes::description::Description;
use crate::attributes::effect::Effect;
use crate::attributes::limits::UP_TO_HOUR;
use crate::attributes::unit::Unit;
use crate::attributes::values::{listed, saturated};
use crate::attributes::window::Window;
use crate::operations::look::Look;
use crate::operations::op::Op;
use crate::operations::state::State;
use crate::toxic::Toxic;
use crate::toxics::varied::varied;
use tox_time::Slice;
use tox_words::Drawing;

/// The name, the attributes, and what is known of what it does.
pub(crate) fn description(latency: u32, jitter: u32, until: u32, from: u32) -> Description
    ensures described { description_view result ≡ latency_description latency jitter until from }
    ensures few { length result.attributes.now ≤ 5 }
{
    Description {
        name: "latency",
        words: "delays all data by latency plus or minus jitter",
        attributes: &[
            Attribute {
                name: "latency",
                unit: Unit::Milliseconds,
                limits: UP_TO_HOUR,
                words: "how much later data leaves",
            },
            Attribute {
                name: "jitter",
                unit: Unit::Milliseconds,
                limits: UP_TO_HOUR,
                words: "each piece leaves up to so much earlier or later than that",
            },
            UNTIL,
            FROM,
        ],
        values: listed(&[
            u64::from(latency),
            u64::from(jitter),
            u64::from(until),
            u64::from(from),
        ]),
        window: Window { from, until },
        effect: Effect {
            does_nothing: latency == 0 && jitter == 0,
            ..Effect::ANY
        },
    }
}

/// The latency with these values of its attributes.
pub(crate) fn from_values(values: &[u64]) -> Toxic
    ensures { checked result ≡ checked (latency_of values.now) }
{
    Toxic::Latency {
        latency: saturated(values, 0),
        jitter: saturated(values, 1),
        until: saturated(values, 2),
        from: saturated(values, 3),
    }
}

/// The operation at a place. Without jitter all stands in the fixed part, and nothing is drawn.
pub(crate) fn op(latency: u32, jitter: u32, until: u32, from: u32, place: usize) -> Op
    ensures { result ≡ delay_of place latency jitter until from }
{
    if jitter == 0 {
        return Op::Delay {
            fixed: latency,
            latency: 0,
            jitter: 0,
            lane: 0,
            until,
            from,
        };
    }
    Op::Delay {
        fixed: 0,
        latency,
        jitter,
        lane: place,
        until,
        from,
    }
}

/// Finds the whole rest, later by the wait of the chunk.
#[inline(always)]
pub(crate) fn look(
    fixed: u32,
    latency: u32,
    jitter: u32,
    lane: usize,
    state: &State,
    rest: &Slice,
    drawing: &Drawing<'_>,
) -> Look
    requires running { state.now.done ≡ false }
    requires some { rest.now.span.start < rest.now.span.stop }
    requires chunks { state.now.chunks + 1 < 2 ^ 64 }
    ensures finds { (items : List OneItem)
        → Finds (counted (delay_op_gives fixed latency jitter (draws_of drawing.now lane)))
        state.now rest.now items result }
    ensures front { IsFrontOf rest.now result }
{
    let wait = u64::from(fixed) + varied(drawing, lane, state.chunks, latency, jitter);
    Look::Piece(Slice {
        span: rest.span,
        instant: state.previous.later(rest.instant.after(1000 * wait)),
    })
}

//! slicer: cuts data into pieces near `average_size` bytes, varied by `size_variation`, with `delay` microseconds before each.
ghost use Rattle.std.specs.Prelude.{◌≡◌, ◌+◌, ◌<◌, ◌^◌, List, false, [], ◌∷◌, ◌≤◌, length};
ghost use Rattle.tox_time.specs.declared.streams.item.Item.{Item as OneItem};
ghost use Rattle.tox_words.specs.Draw.{draws_of};
ghost use Rattle.tox_defs.specs.DescriptionInside.{description_view};
ghost use Rattle.tox_defs.specs.operations.Look.{Finds, IsFrontOf};
ghost use Rattle.tox_defs.specs.stage.Reaction.{counted};
ghost use Rattle.tox_defs.specs.Toxic.{checked};
ghost use Rattle.tox_defs.specs.toxics.Slicer.{is_slicer_varied_too_much, slicer_description, slicer_gives, slicer_of};

use crate::attributes::attribute::{Attribute, FROM, UNTIL};
use crate::attributes::description::Description;
use crate::attributes::effect::Effect;
use crate::attributes::limits::{ANY_VALUE, Limits, ONE_TO_MILLION};
use crate::attributes::unit::Unit;
use crate::attributes::values::{listed, saturated, value};
use crate::attributes::window::Window;
use crate::operations::look::Look;
use crate::operations::op::Op;
use crate::operations::state::State;
use crate::toxic::Toxic;
use crate::toxics::pieces::front;
use crate::toxics::varied::varied;
use tox_time::Slice;
use tox_words::Drawing;

/// The delay before a piece: up to an hour, in microseconds.
const UP_TO_HOUR_IN_MICROS: Limits = Limits {
    least: 0,
    most: 3_600_000_000,
};

/// The name, the attributes, and what is known of what it does.
pub(crate) fn description(
    average_size: u32,
    size_variation: u32,
    delay: u64,
    until: u32,
    from: u32,
) -> Description
    ensures described { description_view result
        ≡ slicer_description average_size size_variation delay until from }
    ensures few { length result.attributes.now ≤ 5 }
{
    Description {
        name: "slicer",
        words: "cuts data into pieces, with a wait before each",
        attributes: &[
            Attribute {
                name: "average_size",
                unit: Unit::Bytes,
                limits: ONE_TO_MILLION,
                words: "the size of a piece",
            },
            Attribute {
                name: "size_variation",
                unit: Unit::Bytes,
                limits: ANY_VALUE,
                words: "a piece has up to so many bytes more or fewer; below average_size",
            },
            Attribute {
                name: "delay",
                unit: Unit::Microseconds,
                limits: UP_TO_HOUR_IN_MICROS,
                words: "the wait before each piece",
            },
            UNTIL,
            FROM,
        ],
        values: listed(&[
            u64::from(average_size),
            u64::from(size_variation),
            delay,
            u64::from(until),
            u64::from(from),
        ]),
        window: Window { from, until },
        effect: Effect {
            needs_data: true,
            only_cuts: delay == 0,
            ..Effect::ANY
        },
    }
}

/// The slicer with these values of its attributes.
pub(crate) fn from_values(values: &[u64]) -> Toxic
    ensures { checked result ≡ checked (slicer_of values.now) }
{
    Toxic::Slicer {
        average_size: saturated(values, 0),
        size_variation: saturated(values, 1),
        delay: value(values, 2),
        until: saturated(values, 3),
        from: saturated(values, 4),
    }
}

/// Whether sizes vary by their average or more.
pub(crate) fn is_varied_too_much(average_size: u32, size_variation: u32) -> bool
    ensures { result ≡ is_slicer_varied_too_much average_size size_variation }
{
    average_size <= size_variation
}

/// The operation at a place.
pub(crate) fn op(
    average_size: u32,
    size_variation: u32,
    delay: u64,
    until: u32,
    from: u32,
    place: usize,
) -> Op
    ensures { result ≡ Op.Slicing average_size size_variation delay place until from }
{
    Op::Slicing {
        average: average_size,
        variation: size_variation,
        micros: delay,
        lane: place,
        until,
        from,
    }
}

/// Finds a piece of a drawn size, or what is left, `micros` after the one before.
#[inline(always)]
pub(crate) fn look(
    average: u32,
    variation: u32,
    micros: u64,
    lane: usize,
    state: &State,
    rest: &Slice,
    drawing: &Drawing<'_>,
) -> Look
    requires sizes { variation < average }
    requires running { state.now.done ≡ false }
    requires some { rest.now.span.start < rest.now.span.stop }
    requires pieces { state.now.pieces + 1 < 2 ^ 64 }
    ensures finds { (items : List OneItem)
        → Finds (counted (slicer_gives average variation micros (draws_of drawing.now lane)))
        state.now rest.now items result }
    ensures front { IsFrontOf rest.now result }
{
    Look::Piece(Slice {
        span: front(
            rest,
            varied(drawing, lane, state.pieces, average, variation),
        ),
        instant: state.previous.later(rest.instant).after(micros),
    })
}

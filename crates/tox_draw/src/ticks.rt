//! The lines and the values of the two axes.
ghost use Rattle.std.specs.Prelude.{◌≤◌, OnOk};
ghost use Rattle.tox_draw.specs.Adding.{AddsText};
ghost use Rattle.tox_draw.specs.Axes.{IsAxis};
ghost use Rattle.tox_draw.specs.Frames.{IsFrame};
ghost use Rattle.tox_draw.specs.Ticks.{byte_tick, byte_ticks, grid, label, time_tick, time_ticks, unit_text};

use crate::axis::{Axis, part_of};
use crate::frame::Frame;
use crate::marks::push_vertical;
use crate::parts::{push_text_end, push_text_start};
use crate::path::LEFT;
use crate::unit::{Unit, push_figure};
use std::alloc::AllocError;

#[tactic(auto, using(crate::proofs::Firsts::firsts_next))]
/// Adds the values of the axis of bytes, and a line for each above 0.
pub(crate) fn push_byte_ticks(text: &mut String, frame: &Frame) -> Result<(), AllocError>
    requires { IsFrame frame.now }
    ensures { OnOk result (AddsText text.old text.new (byte_ticks frame.now)) }
{
    for index in 0..frame.bytes.count + 1 {
        push_byte_tick(text, frame, index)?;
    }
    Ok(())
}

#[tactic(auto, using(crate::proofs::Growing::adds_then), unfolding(crate::specs::Ticks::byte_tick))]
/// Adds a value of the axis of bytes, and its line if it is above 0.
fn push_byte_tick(text: &mut String, frame: &Frame, index: u64) -> Result<(), AllocError>
    requires frame { IsFrame frame.now }
    requires within { index ≤ frame.now.bytes.count }
    ensures { OnOk result (AddsText text.old text.new (byte_tick frame.now index)) }
{
    let y = frame
        .base
        .saturating_sub(part_of(index, frame.bytes.count, 320));
    push_grid(text, index, y)?;
    push_text_start(text, "end", 54, y + 4)?;
    push_label(text, &frame.bytes, index, Unit::of_bytes(frame.bytes.end))
}

#[tactic(auto, unfolding(crate::specs::Ticks::grid))]
/// Adds a line at a y, but for the first value.
fn push_grid(text: &mut String, index: u64, y: u64) -> Result<(), AllocError>
    ensures { OnOk result (AddsText text.old text.new (grid index y)) }
{
    if index != 0 {
        writeln!(text, "<path class=\"grid\" d=\"M64 {y}H814\"/>")?;
    }
    Ok(())
}

#[tactic(auto, using(crate::proofs::Firsts::firsts_next))]
/// Adds the values of the axis of time, and a mark for each.
pub(crate) fn push_time_ticks(text: &mut String, frame: &Frame) -> Result<(), AllocError>
    requires { IsFrame frame.now }
    ensures { OnOk result (AddsText text.old text.new (time_ticks frame.now)) }
{
    for index in 0..frame.time.count + 1 {
        push_time_tick(text, frame, index)?;
    }
    Ok(())
}

#[tactic(auto, using(crate::proofs::Growing::adds_then), unfolding(crate::specs::Ticks::time_tick))]
/// Adds a value of the axis of time, and its mark below the base.
fn push_time_tick(text: &mut String, frame: &Frame, index: u64) -> Result<(), AllocError>
    requires frame { IsFrame frame.now }
    requires within { index ≤ frame.now.time.count }
    ensures { OnOk result (AddsText text.old text.new (time_tick frame.now index)) }
{
    let x = LEFT + part_of(index, frame.time.count, 750);
    push_vertical(text, x, frame.base, frame.base + 5)?;
    push_text_start(text, "mid", x, frame.base + 22)?;
    push_label(text, &frame.time, index, Unit::of_time(frame.time.end))
}

#[tactic(auto, using(crate::proofs::Growing::adds_then), unfolding(crate::specs::Ticks::label))]
/// Adds the value at a place of an axis, in a unit. The last one names it.
fn push_label(text: &mut String, axis: &Axis, index: u64, unit: Unit) -> Result<(), AllocError>
    requires axis { IsAxis axis.now }
    requires within { index ≤ axis.now.count }
    ensures { OnOk result (AddsText text.old text.new (label axis.now index unit)) }
{
    push_figure(text, index * axis.step, unit)?;
    push_unit(text, index == axis.count, unit)?;
    push_text_end(text)
}

/// Adds a unit's name at the last value.
fn push_unit(text: &mut String, last: bool, unit: Unit) -> Result<(), AllocError>
    ensures { OnOk result (AddsText text.old text.new (unit_text last unit)) }
{
    if last {
        let name = unit.name();
        write!(text, " {name}")?;
    }
    Ok(())
}

//! The lines, areas and marks of a picture.
ghost use Rattle.std.specs.Prelude.{◌≤◌, ◌<◌, length, OnOk};
ghost use Rattle.tox_draw.specs.Adding.{AddsText};
ghost use Rattle.tox_draw.specs.Frames.{IsFrame};
ghost use Rattle.tox_draw.specs.Marks.{arrow, area_path, base_line, cross, end_line, end_mark, line_path, source_mark, stroke, vertical};

use crate::frame::Frame;
use crate::link_end::LinkEnd;
use crate::parts::{push_circle, push_line, push_move, push_path_end, push_path_start};
use crate::path::{push_area, push_steps};
use std::alloc::AllocError;
use tox_time::Micros;

/// Adds the path of a line up to a column.
#[tactic(auto, using(crate::proofs::Growing::adds_then), unfolding(crate::specs::Marks::line_path))]
pub(crate) fn push_line_path(
    text: &mut String,
    class: &str,
    ys: &[u16],
    end: usize,
    base: u64,
) -> Result<(), AllocError>
    requires { end < length ys.now }
    ensures { OnOk result (AddsText text.old text.new (line_path class.now ys.now end base)) }
{
    push_path_start(text, class)?;
    push_steps(text, ys, end, base)?;
    push_path_end(text)
}

/// Adds the path of the area of two lines up to a column.
#[tactic(auto, using(crate::proofs::Growing::adds_then), unfolding(crate::specs::Marks::area_path))]
pub(crate) fn push_area_path(
    text: &mut String,
    class: &str,
    first: &[u16],
    second: &[u16],
    end: usize,
    base: u64,
) -> Result<(), AllocError>
    requires first { end < length first.now }
    requires second { end < length second.now }
    ensures { OnOk result
        (AddsText text.old text.new (area_path class.now first.now second.now end base)) }
{
    push_path_start(text, class)?;
    push_area(text, first, second, end, base)?;
    push_path_end(text)
}

/// Adds the base of the plot.
#[tactic(auto, unfolding(crate::specs::Marks::base_line))]
pub(crate) fn push_base_line(text: &mut String, base: u64) -> Result<(), AllocError>
    ensures { OnOk result (AddsText text.old text.new (base_line base)) }
{
    writeln!(text, "<path class=\"axis\" d=\"M64 {base}H814\"/>")
}

/// Adds the vertical line of an end, unless it is open.
pub(crate) fn push_end_line(
    text: &mut String,
    frame: &Frame,
    end: &LinkEnd,
) -> Result<(), AllocError>
    requires { IsFrame frame.now }
    ensures { OnOk result (AddsText text.old text.new (end_line frame.now end.now)) }
{
    if let LinkEnd::Open = end {
        return Ok(());
    }
    push_vertical(text, frame.x_of(&end.instant()), frame.top, frame.base)
}

#[tactic(auto, unfolding(crate::specs::Marks::vertical))]
/// Adds a vertical line.
pub(crate) fn push_vertical(
    text: &mut String,
    x: u64,
    top: u64,
    base: u64,
) -> Result<(), AllocError>
    ensures { OnOk result (AddsText text.old text.new (vertical x top base)) }
{
    writeln!(text, "<path class=\"axis\" d=\"M{x} {top}V{base}\"/>")
}

/// Adds the mark of the source's end, if it ended.
pub(crate) fn push_source_mark(
    text: &mut String,
    frame: &Frame,
    source_end: &Option<Micros>,
    arrived: u64,
) -> Result<(), AllocError>
    requires frame { IsFrame frame.now }
    requires few { arrived ≤ 1_099_511_627_776 }
    ensures { OnOk result
        (AddsText text.old text.new (source_mark frame.now source_end.now arrived)) }
{
    if source_end.is_none() {
        return Ok(());
    }
    push_circle(text, "arrived", frame.x_of(source_end), frame.y_of(arrived))
}

/// Adds the mark of an end at a point.
pub(crate) fn push_end_mark(
    text: &mut String,
    end: &LinkEnd,
    x: u64,
    y: u64,
) -> Result<(), AllocError>
    requires right { x ≤ 814 }
    requires low { y ≤ 436 }
    ensures { OnOk result (AddsText text.old text.new (end_mark end.now x y)) }
{
    match end {
        LinkEnd::Open => push_arrow(text, x, y),
        LinkEnd::Closed(_) => push_circle(text, "mark", x, y),
        LinkEnd::Reset(_) | LinkEnd::Broken(_) | LinkEnd::Missing(_) => push_cross(text, x, y),
    }
}

/// Adds an arrow to the right.
#[tactic(auto, using(crate::proofs::Growing::adds_then), unfolding(crate::specs::Marks::arrow))]
fn push_arrow(text: &mut String, x: u64, y: u64) -> Result<(), AllocError>
    requires right { x ≤ 814 }
    requires low { y ≤ 436 }
    ensures { OnOk result (AddsText text.old text.new (arrow x y)) }
{
    push_path_start(text, "mark")?;
    push_move(text, x, y.saturating_sub(5))?;
    push_line(text, x + 5, y)?;
    push_line(text, x, y + 5)?;
    push_path_end(text)
}

/// Adds a cross.
#[tactic(auto, using(crate::proofs::Growing::adds_then), unfolding(crate::specs::Marks::cross))]
fn push_cross(text: &mut String, x: u64, y: u64) -> Result<(), AllocError>
    requires right { x ≤ 814 }
    requires low { y ≤ 436 }
    ensures { OnOk result (AddsText text.old text.new (cross x y)) }
{
    push_path_start(text, "mark")?;
    push_stroke(text, x, y.saturating_sub(5), y + 5)?;
    push_stroke(text, x, y + 5, y.saturating_sub(5))?;
    push_path_end(text)
}

/// Adds a stroke of a cross, from the left to the right of an x.
#[tactic(auto, using(crate::proofs::Growing::adds_then), unfolding(crate::specs::Marks::stroke))]
fn push_stroke(text: &mut String, x: u64, first: u64, last: u64) -> Result<(), AllocError>
    requires { x ≤ 814 }
    ensures { OnOk result (AddsText text.old text.new (stroke x first last)) }
{
    push_move(text, x.saturating_sub(5), first)?;
    push_line(text, x + 5, last)
}

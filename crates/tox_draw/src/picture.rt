//! The whole text of a picture.
ghost use Rattle.std.specs.Prelude.{◌≡◌, ◌≤◌, length, string_bytes, IfOk, OnOk};
ghost use Rattle.std.specs.Option.{ForSome};
ghost use Rattle.tox_draw.specs.Adding.{AddsText};
ghost use Rattle.tox_draw.specs.Frames.{IsFrame};
ghost use Rattle.tox_draw.specs.Pictures.{areas, axes, below, both_lines, drawing, held_place, labels, labels_of_both, labels_of_left, late_area, late_word, left_lines, lines, marks, picture_text, shown_total, words};

use crate::curve::Curve;
use crate::frame::Frame;
use crate::front::push_front;
use crate::labels::{push_arrived_label, push_count_label, push_end_label, push_word_at};
use crate::link_end::LinkEnd;
use crate::marks::{
    push_area_path, push_base_line, push_end_line, push_end_mark, push_line_path, push_source_mark,
};
use crate::parts::push_word;
use crate::place::{Point, place_of};
use crate::setting::Setting;
use crate::ticks::{push_byte_ticks, push_time_ticks};
use std::alloc::{AllocError, Global};
use tox_time::Micros;

/// What a picture shows.
#[derive(Drop)]
pub(crate) struct Picture {
    pub(crate) setting: Setting,
    /// The short forms of the toxics.
    pub(crate) forms: Vec<String>,
    /// The lines of the heading.
    pub(crate) heading: String,
    pub(crate) frame: Frame,
    pub(crate) source_end: Option<Micros>,
    /// Whether the source's end was a reset by its peer.
    pub(crate) source_reset: bool,
    pub(crate) arrived: Curve,
    /// What leaves by the plan, and its ending.
    pub(crate) planned: Curve,
    pub(crate) planned_end: LinkEnd,
    /// What a log says was written, and how its stream ended.
    pub(crate) written: Option<Curve>,
    pub(crate) end: LinkEnd,
}

/// The text of a picture.
pub(crate) fn picture_text(alloc: Global, picture: &Picture) -> Result<String, AllocError>
    requires { IsFrame picture.now.frame }
    ensures { IfOk result (λ text. string_bytes text ≡ picture_text picture.now) }
{
    let mut text = String::new(alloc);
    push_picture(alloc, &mut text, picture)?;
    Ok(text)
}

#[tactic(auto, using(crate::proofs::Growing::adds_then), unfolding(crate::specs::Pictures::picture_text))]
fn push_picture(alloc: Global, text: &mut String, picture: &Picture) -> Result<(), AllocError>
    requires { IsFrame picture.now.frame }
    ensures { OnOk result (AddsText text.old text.new (picture_text picture.now)) }
{
    push_front(text, picture)?;
    push_axes(text, picture)?;
    push_drawing(alloc, text, picture)?;
    push_word(text, "</svg>\n")
}

/// Adds the heading and the axes.
#[tactic(auto, using(crate::proofs::Growing::adds_then), unfolding(crate::specs::Pictures::axes))]
fn push_axes(text: &mut String, picture: &Picture) -> Result<(), AllocError>
    requires { IsFrame picture.now.frame }
    ensures { OnOk result (AddsText text.old text.new (axes picture.now)) }
{
    push_word(text, picture.heading.as_str())?;
    push_byte_ticks(text, &picture.frame)?;
    push_time_ticks(text, &picture.frame)
}

/// Adds all that is drawn.
#[tactic(auto, using(crate::proofs::Growing::adds_then), unfolding(crate::specs::Pictures::drawing))]
fn push_drawing(alloc: Global, text: &mut String, picture: &Picture) -> Result<(), AllocError>
    requires { IsFrame picture.now.frame }
    ensures { OnOk result (AddsText text.old text.new (drawing picture.now)) }
{
    push_areas(text, picture)?;
    push_lines(text, picture)?;
    push_marks(text, picture)?;
    push_words(alloc, text, picture)?;
    push_labels(alloc, text, picture)
}

/// Adds the areas.
#[tactic(auto, using(crate::proofs::Growing::adds_then), unfolding(crate::specs::Pictures::areas))]
fn push_areas(text: &mut String, picture: &Picture) -> Result<(), AllocError>
    requires { IsFrame picture.now.frame }
    ensures { OnOk result (AddsText text.old text.new (areas picture.now)) }
{
    let frame = &picture.frame;
    let due_end = frame.column_of(&picture.planned_end.instant());
    let arrived = &picture.arrived.ys;
    push_area_path(
        text,
        "held",
        arrived,
        &picture.planned.ys,
        due_end,
        frame.base,
    )?;
    push_late_area(text, picture)
}

/// Adds the area of what was due and not yet written.
fn push_late_area(text: &mut String, picture: &Picture) -> Result<(), AllocError>
    requires { IsFrame picture.now.frame }
    ensures { OnOk result
        (AddsText text.old text.new (late_area picture.now picture.now.written)) }
{
    let frame = &picture.frame;
    match &picture.written {
        Some(written) => {
            let end = frame.column_of(&picture.end.instant());
            let planned = &picture.planned.ys;
            push_area_path(text, "late", planned, &written.ys, end, frame.base)
        }
        None => Ok(()),
    }
}

/// Adds the axes and the lines.
#[tactic(auto, using(crate::proofs::Growing::adds_then), unfolding(crate::specs::Pictures::lines))]
fn push_lines(text: &mut String, picture: &Picture) -> Result<(), AllocError>
    requires { IsFrame picture.now.frame }
    ensures { OnOk result (AddsText text.old text.new (lines picture.now)) }
{
    let frame = &picture.frame;
    push_base_line(text, frame.base)?;
    push_end_line(text, frame, &picture.end)?;
    push_left_lines(text, picture)?;
    let source_end = frame.column_of(&picture.source_end);
    push_line_path(text, "arrived", &picture.arrived.ys, source_end, frame.base)
}

/// Adds the line of what left, or those of what was due and of what was written.
fn push_left_lines(text: &mut String, picture: &Picture) -> Result<(), AllocError>
    requires { IsFrame picture.now.frame }
    ensures { OnOk result
        (AddsText text.old text.new (left_lines picture.now picture.now.written)) }
{
    let frame = &picture.frame;
    match &picture.written {
        Some(written) => push_both_lines(text, picture, written),
        None => {
            let due_end = frame.column_of(&picture.planned_end.instant());
            push_line_path(text, "left", &picture.planned.ys, due_end, frame.base)
        }
    }
}

/// Adds the lines of what was due and of what was written.
#[tactic(auto, using(crate::proofs::Growing::adds_then), unfolding(crate::specs::Pictures::both_lines))]
fn push_both_lines(text: &mut String, picture: &Picture, written: &Curve) -> Result<(), AllocError>
    requires { IsFrame picture.now.frame }
    ensures { OnOk result (AddsText text.old text.new (both_lines picture.now written.now)) }
{
    let frame = &picture.frame;
    let due_end = frame.column_of(&picture.planned_end.instant());
    push_line_path(text, "due", &picture.planned.ys, due_end, frame.base)?;
    let end = frame.column_of(&picture.end.instant());
    push_line_path(text, "written", &written.ys, end, frame.base)
}

/// Adds the marks of both ends.
#[tactic(auto, using(crate::proofs::Growing::adds_then), unfolding(crate::specs::Pictures::marks))]
fn push_marks(text: &mut String, picture: &Picture) -> Result<(), AllocError>
    requires { IsFrame picture.now.frame }
    ensures { OnOk result (AddsText text.old text.new (marks picture.now)) }
{
    let frame = &picture.frame;
    push_source_mark(text, frame, &picture.source_end, picture.arrived.total)?;
    let x = frame.x_of(&picture.end.instant());
    let y = frame.y_of(shown_total(&picture.planned, &picture.written));
    push_end_mark(text, &picture.end, x, y)
}

/// How many bytes left, or were written.
fn shown_total(planned: &Curve, written: &Option<Curve>) -> u64
    ensures value { result ≡ shown_total planned.now.total written.now }
    ensures few { result ≤ 1_099_511_627_776 }
{
    match written {
        Some(written) => written.total,
        None => planned.total,
    }
}

/// Adds the words in the areas.
#[tactic(auto, using(crate::proofs::Growing::adds_then), unfolding(crate::specs::Pictures::words))]
fn push_words(alloc: Global, text: &mut String, picture: &Picture) -> Result<(), AllocError>
    requires { IsFrame picture.now.frame }
    ensures { OnOk result (AddsText text.old text.new (words picture.now)) }
{
    let due_end = picture.frame.column_of(&picture.planned_end.instant());
    let place = held_place(alloc, &picture.arrived.ys, &picture.planned.ys, due_end)?;
    push_word_at(text, "mid", &place, "held")?;
    push_late_word(alloc, text, picture)
}

/// Adds the word in the area of what was due and not yet written.
fn push_late_word(alloc: Global, text: &mut String, picture: &Picture) -> Result<(), AllocError>
    requires { IsFrame picture.now.frame }
    ensures { OnOk result
        (AddsText text.old text.new (late_word picture.now picture.now.written)) }
{
    match &picture.written {
        Some(written) => {
            let end = picture.frame.column_of(&picture.end.instant());
            let place = place_of(alloc, &picture.planned.ys, &written.ys, end, 20, 20)?;
            push_word_at(text, "mark mid", &place, "late")
        }
        None => Ok(()),
    }
}

/// The place of the word in the area of what is held: the widest of three that there is room for.
fn held_place(
    alloc: Global,
    arrived: &[u16],
    planned: &[u16],
    end: usize,
) -> Result<Option<Point>, AllocError>
    requires arrived { length arrived.now ≡ 751 }
    requires planned { length planned.now ≡ 751 }
    requires within { end ≤ 750 }
    ensures value { IfOk result (λ place. place ≡ held_place arrived.now planned.now end) }
    ensures near { IfOk result (λ place. ForSome place (λ point. point.y ≤ 131_072)) }
{
    if let Some(point) = place_of(alloc, arrived, planned, end, 96, 80)? {
        return Ok(Some(point));
    }
    if let Some(point) = place_of(alloc, arrived, planned, end, 64, 50)? {
        return Ok(Some(point));
    }
    place_of(alloc, arrived, planned, end, 32, 22)
}

/// Adds the labels.
#[tactic(auto, unfolding(crate::specs::Pictures::labels))]
fn push_labels(alloc: Global, text: &mut String, picture: &Picture) -> Result<(), AllocError>
    requires { IsFrame picture.now.frame }
    ensures { OnOk result (AddsText text.old text.new (labels picture.now)) }
{
    let frame = &picture.frame;
    let x = frame.x_of(&picture.end.instant()) + 9;
    match &picture.written {
        Some(written) => {
            let y = below(frame, written.total, 38);
            push_labels_of_both(alloc, text, picture, written, x, y)
        }
        None => {
            let y = below(frame, picture.planned.total, 22);
            push_labels_of_left(alloc, text, picture, x, y)
        }
    }
}

/// Adds the labels where what was due and what was written are shown.
#[tactic(auto, using(crate::proofs::Growing::adds_then), unfolding(crate::specs::Pictures::labels_of_both))]
fn push_labels_of_both(
    alloc: Global,
    text: &mut String,
    picture: &Picture,
    written: &Curve,
    x: u64,
    y: u64,
) -> Result<(), AllocError>
    requires frame { IsFrame picture.now.frame }
    requires low { y ≤ 454 }
    ensures { OnOk result
        (AddsText text.old text.new (labels_of_both picture.now written.now x y)) }
{
    push_arrived_label(alloc, text, picture, 56)?;
    push_count_label(text, "due halo", "due", x, y, picture.planned.total)?;
    push_count_label(text, "written halo", "written", x, y + 16, written.total)?;
    push_end_label(text, &picture.end, x, y + 32)
}

/// Adds the labels where what left is shown.
#[tactic(auto, using(crate::proofs::Growing::adds_then), unfolding(crate::specs::Pictures::labels_of_left))]
fn push_labels_of_left(
    alloc: Global,
    text: &mut String,
    picture: &Picture,
    x: u64,
    y: u64,
) -> Result<(), AllocError>
    requires frame { IsFrame picture.now.frame }
    requires low { y ≤ 454 }
    ensures { OnOk result (AddsText text.old text.new (labels_of_left picture.now x y)) }
{
    push_arrived_label(alloc, text, picture, 40)?;
    push_count_label(text, "left halo", "left", x, y, picture.planned.total)?;
    push_end_label(text, &picture.end, x, y + 16)
}

/// The y of a label below a count, which keeps a gap above the base.
fn below(frame: &Frame, count: u64, gap: u64) -> u64
    requires frame { IsFrame frame.now }
    requires few { count ≤ 1_099_511_627_776 }
    ensures value { result ≡ below frame.now count gap }
    ensures low { result ≤ 454 }
{
    (frame.y_of(count) + 18).min(frame.base.saturating_sub(gap))
}

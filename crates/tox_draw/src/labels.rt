//! The words of a picture beside its lines.
ghost use Rattle.std.specs.Prelude.{◌≤◌, ◌<◌, ◌≡◌, string_bytes, IfOk, OnOk};
ghost use Rattle.std.specs.Option.{ForSome};
ghost use Rattle.tox_draw.specs.Adding.{AddsText};
ghost use Rattle.tox_draw.specs.Frames.{IsFrame};
ghost use Rattle.tox_draw.specs.Labels.{arrived_label, arrived_text, count_label, end_label, instant_text, word_at};

use crate::frame::Frame;
use crate::link_end::LinkEnd;
use crate::parts::{push_text, push_text_end, push_text_start, push_word};
use crate::path::LEFT;
use crate::picture::Picture;
use crate::place::Point;
use crate::unit::{Unit, push_quantity};
use std::alloc::{AllocError, Global};
use tox_time::Micros;

/// Adds a word at its place, if it has one.
pub(crate) fn push_word_at(
    text: &mut String,
    class: &str,
    place: &Option<Point>,
    word: &str,
) -> Result<(), AllocError>
    requires { ForSome place.now (λ point. point.y ≤ 131_072) }
    ensures { OnOk result (AddsText text.old text.new (word_at class.now place.now word.now)) }
{
    match place {
        Some(point) => push_text(text, class, point.x, point.y + 4, word),
        None => Ok(()),
    }
}

#[tactic(auto, unfolding(crate::specs::Labels::arrived_label))]
/// Adds the label of the arrivals: left of the source's end, or where it doesn't fit there at the plot's left side. It keeps a
/// gap above the base.
pub(crate) fn push_arrived_label(
    alloc: Global,
    text: &mut String,
    picture: &Picture,
    gap: u64,
) -> Result<(), AllocError>
    requires { IsFrame picture.now.frame }
    ensures { OnOk result (AddsText text.old text.new (arrived_label picture.now gap)) }
{
    let frame = &picture.frame;
    let arrived = picture.arrived.total;
    let label = arrived_text(alloc, arrived, picture.source_reset)?;
    let x = frame.x_of(&picture.source_end);
    let y = frame
        .y_of(arrived)
        .saturating_sub(9)
        .min(frame.base.saturating_sub(gap));
    if (x - LEFT) / 8 < label.len() as u64 {
        push_text(text, "arrived halo", 72, y, label.as_str())
    } else {
        push_text(text, "arrived halo end", x, y, label.as_str())
    }
}

/// The text of the label of the arrivals.
#[tactic(auto, unfolding(crate::specs::Labels::arrived_text))]
fn arrived_text(alloc: Global, arrived: u64, source_reset: bool) -> Result<String, AllocError>
    ensures { IfOk result (λ label. string_bytes label ≡ arrived_text arrived source_reset) }
{
    let mut label = String::from_str(alloc, "arrived ")?;
    push_quantity(&mut label, arrived, Unit::of_bytes(arrived))?;
    if source_reset {
        label.push_str(", then reset")?;
    }
    Ok(label)
}

/// Adds the label of a count.
#[tactic(auto, using(crate::proofs::Growing::adds_then), unfolding(crate::specs::Labels::count_label))]
pub(crate) fn push_count_label(
    text: &mut String,
    class: &str,
    word: &str,
    x: u64,
    y: u64,
    count: u64,
) -> Result<(), AllocError>
    ensures { OnOk result
        (AddsText text.old text.new (count_label class.now word.now x y count)) }
{
    push_text_start(text, class, x, y)?;
    push_word(text, word)?;
    push_word(text, " ")?;
    push_quantity(text, count, Unit::of_bytes(count))?;
    push_text_end(text)
}

/// Adds the label of an end.
#[tactic(auto, using(crate::proofs::Growing::adds_then), unfolding(crate::specs::Labels::end_label))]
pub(crate) fn push_end_label(
    text: &mut String,
    end: &LinkEnd,
    x: u64,
    y: u64,
) -> Result<(), AllocError>
    ensures { OnOk result (AddsText text.old text.new (end_label end.now x y)) }
{
    push_text_start(text, "mark halo", x, y)?;
    push_word(text, end.word())?;
    push_instant(text, &end.instant())?;
    push_text_end(text)
}

/// Adds the quantity of an instant behind a space, if there is one.
#[tactic(auto, using(crate::proofs::Growing::adds_then))]
fn push_instant(text: &mut String, instant: &Option<Micros>) -> Result<(), AllocError>
    ensures { OnOk result (AddsText text.old text.new (instant_text instant.now)) }
{
    match instant {
        Some(instant) => {
            let micros = instant.get();
            push_word(text, " ")?;
            push_quantity(text, micros, Unit::of_time(micros))
        }
        None => Ok(()),
    }
}

//! What stands before the heading of a picture.
ghost use Rattle.std.specs.Prelude.{◌≤◌, OnOk};
ghost use Rattle.tox_draw.specs.Adding.{AddsText};
ghost use Rattle.tox_draw.specs.Frames.{IsFrame};
ghost use Rattle.tox_draw.specs.Headings.{texts_of};
ghost use Rattle.tox_draw.specs.Pictures.{description, due_text, front, left_text, opening, paper, sentences, title_element};

use crate::curve::Curve;
use crate::parts::push_word;
use crate::picture::Picture;
use crate::sentences::{push_end, push_passed, push_source_end, push_title};
use crate::setting::{IdEnd, Setting, push_own_style};
use std::alloc::AllocError;

/// Adds all that stands before the heading.
#[tactic(auto, using(crate::proofs::Growing::adds_then), unfolding(crate::specs::Pictures::front))]
pub(crate) fn push_front(text: &mut String, picture: &Picture) -> Result<(), AllocError>
    requires { IsFrame picture.now.frame }
    ensures { OnOk result (AddsText text.old text.new (front picture.now)) }
{
    let high = picture.frame.base + 44;
    push_opening(text, high, &picture.setting)?;
    push_title_line(text, &picture.setting, &picture.forms)?;
    push_description(text, picture)?;
    push_own_style(text, &picture.setting)?;
    push_paper(text, high)
}

/// Adds the first line. The picture is labelled by its title and its sentences.
#[tactic(auto, unfolding(crate::specs::Pictures::opening))]
fn push_opening(text: &mut String, high: u64, setting: &Setting) -> Result<(), AllocError>
    ensures { OnOk result (AddsText text.old text.new (opening high setting.now)) }
{
    let end = IdEnd(*setting);
    writeln!(
        text,
        "<svg xmlns=\"http://www.w3.org/2000/svg\" class=\"toxi-draw\" width=\"960\" height=\"{high}\" \
         viewBox=\"0 0 960 {high}\" role=\"img\" aria-labelledby=\"toxi-title{end} toxi-desc{end}\">"
    )
}

/// Adds the line of the title.
#[tactic(auto, using(crate::proofs::Growing::adds_then), unfolding(crate::specs::Pictures::title_element))]
fn push_title_line(text: &mut String, setting: &Setting, forms: &[String]) -> Result<(), AllocError>
    ensures { OnOk result
        (AddsText text.old text.new (title_element setting.now (texts_of forms.now))) }
{
    let end = IdEnd(*setting);
    write!(text, "<title id=\"toxi-title{end}\">")?;
    push_title(text, forms)?;
    push_word(text, "</title>\n")
}

/// Adds the line of the sentences.
#[tactic(auto, using(crate::proofs::Growing::adds_then), unfolding(crate::specs::Pictures::description))]
fn push_description(text: &mut String, picture: &Picture) -> Result<(), AllocError>
    ensures { OnOk result (AddsText text.old text.new (description picture.now)) }
{
    let end = IdEnd(picture.setting);
    write!(text, "<desc id=\"toxi-desc{end}\">Bytes over time.")?;
    push_sentences(text, picture)?;
    push_word(text, "</desc>\n")
}

/// Adds the sentences.
#[tactic(auto, using(crate::proofs::Growing::adds_then), unfolding(crate::specs::Pictures::sentences))]
fn push_sentences(text: &mut String, picture: &Picture) -> Result<(), AllocError>
    ensures { OnOk result (AddsText text.old text.new (sentences picture.now)) }
{
    push_passed(
        text,
        "Arrived",
        picture.arrived.total,
        &picture.arrived.last,
    )?;
    push_source_end(text, &picture.source_end, picture.source_reset)?;
    push_left(text, &picture.planned, &picture.written)?;
    push_end(text, &picture.end)
}

/// Adds the sentence of what left, or those of what was due and of what was written.
fn push_left(text: &mut String, planned: &Curve, written: &Option<Curve>) -> Result<(), AllocError>
    ensures { OnOk result (AddsText text.old text.new (left_text planned.now written.now)) }
{
    match written {
        Some(written) => push_due(text, planned, written),
        None => push_passed(text, "Left", planned.total, &planned.last),
    }
}

/// Adds the sentences of what was due and of what was written.
#[tactic(auto, using(crate::proofs::Growing::adds_then), unfolding(crate::specs::Pictures::due_text))]
fn push_due(text: &mut String, planned: &Curve, written: &Curve) -> Result<(), AllocError>
    ensures { OnOk result (AddsText text.old text.new (due_text planned.now written.now)) }
{
    push_passed(text, "Due", planned.total, &planned.last)?;
    push_passed(text, "Written", written.total, &written.last)
}

/// Adds the background.
#[tactic(auto, unfolding(crate::specs::Pictures::paper))]
fn push_paper(text: &mut String, high: u64) -> Result<(), AllocError>
    ensures { OnOk result (AddsText text.old text.new (paper high)) }
{
    writeln!(
        text,
        "<rect class=\"paper\" width=\"960\" height=\"{high}\"/>"
    )
}

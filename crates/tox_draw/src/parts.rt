//! The parts that the lines of a picture have in common.
ghost use Rattle.std.specs.Prelude.{◌≡◌, OnOk};
ghost use Rattle.tox_draw.specs.Adding.{AddsText};
ghost use Rattle.tox_draw.specs.Parts.{circle, line_to, move_to, path_end, path_start, text_end, text_line, text_start};

use std::alloc::AllocError;

/// Adds a text as it stands.
pub(crate) fn push_word(text: &mut String, word: &str) -> Result<(), AllocError>
    ensures { OnOk result (AddsText text.old text.new word.now) }
{
    text.push_str(word)
}

#[tactic(auto, using(crate::proofs::Growing::adds_then), unfolding(crate::specs::Parts::text_line))]
/// Adds a line of text at a point.
pub(crate) fn push_text(
    text: &mut String,
    class: &str,
    x: u64,
    y: u64,
    word: &str,
) -> Result<(), AllocError>
    ensures { OnOk result (AddsText text.old text.new (text_line class.now x y word.now)) }
{
    push_text_start(text, class, x, y)?;
    push_word(text, word)?;
    push_text_end(text)
}

#[tactic(auto, unfolding(crate::specs::Parts::text_start))]
/// Adds the start of a line of text at a point.
pub(crate) fn push_text_start(
    text: &mut String,
    class: &str,
    x: u64,
    y: u64,
) -> Result<(), AllocError>
    ensures { OnOk result (AddsText text.old text.new (text_start class.now x y)) }
{
    write!(text, "<text class=\"{class}\" x=\"{x}\" y=\"{y}\">")
}

#[tactic(auto, unfolding(crate::specs::Parts::text_end))]
/// Adds the end of a line of text.
pub(crate) fn push_text_end(text: &mut String) -> Result<(), AllocError>
    ensures { OnOk result (AddsText text.old text.new text_end) }
{
    text.push_str("</text>\n")
}

#[tactic(auto, unfolding(crate::specs::Parts::path_start))]
/// Adds the start of a path.
pub(crate) fn push_path_start(text: &mut String, class: &str) -> Result<(), AllocError>
    ensures { OnOk result (AddsText text.old text.new (path_start class.now)) }
{
    write!(text, "<path class=\"{class}\" d=\"")
}

#[tactic(auto, unfolding(crate::specs::Parts::path_end))]
/// Adds the end of a path.
pub(crate) fn push_path_end(text: &mut String) -> Result<(), AllocError>
    ensures { OnOk result (AddsText text.old text.new path_end) }
{
    text.push_str("\"/>\n")
}

#[tactic(auto, unfolding(crate::specs::Parts::move_to))]
/// Adds where a path starts.
pub(crate) fn push_move(text: &mut String, x: u64, y: u64) -> Result<(), AllocError>
    ensures { OnOk result (AddsText text.old text.new (move_to x y)) }
{
    write!(text, "M{x} {y}")
}

#[tactic(auto, unfolding(crate::specs::Parts::line_to))]
/// Adds a line of a path to a point.
pub(crate) fn push_line(text: &mut String, x: u64, y: u64) -> Result<(), AllocError>
    ensures { OnOk result (AddsText text.old text.new (line_to x y)) }
{
    write!(text, "L{x} {y}")
}

#[tactic(auto, unfolding(crate::specs::Parts::circle))]
/// Adds a circle about a point.
pub(crate) fn push_circle(text: &mut String, class: &str, x: u64, y: u64) -> Result<(), AllocError>
    ensures { OnOk result (AddsText text.old text.new (circle class.now x y)) }
{
    writeln!(
        text,
        "<circle class=\"{class}\" cx=\"{x}\" cy=\"{y}\" r=\"3\"/>"
    )
}

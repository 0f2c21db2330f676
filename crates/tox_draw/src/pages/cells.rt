//! The cells of a row.
ghost use Rattle.std.specs.Prelude.{◌≡◌, OnOk};
ghost use Rattle.tox_draw.specs.Adding.{AddsText};
ghost use Rattle.tox_draw.specs.pages.Cells.{instant_cell, millis_cell, number_cell, text_cell, word_cell};

use crate::pages::escaping::Escaped;
use crate::pages::millis::Millis;
use std::alloc::AllocError;

/// Adds a cell of a text, behind its tag.
#[tactic(auto, unfolding(crate::specs::pages::Cells::text_cell))]
pub(crate) fn push_text_cell(text: &mut String, tag: &str, word: &str) -> Result<(), AllocError>
    ensures { OnOk result (AddsText text.old text.new (text_cell tag.now word.now)) }
{
    let word = Escaped(word);
    write!(text, "{tag}{word}</td>")
}

/// Adds a cell of a number.
#[tactic(auto, unfolding(crate::specs::pages::Cells::number_cell))]
pub(crate) fn push_number_cell(text: &mut String, number: u64) -> Result<(), AllocError>
    ensures { OnOk result (AddsText text.old text.new (number_cell number)) }
{
    write!(text, "<td class=\"number\">{number}</td>")
}

/// Adds a cell of microseconds in milliseconds, behind a mark.
#[tactic(auto, unfolding(crate::specs::pages::Cells::millis_cell))]
pub(crate) fn push_millis_cell(text: &mut String, mark: &str, micros: u64) -> Result<(), AllocError>
    ensures { OnOk result (AddsText text.old text.new (millis_cell mark.now micros)) }
{
    let millis = Millis(micros);
    write!(text, "<td class=\"number\">{mark}{millis}</td>")
}

/// Adds a cell of a word and an instant.
#[tactic(auto, unfolding(crate::specs::pages::Cells::instant_cell))]
pub(crate) fn push_instant_cell(
    text: &mut String,
    word: &str,
    micros: u64,
) -> Result<(), AllocError>
    ensures { OnOk result (AddsText text.old text.new (instant_cell word.now micros)) }
{
    let millis = Millis(micros);
    write!(text, "<td>{word}{millis}</td>")
}

/// Adds a cell of a word.
#[tactic(auto, unfolding(crate::specs::pages::Cells::word_cell))]
pub(crate) fn push_word_cell(text: &mut String, word: &str) -> Result<(), AllocError>
    ensures { OnOk result (AddsText text.old text.new (word_cell word.now)) }
{
    write!(text, "<td>{word}</td>")
}

//! The rows of a conversation, one for each stream.
ghost use Rattle.std.specs.Prelude.{◌≡◌, OnOk};
ghost use Rattle.tox_draw.specs.Adding.{AddsText};
ghost use Rattle.tox_draw.specs.pages.StreamRows.{broken_cell, count_cells, ending_cell, exactness, given_cells, late_cells, percentile_cells, result_cells, stream_head, stream_row, sum_cells, timed_cells, toxics_cell, verdict_cell};

use crate::pages::cells::{
    push_instant_cell, push_millis_cell, push_number_cell, push_text_cell, push_word_cell,
};
use crate::pages::outcome::Outcome;
use crate::pages::row::StreamFacts;
use crate::parts::push_word;
use std::alloc::AllocError;
use tox_log::Percentiles;
use tox_time::Stream;

/// Adds the row of a stream.
#[tactic(auto, using(crate::proofs::Growing::adds_then), unfolding(crate::specs::pages::StreamRows::stream_row))]
pub(crate) fn push_stream_row(text: &mut String, facts: &StreamFacts) -> Result<(), AllocError>
    ensures { OnOk result (AddsText text.old text.new (stream_row facts.now)) }
{
    push_given_cells(text, facts)?;
    push_result_cells(text, facts)
}

/// Adds a row up to its toxics: the applied ones, and those that were skipped.
#[tactic(auto, using(crate::proofs::Growing::adds_then), unfolding(crate::specs::pages::StreamRows::given_cells))]
fn push_given_cells(text: &mut String, facts: &StreamFacts) -> Result<(), AllocError>
    ensures { OnOk result (AddsText text.old text.new (given_cells facts.now)) }
{
    push_stream_head(text, facts.stream)?;
    push_count_cells(text, facts)?;
    push_toxics(text, facts.toxics.as_str())?;
    push_toxics(text, facts.skipped.as_str())
}

/// Adds the tag and the head of a row: whose bytes the stream has.
fn push_stream_head(text: &mut String, stream: Stream) -> Result<(), AllocError>
    ensures { OnOk result (AddsText text.old text.new (stream_head stream)) }
{
    match stream {
        Stream::Upstream => push_word(text, "<tr><th scope=\"row\">Client's bytes, upstream</th>"),
        Stream::Downstream => {
            push_word(
                text,
                "<tr><th scope=\"row\">Server's bytes, downstream</th>",
            )
        }
    }
}

/// Adds a cell of toxics.
pub(crate) fn push_toxics(text: &mut String, toxics: &str) -> Result<(), AllocError>
    ensures { OnOk result (AddsText text.old text.new (toxics_cell toxics.now)) }
{
    push_text_cell(text, "<td class=\"toxics\">", toxics)
}

/// Adds the rest of a row: what came of the stream.
#[tactic(auto, using(crate::proofs::Growing::adds_then), unfolding(crate::specs::pages::StreamRows::result_cells))]
fn push_result_cells(text: &mut String, facts: &StreamFacts) -> Result<(), AllocError>
    ensures { OnOk result (AddsText text.old text.new (result_cells facts.now)) }
{
    push_ending(text, &facts.outcome)?;
    push_verdict(text, &facts.outcome)?;
    push_late(text, &facts.outcome, &facts.late)?;
    push_word(text, "</tr>\n")
}

/// Adds how many bytes the source gave, and how many passed. Of an unfaithful log the cells are empty.
pub(crate) fn push_count_cells(text: &mut String, facts: &StreamFacts) -> Result<(), AllocError>
    ensures { OnOk result (AddsText text.old text.new
        (count_cells facts.now.outcome facts.now.heard facts.now.said)) }
{
    match facts.outcome {
        Outcome::Unfaithful(_) => push_word(text, "<td></td><td></td>"),
        _ => push_sum_cells(text, facts.heard, facts.said),
    }
}

#[tactic(auto, using(crate::proofs::Growing::adds_then), unfolding(crate::specs::pages::StreamRows::sum_cells))]
fn push_sum_cells(text: &mut String, heard: u64, said: u64) -> Result<(), AllocError>
    ensures { OnOk result (AddsText text.old text.new (sum_cells heard said)) }
{
    push_number_cell(text, heard)?;
    push_number_cell(text, said)
}

/// Adds the cell of the ending.
fn push_ending(text: &mut String, outcome: &Outcome) -> Result<(), AllocError>
    ensures { OnOk result (AddsText text.old text.new (ending_cell outcome.now)) }
{
    match outcome {
        Outcome::Open => push_word_cell(text, "open"),
        Outcome::Closed(instant) => push_instant_cell(text, "closed ", instant.get()),
        Outcome::SourceReset(instant) => {
            push_instant_cell(text, "source reset, closed ", instant.get())
        }
        Outcome::Cut(instant) => push_instant_cell(text, "cut, closed ", instant.get()),
        Outcome::Reset(instant) => push_instant_cell(text, "reset ", instant.get()),
        Outcome::Broken(cause) => push_broken(text, cause.name()),
        Outcome::Missing => push_word_cell(text, "no end"),
        Outcome::Unfaithful(_) => push_word_cell(text, ""),
    }
}

#[tactic(auto, unfolding(crate::specs::pages::StreamRows::broken_cell))]
fn push_broken(text: &mut String, cause: &str) -> Result<(), AllocError>
    ensures { OnOk result (AddsText text.old text.new (broken_cell cause.now)) }
{
    write!(text, "<td>broken {cause}</td>")
}

/// Adds the cell of the verdict.
#[tactic(auto, unfolding(crate::specs::pages::StreamRows::unfaithful_cell))]
fn push_verdict(text: &mut String, outcome: &Outcome) -> Result<(), AllocError>
    ensures { OnOk result (AddsText text.old text.new (verdict_cell outcome.now)) }
{
    match outcome {
        Outcome::Unfaithful(line) => {
            write!(text, "<td class=\"verdict\">unfaithful, line {line}</td>")
        }
        _ => push_word_cell(text, outcome.verdict()),
    }
}

/// Adds the cells of the lateness. They are empty of an unfaithful log, and where nothing was timed.
fn push_late(
    text: &mut String,
    outcome: &Outcome,
    late: &Option<Percentiles>,
) -> Result<(), AllocError>
    ensures { OnOk result (AddsText text.old text.new (late_cells outcome.now late.now)) }
{
    match outcome {
        Outcome::Unfaithful(_) => push_word(text, "<td></td><td></td><td></td>"),
        _ => push_timed(text, late),
    }
}

fn push_timed(text: &mut String, late: &Option<Percentiles>) -> Result<(), AllocError>
    ensures { OnOk result (AddsText text.old text.new (timed_cells late.now)) }
{
    match late {
        Some(late) => push_percentiles(text, late),
        None => push_word(text, "<td></td><td></td><td></td>"),
    }
}

#[tactic(auto, using(crate::proofs::Growing::adds_then), unfolding(crate::specs::pages::StreamRows::percentile_cells))]
fn push_percentiles(text: &mut String, late: &Percentiles) -> Result<(), AllocError>
    ensures { OnOk result (AddsText text.old text.new (percentile_cells late.now)) }
{
    let mark = exactness(late.exact);
    push_millis_cell(text, mark, late.median)?;
    push_millis_cell(text, mark, late.p99)?;
    push_millis_cell(text, "", late.max)
}

fn exactness(exact: bool) -> &'static str
    ensures { result.now ≡ exactness exact }
{
    if exact { "" } else { "~" }
}

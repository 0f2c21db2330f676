//! The rows of the list: the logs that can't be judged, and the links.
ghost use Rattle.std.specs.Prelude.{◌≡◌, OnOk};
ghost use Rattle.tox_draw.specs.Adding.{AddsText};
ghost use Rattle.tox_draw.specs.pages.Rows.{fact_cells, fault_row, head_cells, latest_cell, link_row, mark_tag, no_cells, one_cells, opposite_cells, outcome_cells, refusal_row, row_head, stream_cells, unfaithful_words, verdict_words};

use crate::pages::cells::{push_millis_cell, push_number_cell, push_word_cell};
use crate::pages::escaping::Escaped;
use crate::pages::link_logs::LinkLogs;
use crate::pages::outcome::Outcome;
use crate::pages::row::{Refusal, StreamFacts};
use crate::pages::stream_row::{push_count_cells, push_toxics};
use crate::parts::push_word;
use std::alloc::AllocError;
use tox_time::Stream;

/// Adds the row of a log that can't be judged.
pub(crate) fn push_refusal_row(text: &mut String, refusal: &Refusal) -> Result<(), AllocError>
    ensures { OnOk result (AddsText text.old text.new (refusal_row refusal.now)) }
{
    push_fault_row(text, refusal.name.as_str(), refusal.fault.as_str())
}

#[tactic(auto, unfolding(crate::specs::pages::Rows::fault_row))]
fn push_fault_row(text: &mut String, name: &str, fault: &str) -> Result<(), AllocError>
    ensures { OnOk result (AddsText text.old text.new (fault_row name.now fault.now)) }
{
    let name = Escaped(name);
    let fault = Escaped(fault);
    writeln!(
        text,
        "<tr class=\"marked\"><th scope=\"row\" colspan=\"3\">{name}</th><td class=\"verdict\" colspan=\"8\">not judged: {fault}</td></tr>"
    )
}

/// Adds the row of a link. A linked one leads to the conversation of this number.
#[tactic(auto, using(crate::proofs::Growing::adds_then), unfolding(crate::specs::pages::Rows::link_row))]
pub(crate) fn push_link_row(
    text: &mut String,
    link: &LinkLogs,
    number: u64,
    linked: bool,
) -> Result<(), AllocError>
    ensures { OnOk result (AddsText text.old text.new (link_row link.now number linked)) }
{
    push_head_cells(text, link, number, linked)?;
    push_fact_cells(text, link)?;
    push_outcome_cells(text, link)
}

/// Adds a row up to who ended the link.
#[tactic(auto, using(crate::proofs::Growing::adds_then), unfolding(crate::specs::pages::Rows::head_cells))]
fn push_head_cells(
    text: &mut String,
    link: &LinkLogs,
    number: u64,
    linked: bool,
) -> Result<(), AllocError>
    ensures { OnOk result (AddsText text.old text.new (head_cells link.now number linked)) }
{
    let facts = &link.first().facts;
    push_mark_tag(text, link.is_marked())?;
    push_row_head(text, facts.proxy.as_str(), number, linked)?;
    push_number_cell(text, facts.link)?;
    push_word_cell(text, link.ended_by())
}

/// Adds the tag of a row, which is marked or not.
pub(crate) fn push_mark_tag(text: &mut String, marked: bool) -> Result<(), AllocError>
    ensures { OnOk result (AddsText text.old text.new (mark_tag marked)) }
{
    if marked {
        push_word(text, "<tr class=\"marked\">")
    } else {
        push_word(text, "<tr>")
    }
}

/// Adds the head of a row: the proxy's name, which leads to the conversation of this number where there is one.
#[tactic(auto, unfolding(crate::specs::pages::Rows::bare_head, crate::specs::pages::Rows::linked_head))]
fn push_row_head(
    text: &mut String,
    proxy: &str,
    number: u64,
    linked: bool,
) -> Result<(), AllocError>
    ensures { OnOk result (AddsText text.old text.new (row_head proxy.now number linked)) }
{
    let proxy = Escaped(proxy);
    if linked {
        write!(
            text,
            "<th scope=\"row\"><a href=\"#link-{number}\">{proxy}</a></th>"
        )
    } else {
        write!(text, "<th scope=\"row\">{proxy}</th>")
    }
}

/// Adds the cells of both streams: the client's, and the server's.
fn push_fact_cells(text: &mut String, link: &LinkLogs) -> Result<(), AllocError>
    ensures { OnOk result (AddsText text.old text.new (fact_cells link.now)) }
{
    match link {
        LinkLogs::One(row) => push_one_cells(text, row.facts.stream, &row.facts),
        LinkLogs::Both(upstream, downstream) => {
            push_opposite_cells(text, &upstream.facts, &downstream.facts)
        }
    }
}

/// Adds the cells of a stream, and empty ones for the other.
#[tactic(auto, using(crate::proofs::Growing::adds_then))]
fn push_one_cells(text: &mut String, stream: Stream, facts: &StreamFacts) -> Result<(), AllocError>
    ensures { OnOk result (AddsText text.old text.new (one_cells stream facts.now)) }
{
    match stream {
        Stream::Upstream => {
            push_stream_cells(text, facts)?;
            push_no_cells(text)
        }
        Stream::Downstream => {
            push_no_cells(text)?;
            push_stream_cells(text, facts)
        }
    }
}

/// Adds the cells of a stream that has no log.
#[tactic(auto, unfolding(crate::specs::pages::Rows::no_cells))]
fn push_no_cells(text: &mut String) -> Result<(), AllocError>
    ensures { OnOk result (AddsText text.old text.new no_cells) }
{
    push_word(text, "<td></td><td></td><td></td>")
}

#[tactic(auto, using(crate::proofs::Growing::adds_then))]
fn push_opposite_cells(
    text: &mut String,
    upstream: &StreamFacts,
    downstream: &StreamFacts,
) -> Result<(), AllocError>
    ensures { OnOk result
        (AddsText text.old text.new (opposite_cells upstream.now downstream.now)) }
{
    push_stream_cells(text, upstream)?;
    push_stream_cells(text, downstream)
}

/// Adds how many bytes a stream's source gave and how many passed, and the toxics that it met.
#[tactic(auto, using(crate::proofs::Growing::adds_then), unfolding(crate::specs::pages::Rows::stream_cells))]
fn push_stream_cells(text: &mut String, facts: &StreamFacts) -> Result<(), AllocError>
    ensures { OnOk result (AddsText text.old text.new (stream_cells facts.now)) }
{
    push_count_cells(text, facts)?;
    push_toxics(text, facts.toxics.as_str())
}

/// Adds the rest of a row: the worse verdict, and the greatest lateness.
#[tactic(auto, using(crate::proofs::Growing::adds_then), unfolding(crate::specs::pages::Rows::outcome_cells))]
fn push_outcome_cells(text: &mut String, link: &LinkLogs) -> Result<(), AllocError>
    ensures { OnOk result (AddsText text.old text.new (outcome_cells link.now)) }
{
    push_worst_verdict(text, link.worst())?;
    push_latest_cell(text, &link.latest())?;
    push_word(text, "</tr>\n")
}

fn push_worst_verdict(text: &mut String, facts: &StreamFacts) -> Result<(), AllocError>
    ensures { OnOk result
        (AddsText text.old text.new (verdict_words facts.now.outcome facts.now.stream)) }
{
    match facts.outcome {
        Outcome::Unfaithful(line) => push_unfaithful(text, facts.stream.name(), line),
        _ => push_word_cell(text, facts.outcome.verdict()),
    }
}

/// Adds the cell of a stream whose log isn't faithful up to the line of this number.
#[tactic(auto, unfolding(crate::specs::pages::Rows::unfaithful_words))]
fn push_unfaithful(text: &mut String, stream: &str, line: u64) -> Result<(), AllocError>
    ensures { OnOk result (AddsText text.old text.new (unfaithful_words stream.now line)) }
{
    write!(
        text,
        "<td class=\"verdict\">unfaithful, {stream} line {line}</td>"
    )
}

fn push_latest_cell(text: &mut String, latest: &Option<u64>) -> Result<(), AllocError>
    ensures { OnOk result (AddsText text.old text.new (latest_cell latest.now)) }
{
    match latest {
        Some(latest) => push_millis_cell(text, "", *latest),
        None => push_word(text, "<td></td>"),
    }
}

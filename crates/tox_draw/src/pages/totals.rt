//! What the logs of a run come to.
ghost use Rattle.std.specs.Prelude.{◌≡◌, count_by, length, OnOk};
ghost use Rattle.tox_draw.specs.pages.Kinds.{has};
ghost use Rattle.tox_draw.specs.Adding.{AddsText};
ghost use Rattle.tox_draw.specs.pages.Totals.{greater, late_with, latest_entry, latest_of, number_entry, outcome_entries, row_totals_text, seed_entry, seed_of, seed_with, word_entry, worst_entry};

use crate::pages::kind::{Kind, count_of};
use crate::pages::millis::Millis;
use crate::pages::outcome::Outcome;
use crate::pages::row::{Refusal, Row, StreamFacts};
use std::alloc::AllocError;
use tox_log::Percentiles;

/// The seed of a run.
#[derive(Clone, Copy)]
pub(crate) enum Seed {
    /// No log tells one.
    Unknown,
    One(u64),
    /// The logs are of several.
    Several,
}

/// Adds what the logs come to: those that can't be judged, and the rows of the others, which are of so many links.
#[tactic(auto, using(crate::proofs::Growing::adds_then), unfolding(crate::specs::pages::Totals::row_totals_text))]
pub(crate) fn push_totals(
    text: &mut String,
    refusals: &[Refusal],
    rows: &[Row],
    links: u64,
) -> Result<(), AllocError>
    ensures { OnOk result
        (AddsText text.old text.new (row_totals_text (length refusals.now) rows.now links)) }
{
    push_number_entry(text, "Links", links)?;
    push_number_entry(text, "Streams", rows.len() as u64)?;
    push_outcomes(text, rows)?;
    push_number_entry(text, "Not judged", refusals.len() as u64)?;
    push_seed(text, &seed_of(rows))?;
    push_latest(text, &latest_of(rows))
}

/// Adds how many streams ended otherwise than closed.
#[tactic(auto, using(crate::proofs::Growing::adds_then), unfolding(crate::specs::pages::Totals::outcome_entries))]
fn push_outcomes(text: &mut String, rows: &[Row]) -> Result<(), AllocError>
    ensures { OnOk result (AddsText text.old text.new (outcome_entries rows.now)) }
{
    push_count(text, "Reset", rows, Kind::Reset)?;
    push_count(text, "Cut", rows, Kind::Cut)?;
    push_count(text, "Unfinished", rows, Kind::Unfinished)?;
    push_count(text, "Broken of these", rows, Kind::Broken)?;
    push_count(text, "Unfaithful", rows, Kind::Unfaithful)
}

/// Adds how many rows are of a kind.
fn push_count(text: &mut String, name: &str, rows: &[Row], kind: Kind) -> Result<(), AllocError>
    ensures { OnOk result
        (AddsText text.old text.new (number_entry name.now (count_by (has kind) rows.now))) }
{
    push_number_entry(text, name, count_of(rows, kind))
}

#[tactic(auto, unfolding(crate::specs::pages::Totals::number_entry))]
fn push_number_entry(text: &mut String, name: &str, number: u64) -> Result<(), AllocError>
    ensures { OnOk result (AddsText text.old text.new (number_entry name.now number)) }
{
    writeln!(text, "<div><dt>{name}</dt><dd>{number}</dd></div>")
}

#[tactic(auto, unfolding(crate::specs::pages::Totals::word_entry))]
fn push_word_entry(text: &mut String, name: &str, word: &str) -> Result<(), AllocError>
    ensures { OnOk result (AddsText text.old text.new (word_entry name.now word.now)) }
{
    writeln!(text, "<div><dt>{name}</dt><dd>{word}</dd></div>")
}

fn push_seed(text: &mut String, seed: &Seed) -> Result<(), AllocError>
    ensures { OnOk result (AddsText text.old text.new (seed_entry seed.now)) }
{
    match seed {
        Seed::Unknown => push_word_entry(text, "Seed", "unknown"),
        Seed::One(seed) => push_number_entry(text, "Seed", *seed),
        Seed::Several => push_word_entry(text, "Seed", "several"),
    }
}

fn push_latest(text: &mut String, latest: &Option<u64>) -> Result<(), AllocError>
    ensures { OnOk result (AddsText text.old text.new (latest_entry latest.now)) }
{
    match latest {
        Some(latest) => push_worst(text, *latest),
        None => push_word_entry(text, "Worst lateness", "none timed"),
    }
}

#[tactic(auto, unfolding(crate::specs::pages::Totals::worst_entry))]
fn push_worst(text: &mut String, latest: u64) -> Result<(), AllocError>
    ensures { OnOk result (AddsText text.old text.new (worst_entry latest)) }
{
    let millis = Millis(latest);
    writeln!(
        text,
        "<div><dt>Worst lateness</dt><dd>{millis} ms</dd></div>"
    )
}

/// The seed of the rows.
fn seed_of(rows: &[Row]) -> Seed
    ensures { result ≡ seed_of rows.now }
{
    let mut seed = Seed::Unknown;
    for row in rows {
        seed = seed_with(seed, row.facts.seed);
    }
    seed
}

/// The seed of some logs, and of one more.
fn seed_with(seed: Seed, other: u64) -> Seed
    ensures { result ≡ seed_with seed other }
{
    match seed {
        Seed::Unknown => Seed::One(other),
        Seed::One(one) => {
            if one == other {
                Seed::One(one)
            } else {
                Seed::Several
            }
        }
        Seed::Several => Seed::Several,
    }
}

/// The greatest lateness of the rows.
fn latest_of(rows: &[Row]) -> Option<u64>
    ensures { result ≡ latest_of rows.now }
{
    let mut latest = None;
    for row in rows {
        latest = late_with(latest, &row.facts);
    }
    latest
}

/// The greatest lateness of some logs, and of one more. An unfaithful one tells none.
pub(crate) fn late_with(latest: Option<u64>, facts: &StreamFacts) -> Option<u64>
    ensures { result ≡ late_with latest facts.now }
{
    match &facts.outcome {
        Outcome::Unfaithful(_) => latest,
        _ => greater(latest, &facts.late),
    }
}

fn greater(latest: Option<u64>, late: &Option<Percentiles>) -> Option<u64>
    ensures { result ≡ greater latest late.now }
{
    match late {
        Some(late) => Some(late.max.max(latest.unwrap_or(0))),
        None => latest,
    }
}

//! The warnings of a rule.
ghost use Rattle.std.specs.Prelude.{◌≡◌, ◌+◌, ◌-◌, ◌<◌, ◌≤◌, ◌^◌, List, length, slice_get, OnOk};
ghost use Rattle.tox_script.specs.chains.Chains.{on};
ghost use Rattle.tox_check.specs.forecast.Totals.{place_on};
ghost use Rattle.tox_check.specs.Coverage.{within};
ghost use Rattle.tox_check.specs.Lines.{is_seldom, is_silent, met_warnings, silent_warnings, toxic_warnings};
ghost use Rattle.tox_check.specs.RuleRuns.{HasRuns};
ghost use Rattle.tox_check.specs.RuleWarnings.{IsTreeOf, TellMore, runs_by, warnings_by};
ghost use Rattle.tox_check.specs.declared.run.Run.{Run};

use crate::forecast::Places;
use crate::idleness::idleness_at;
use crate::rule_runs::RuleRuns;
use crate::tree::{Range, RunTree};
use crate::warning::Warning;
use std::alloc::AllocError;
use tox_script::Chains;
use tox_time::Stream;

/// What is reported of the connections of a rule, by the runs of its proxy.
pub(crate) fn coverage<'a>(tree: &Option<RunTree>, range: Range) -> Option<Warning<'a>>
    requires tree { IsTreeOf tree.now }
    requires few { length (runs_by tree.now) < 2 ^ 64 }
    ensures { warnings_by result
        ≡ met_warnings range.rule (within range.first range.last (runs_by tree.now)) }
{
    let mut found = RuleRuns::new(range.rule);
    let Some(tree) = tree else {
        return warning_of(found);
    };
    tree.append_to(range, &mut found);
    warning_of(found)
}

/// What is reported of the runs of a rule.
fn warning_of<'a>(found: RuleRuns) -> Option<Warning<'a>>
    ensures { (runs : List Run) → HasRuns found.rule runs found
        → warnings_by result ≡ met_warnings found.rule runs }
{
    if found.own.is_empty() {
        Some(Warning::Covered(found.low, found.high))
    } else if found.taken.is_empty() {
        None
    } else {
        Some(Warning::Partly(found.own, found.taken))
    }
}

/// Tells of each toxic that is never or seldom applied or changes nothing, of toxics on these streams, of which the first has these
/// places.
pub(crate) fn put_silent<'a>(
    warnings: &mut Vec<Warning<'a>>,
    decimals: &[bool],
    chains: &Chains,
    at: Places,
    order: &[Stream],
) -> Result<(), AllocError>
    requires numbered { at.number + length order.now < 2 ^ 64 }
    requires from_one { 1 ≤ at.number }
    requires upstream { at.upstream ≤ at.number }
    requires downstream { at.downstream ≤ at.number }
    ensures { OnOk result
        (TellMore warnings.old.items warnings.new.items (silent_warnings decimals.now chains.now at order.now)) }
{
    let [stream, order @ ..] = order else {
        return Ok(());
    };
    put_if_silent(warnings, decimals, chains, at, *stream)?;
    put_silent(warnings, decimals, chains, at.after(*stream), order)
}

/// Tells of a toxic on a stream, which has these places, if it is never or seldom applied or changes nothing.
fn put_if_silent<'a>(
    warnings: &mut Vec<Warning<'a>>,
    decimals: &[bool],
    chains: &Chains,
    at: Places,
    stream: Stream,
) -> Result<(), AllocError>
    requires from_one { 1 ≤ at.number }
    ensures { OnOk result (TellMore warnings.old.items warnings.new.items
        (toxic_warnings decimals.now chains.now
        (record { number = at.number; stream = stream; place = place_on stream at }))) }
{
    if is_silent(chains, stream, at.on(stream)) {
        warnings.push(Warning::NoToxicity(at.number))?;
    } else if let Some(why) = idleness_at(chains.on(stream).chain(), at.on(stream)) {
        warnings.push(Warning::ChangesNothing(at.number, why))?;
    } else if is_seldom(decimals, chains, at, stream) {
        warnings.push(Warning::Seldom(at.number))?;
    }
    Ok(())
}

/// Whether the toxic at a place of a stream is never applied.
fn is_silent(chains: &Chains, stream: Stream, place: usize) -> bool
    ensures { result ≡ is_silent (slice_get (on stream chains.now).chain.entries place) }
{
    match chains.on(stream).chain().entries().get(place) {
        Some(entry) => entry.toxicity == 0,
        None => false,
    }
}

/// Whether the toxicity of the toxic on a stream that has these places is the number 1, and no decimal text.
fn is_seldom(decimals: &[bool], chains: &Chains, at: Places, stream: Stream) -> bool
    requires { 1 ≤ at.number }
    ensures { result ≡ is_seldom (slice_get decimals.now (at.number - 1))
        (slice_get (on stream chains.now).chain.entries (place_on stream at)) }
{
    let entries = chains.on(stream).chain().entries();
    match (decimals.get(at.number - 1), entries.get(at.on(stream))) {
        (Some(decimal), Some(entry)) => !*decimal && entry.toxicity == 1,
        _ => false,
    }
}

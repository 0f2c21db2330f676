//! What a whole list of arrivals comes to.
ghost use Rattle.std.specs.Prelude.{◌≡◌, ◌≤◌, List, [], ◌∷◌, Any, IfOk, OnOk, true, None};
ghost use Rattle.tox_time.specs.declared.streams.item.Item.{Item as OneItem};
ghost use Rattle.tox_time.specs.streams.Arrivals.{arrival_list};
ghost use Rattle.tox_time.specs.streams.Stream.{IsStream, latest_from};
ghost use Rattle.tox_time.specs.streams.Table.{IsOutcomeOf};
ghost use Rattle.tox_time.specs.streams.Neighbours.{AreNeighbours, LiesInChunk};
ghost use Rattle.tox_defs.specs.Flow.{chain_flow};
ghost use Rattle.tox_compile.specs.Meaning.{means};
ghost use Rattle.tox_network.specs.runs.Runs.{OfEveryRest};
ghost use Rattle.tox_plan.specs.Cuts.{GivesAll};
ghost use Rattle.tox_plan.specs.Delivering.{EndsAt, IsNextFor, LeadTo, PreservesOutput, StandsBehind};

use crate::runner::Runner;
use std::alloc::{AllocError, Global};
use tox_compile::{Plan, compile};
use tox_defs::Chain;
use tox_time::{Arrivals, Item, Outcome, SliceList};
use tox_words::Words;

/// Takes all slices of the offered piece.
fn take_cuts(runner: &mut Runner, slices: &mut SliceList) -> Result<(), AllocError>
    ensures goes { OnOk result
        ((items : List OneItem)
        → PreservesOutput runner.old slices.old items runner.new slices.new items) }
    ensures all { OnOk result (GivesAll runner.old runner.new) }
    ensures neighbours { OnOk result
        ((items : List OneItem) → Any (LiesInChunk runner.old.piece.span) items
        → LeadTo items slices.old runner.old.position
        → LeadTo items slices.new runner.new.position) }
{
    while let Some(slice) = runner.next_cut() {
        slices.push(slice)?;
    }
    Ok(())
}

/// Gives the runner the next arrival, and takes the slices that it makes of it.
fn take_item(runner: &mut Runner, slices: &mut SliceList, item: &Item) -> Result<(), AllocError>
    requires idle { runner.old.idle ≡ true }
    requires follows { IsNextFor runner.old item.now }
    ensures goes { OnOk result
        ((items : List OneItem) → EndsAt item.now items
        → PreservesOutput runner.old slices.old
        (arrival_list (item.now ∷ items)) runner.new slices.new (arrival_list items)) }
    ensures idle { OnOk result (runner.new.idle ≡ true) }
    ensures latest { OnOk result
        (runner.new.latest ≤ latest_from runner.old.latest (item.now ∷ [])) }
    ensures stands { OnOk result (runner.new.ending ≡ None → StandsBehind runner.new item.now) }
    ensures neighbours { OnOk result
        ((items : List OneItem) → Any (λ other. other ≡ item.now) items
        → LeadTo items slices.old runner.old.position
        → LeadTo items slices.new runner.new.position) }
{
    match item {
        Item::Chunk(span, instant) => {
            if runner.offer(span.stop - span.start, *instant).is_ok() {
                take_cuts(runner, slices)?;
            }
        }
        Item::Closed(instant) => {
            runner.finish(*instant);
        }
        Item::Quiet => {
            runner.quiet();
        }
        Item::Reset(_) => {}
    }
    Ok(())
}

/// What a plan delivers of these arrivals.
fn deliver_plan(
    alloc: Global,
    plan: Plan,
    words: &Words,
    arrivals: &Arrivals,
) -> Result<Outcome, AllocError>
    ensures stream { IfOk result (λ _. IsStream (arrival_list arrivals.now)) }
    ensures flow { IfOk result (IsOutcomeOf (means plan words.now (arrival_list arrivals.now))) }
    ensures neighbours { IfOk result
        (λ outcome. AreNeighbours (arrival_list arrivals.now) 0 outcome.slices) }
{
    let mut runner = Runner::new(plan, words);
    let mut slices = SliceList::new(alloc);
    for item in arrivals.items() {
        take_item(&mut runner, &mut slices, item)?;
    }
    let ending = runner.ending().unwrap_or_else(|| runner.quiet());
    Ok(Outcome { slices, ending })
}

/// What the chain delivers of these arrivals, on a link with these words: what the compiled plan gives.
///
/// Every run of the chain's stage network that has come to rest, in whatever order its stages stepped
/// and whatever room its queues had, delivered these bytes at these instants and ended so.
pub fn deliver(
    alloc: Global,
    chain: &Chain,
    words: &Words,
    arrivals: &Arrivals,
) -> Result<Outcome, AllocError>
    ensures flow { IfOk result
        (IsOutcomeOf (chain_flow chain.now words.now (arrival_list arrivals.now))) }
    ensures neighbours { IfOk result
        (λ outcome. AreNeighbours (arrival_list arrivals.now) 0 outcome.slices) }
    ensures every_run { IfOk result
        (λ outcome. OfEveryRest chain.now words.now (arrival_list arrivals.now)
        (λ moves network. IsOutcomeOf network.delivered outcome)) }
{
    deliver_plan(alloc, compile(chain, words), words, arrivals)
}

//! A tree over the runs of a proxy. Each fork has a summary of its runs, so that the runs of a range of connections are found quickly.
ghost use Rattle.std.specs.Prelude.{◌≡◌, ◌+◌, ◌<◌, ◌≤◌, ◌^◌, ◌↔◌, ◌⊎◌, ◌++◌, ◌∷◌, [], IsTrue, List, length, IfOk};
ghost use Rattle.tox_check.specs.Coverage.{cut_to_range, reaches, within};
ghost use Rattle.tox_check.specs.declared.run.Run.{Run as SomeRun};
ghost use Rattle.tox_check.specs.Summary.{Orders, Sums};
ghost use Rattle.tox_check.specs.RuleRuns.{HasMoreRuns, unshown_count};
ghost use Rattle.tox_check.specs.Tree.{IsTree, runs_in};

use crate::rule_runs::RuleRuns;
use crate::run::Run;
use std::alloc::{AllocError, Global};

/// The connections of a rule, and the rule's number from 1.
#[derive(Clone, Copy)]
pub(crate) struct Range {
    pub(crate) rule: usize,
    pub(crate) first: u64,
    pub(crate) last: u64,
}

/// What some runs have in common.
#[derive(Clone, Copy, Drop)]
pub(crate) struct Summary {
    /// A lower bound of the runs' first connections.
    pub(crate) first: u64,
    /// An upper bound of the runs' last connections.
    pub(crate) last: u64,
    pub(crate) count: usize,
    /// The least number of a rule.
    pub(crate) low: usize,
    /// The greatest number of a rule.
    pub(crate) high: usize,
}

/// One run or more.
#[cycle(tree)]
#[derive(Drop)]
pub(crate) enum RunTree {
    Leaf(Run),
    Fork(Summary, Box<RunTree>, Box<RunTree>),
}

/// The balanced tree of some runs.
pub(crate) fn tree_of(alloc: Global, runs: &[Run]) -> Result<RunTree, AllocError>
    requires some { 0 < length runs.now }
    requires ordered { Orders runs.now }
    ensures whole { IfOk result (λ tree. runs_in tree ≡ runs.now) }
    ensures sums { IfOk result IsTree }
{
    match runs {
        [run] => Ok(RunTree::Leaf(*run)),
        _ => {
            let (front, back) = runs.split_at(runs.len() / 2);
            let left = tree_of(alloc, front)?;
            let right = tree_of(alloc, back)?;
            let summary = left.summary().with(&right.summary());
            Ok(RunTree::Fork(summary, Box::new(alloc, left)?, Box::new(alloc, right)?))
        }
    }
}

impl Summary {
    /// The summary of one run.
    fn of(run: &Run) -> Summary
        requires { run.now.first ≤ run.now.last }
        ensures { Sums (run.now ∷ []) result }
    {
        Summary {
            first: run.first,
            last: run.last,
            count: 1,
            low: run.rule,
            high: run.rule,
        }
    }

    /// The summary of these runs and of others.
    fn with(&self, other: &Summary) -> Summary
        requires { self.now.count + other.now.count < 2 ^ 64 }
        ensures { (runs more : List SomeRun) → Sums runs self.now → Sums more other.now
            → Sums (runs ++ more) result }
    {
        Summary {
            first: self.first.min(other.first),
            last: self.last.max(other.last),
            count: self.count + other.count,
            low: self.low.min(other.low),
            high: self.high.max(other.high),
        }
    }

    /// Whether no run intersects a range.
    fn is_outside(&self, range: Range) -> bool
        ensures { IsTrue result ↔ ((self.now.last < range.first) ⊎ (range.last < self.now.first)) }
    {
        self.last < range.first || range.last < self.first
    }

    /// Whether each run is within a range.
    fn is_inside(&self, range: Range) -> bool
        ensures { IsTrue result ↔ ((range.first ≤ self.now.first) × (self.now.last ≤ range.last)) }
    {
        range.first <= self.first && self.last <= range.last
    }
}

impl RunTree {
    /// The summary of all runs.
    pub(crate) fn summary(&self) -> Summary
        requires { IsTree self.now }
        ensures { Sums (runs_in self.now) result }
    {
        match self {
            RunTree::Leaf(run) => Summary::of(run),
            RunTree::Fork(summary, _, _) => *summary,
        }
    }

    /// Appends the runs that intersect a range, cut to it, in order.
    #[cycle(tree)]
    pub(crate) fn append_to(&self, range: Range, found: &mut RuleRuns)
        requires tree { IsTree self.now }
        requires rule { found.old.rule ≡ range.rule }
        requires few { unshown_count found.old + length (runs_in self.now) < 2 ^ 64 }
        ensures runs { HasMoreRuns range.rule
            (within range.first range.last (runs_in self.now)) found.old found.new }
        ensures few { unshown_count found.new
            ≤ unshown_count found.old + length (runs_in self.now) }
        ensures rule { found.new.rule ≡ range.rule }
    {
        match self {
            RunTree::Leaf(run) => append_cut(run, range, found),
            RunTree::Fork(summary, _, _) if summary.is_outside(range) => {}
            RunTree::Fork(summary, _, _)
                if summary.is_inside(range) && found.only_counts(summary) => {
                found.count(summary);
            }
            RunTree::Fork(_, left, right) => {
                left.append_to(range, found);
                right.append_to(range, found);
            }
        }
    }
}

/// Appends a run that intersects a range, cut to it.
fn append_cut(run: &Run, range: Range, found: &mut RuleRuns)
    requires rule { found.old.rule ≡ range.rule }
    requires few { unshown_count found.old + 1 < 2 ^ 64 }
    ensures runs { HasMoreRuns range.rule
        (within range.first range.last (run.now ∷ [])) found.old found.new }
    ensures few { unshown_count found.new ≤ unshown_count found.old + 1 }
    ensures rule { found.new.rule ≡ range.rule }
{
    if range.first <= run.last && run.first <= range.last {
        found.push(Run {
            first: run.first.max(range.first),
            last: run.last.min(range.last),
            rule: run.rule,
        });
    }
}

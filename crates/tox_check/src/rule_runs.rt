//! What the connections of a rule meet.
ghost use Rattle.std.specs.Prelude.{◌≡◌, ◌+◌, ◌<◌, ◌≤◌, ◌^◌, ◌↔◌, [], ◌∷◌, IsTrue, List, length};
ghost use Rattle.tox_check.specs.declared.run.Run.{Run as SomeRun};
ghost use Rattle.tox_check.specs.Summary.{Sums};
ghost use Rattle.tox_check.specs.RuleRuns.{HasRuns, HasMoreRuns, unshown_count};

use crate::listed::Listed;
use crate::run::Run;
use crate::tree::Summary;

/// Which runs of a rule's connections meet the rule itself, and which meet others.
#[derive(Drop)]
pub(crate) struct RuleRuns {
    /// The number of the rule, from 1.
    pub(crate) rule: usize,
    pub(crate) own: Listed,
    pub(crate) taken: Listed,
    /// The least number of a rule that takes a run, or the rule's own.
    pub(crate) low: usize,
    /// The greatest number of a rule that takes a run, or 0.
    pub(crate) high: usize,
}

impl RuleRuns {
    /// No runs.
    pub(crate) fn new(rule: usize) -> RuleRuns
        ensures runs { HasRuns rule [] result }
        ensures few { unshown_count result ≡ 0 }
        ensures rule { result.rule ≡ rule }
    {
        RuleRuns {
            rule,
            own: Listed::new(),
            taken: Listed::new(),
            low: rule,
            high: 0,
        }
    }

    /// Appends a run.
    pub(crate) fn push(&mut self, run: Run)
        requires { unshown_count self.old + 1 < 2 ^ 64 }
        ensures runs { HasMoreRuns self.old.rule (run ∷ []) self.old self.new }
        ensures few { unshown_count self.new ≤ unshown_count self.old + 1 }
        ensures rule { self.new.rule ≡ self.old.rule }
    {
        if run.rule == self.rule {
            self.own.push(run);
        } else {
            self.taken.push(run);
            self.low = self.low.min(run.rule);
            self.high = self.high.max(run.rule);
        }
    }

    /// Whether the runs of a summary would only be counted: none is the rule's own, and none would be shown.
    pub(crate) fn only_counts(&self, summary: &Summary) -> bool
        ensures { IsTrue result
            ↔ ((summary.now.high < self.now.rule) × (length self.now.taken.shown.items ≡ 8)) }
    {
        summary.high < self.rule && self.taken.is_full()
    }

    /// Appends the runs of a summary by their count alone.
    pub(crate) fn count(&mut self, summary: &Summary)
        requires few { unshown_count self.old + summary.now.count < 2 ^ 64 }
        requires full { length self.old.taken.shown.items ≡ 8 }
        requires others { summary.now.high < self.old.rule }
        ensures runs { (more : List SomeRun) → Sums more summary.now
            → HasMoreRuns self.old.rule more self.old self.new }
        ensures few { unshown_count self.new ≤ unshown_count self.old + summary.now.count }
        ensures rule { self.new.rule ≡ self.old.rule }
    {
        self.taken.skip(summary.count);
        self.low = self.low.min(summary.low);
        self.high = self.high.max(summary.high);
    }
}

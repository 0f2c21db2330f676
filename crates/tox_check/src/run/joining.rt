//! Builds runs from the latest to the earliest, and joins adjacent ones.
ghost use Rattle.std.specs.Prelude.{◌≡◌, ◌+◌, ◌<◌, ◌≤◌, ◌^◌, [], IfOk, OnOk};
ghost use Rattle.std.specs.Option.{ForSome};
ghost use Rattle.tox_check.specs.Runs.{ahead, joins, step_ahead};

use crate::run::Run;
use std::alloc::{AllocError, Global};
use std::marker::Model;
use tox_script::Step;

/// Runs added from the latest to the earliest. The earliest one may still grow.
#[derive(Drop)]
pub(crate) struct Joining {
    earliest: Option<Run>,
    later: Vec<Run>,
}

impl Model for Joining {
    ghost use Rattle.std.specs.Prelude.{◌≡◌, List, [], ◌++◌, reverse};
    ghost use Rattle.std.specs.Option.{ForNone, option_to_list};
    ghost use Rattle.tox_check.specs.declared.run.Run.{Run};

    ghost Value = { List Run };

    ghost view = { λ joining. option_to_list joining.earliest ++ reverse joining.later.items };

    ghost invariant = { λ joining. ForNone joining.earliest (joining.later.items ≡ []) };
}

impl Joining {
    /// No runs.
    pub(crate) fn new(alloc: Global) -> Joining
        ensures { result ≡ [] }
    {
        Joining {
            earliest: None,
            later: Vec::new(alloc),
        }
    }

    /// Prepends the connections of a step from 1 to `until`.
    pub(crate) fn put_step(&mut self, step: Step, until: u64) -> Result<(), AllocError>
        requires last { until ≤ 1_000_000 }
        requires numbered { 1 ≤ until → step.first ≤ until
            → ForSome step.rule (λ rule. rule + 1 < 2 ^ 64) }
        ensures { OnOk result (self.new ≡ step_ahead step until self.old) }
    {
        let first = step.first.max(1);
        match step.rule {
            Some(rule) if first <= until => self.put(Run {
                first,
                last: until,
                rule: rule + 1,
            }),
            _ => Ok(()),
        }
    }

    /// Prepends a run. It is joined with the earliest one if they are adjacent and meet the same rule.
    fn put(&mut self, run: Run) -> Result<(), AllocError>
        requires { run.last ≤ 1_000_000 }
        ensures { OnOk result (self.new ≡ ahead run self.old) }
    {
        match self.earliest {
            None => self.earliest = Some(run),
            Some(next) if joins(run, next) => {
                self.earliest = Some(Run {
                    first: run.first,
                    last: next.last,
                    rule: run.rule,
                });
            }
            Some(next) => {
                self.later.push(next)?;
                self.earliest = Some(run);
            }
        }
        Ok(())
    }

    /// The runs, the earliest first.
    pub(crate) fn finish(self) -> Result<Vec<Run>, AllocError>
        ensures { IfOk result (λ runs. runs.items ≡ self) }
    {
        let mut runs = self.later;
        if let Some(run) = self.earliest {
            runs.push(run)?;
        }
        runs.reverse();
        Ok(runs)
    }
}

/// Whether two runs are adjacent and meet the same rule.
fn joins(run: Run, next: Run) -> bool
    requires { run.last ≤ 1_000_000 }
    ensures { result ≡ joins run next }
{
    next.rule == run.rule && next.first == run.last + 1
}

//! Runs of connections that meet one rule.
ghost use Rattle.std.specs.Prelude.{IfOk};
ghost use Rattle.tox_script.specs.index.Steps.{rule_at};
ghost use Rattle.tox_check.specs.Runs.{AreNumbered, IsRuns, number_at};

pub(crate) mod joining;

use crate::run::joining::Joining;
use std::alloc::{AllocError, Global};
use tox_script::Step;

/// The last connection of a proxy.
pub(crate) const LAST: u64 = 1_000_000;

/// Consecutive connections that meet one rule. Rules are numbered from 1.
#[derive(Clone, Copy, Default, Drop)]
pub(crate) struct Run {
    pub(crate) first: u64,
    pub(crate) last: u64,
    pub(crate) rule: usize,
}

/// The maximal runs of connections 1 to [`LAST`] by the steps of an index, in order.
pub(crate) fn runs_of(alloc: Global, steps: &[Step]) -> Result<Vec<Run>, AllocError>
    requires { AreNumbered (λ conn. rule_at conn steps.now) }
    ensures { IfOk result (λ runs. IsRuns (λ conn. number_at conn steps.now) 1 runs.items) }
{
    let mut joining = Joining::new(alloc);
    let mut until = LAST;
    for step in steps {
        joining.put_step(*step, until)?;
        until = until.min(step.first.saturating_sub(1));
    }
    joining.finish()
}

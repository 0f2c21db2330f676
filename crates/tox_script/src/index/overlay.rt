//! Steps laid over others.
ghost use Rattle.std.specs.Prelude.{◌≡◌, ◌<◌, ◌^◌, ℕ, IfOk, max};
ghost use Rattle.std.specs.Option.{option_or};
ghost use Rattle.tox_script.specs.index.Overlay.{latest_step, rule_in, without_latest};
ghost use Rattle.tox_script.specs.index.Steps.{Descends, rule_at};

use crate::index::step::Step;
use std::alloc::{AllocError, Global};

/// The steps by which a connection has its rule in the upper steps, and else that in the lower ones.
pub(crate) fn overlay(
    alloc: Global,
    upper: &[Step],
    lower: &[Step],
) -> Result<Vec<Step>, AllocError>
    requires upper { Descends (2 ^ 64) upper.now }
    requires lower { Descends (2 ^ 64) lower.now }
    ensures found { IfOk result (λ steps. (conn : ℕ) → rule_at conn steps.items
        ≡ option_or (rule_at conn upper.now) (rule_at conn lower.now)) }
    ensures descends { IfOk result (λ steps. Descends (2 ^ 64) steps.items) }
{
    let mut steps = Vec::new(alloc);
    let mut above = upper;
    let mut below = lower;
    while let Some(step) = joined(above, below) {
        steps.push(step)?;
        above = behind(above, step.first);
        below = behind(below, step.first);
    }
    Ok(steps)
}

/// The latest step of steps laid over others.
fn joined(above: &[Step], below: &[Step]) -> Option<Step>
    ensures { result ≡ latest_step above.now below.now }
{
    let first = match (above, below) {
        ([], []) => return None,
        ([step, ..], []) | ([], [step, ..]) => step.first,
        ([upper, ..], [lower, ..]) => upper.first.max(lower.first),
    };
    Some(Step {
        first,
        rule: rule_in(above).or(rule_in(below)),
    })
}

/// The rule of the latest of some steps.
fn rule_in(steps: &[Step]) -> Option<usize>
    ensures { result ≡ rule_in steps.now }
{
    match steps {
        [] => None,
        [step, ..] => step.rule,
    }
}

/// The steps without the one that begins at this connection, which can only be the latest.
fn behind(steps: &[Step], first: u64) -> &[Step]
    ensures { result.now ≡ without_latest first steps.now }
{
    match steps {
        [step, rest @ ..] if step.first == first => rest,
        _ => steps,
    }
}

//! An index of the rules of one proxy: which rule a connection meets.
ghost use Rattle.std.specs.Prelude.{◌≡◌, ◌<◌, ◌+◌, ◌^◌, ℕ, IfOk, length};
ghost use Rattle.std.specs.List.{position_from};
ghost use Rattle.tox_script.specs.Covering.{covers};
ghost use Rattle.tox_script.specs.index.Steps.{Descends, HaveRules};
ghost use Rattle.tox_script.specs.Views.{rule_view};
ghost use Rattle.tox_words.specs.declared.lanes.Lanes.TheVariants.{Sixteen};

mod overlay;
pub(crate) mod rule_index;
pub(crate) mod step;

use crate::index::overlay::overlay;
use crate::index::step::Step;
use crate::rule::Rule;
use std::alloc::{AllocError, Global};

/// The steps of some rules, the first of which has this number: each connection has the first rule that covers it.
pub(crate) fn steps_of(
    alloc: Global,
    rules: &[Rule],
    proxy: &str,
    number: usize,
) -> Result<Vec<Step>, AllocError>
    requires { number + length rules.now < 2 ^ 64 }
    // `covers` reads no chains, so the lanes don't matter.
    ensures found { IfOk result (λ steps. HaveRules steps.items (λ conn.
        position_from (λ rule. covers proxy.now conn (rule_view Sixteen rule)) number rules.now)) }
    ensures descends { IfOk result (λ steps. Descends (2 ^ 64) steps.items) }
{
    match rules {
        [] => Ok(Vec::new(alloc)),
        [rule] => rule.steps(alloc, proxy, number),
        _ => {
            let (front, back) = rules.split_at(rules.len() / 2);
            let upper = steps_of(alloc, front, proxy, number)?;
            let lower = steps_of(alloc, back, proxy, number + front.len())?;
            overlay(alloc, &upper, &lower)
        }
    }
}

//! Which rule each connection of a proxy meets.
ghost use Rattle.std.specs.Prelude.{◌≡◌, ◌<◌, ◌^◌, ℕ, IfOk, false, nat_lt, true};
ghost use Rattle.std.specs.List.Sorted.{IsPartitionPoint};
ghost use Rattle.std.specs.List.{position_from};
ghost use Rattle.tox_script.specs.Covering.{covers};
ghost use Rattle.tox_script.specs.index.Steps.{HaveRules, rule_at};
ghost use Rattle.tox_script.specs.Views.{rule_view};
ghost use Rattle.tox_words.specs.declared.lanes.Lanes.TheVariants.{Sixteen};

use crate::index::step::Step;
use crate::index::steps_of;
use crate::rule::Rule;
use std::alloc::{AllocError, Global};
use std::marker::Model;

/// Which rule each connection of a proxy meets: its number from 0, by halving.
#[derive(Debug, Drop)]
pub struct RuleIndex {
    steps: Vec<Step>,
}

impl Model for RuleIndex {
    ghost use Rattle.std.specs.Prelude.{◌^◌, List};
    ghost use Rattle.tox_script.specs.declared.index.step.Step.{Step};
    ghost use Rattle.tox_script.specs.index.Steps.{Descends};

    ghost Value = { List Step };

    ghost view = { λ index. index.steps.items };

    ghost invariant = { λ index. Descends (2 ^ 64) index.steps.items };
}

impl RuleIndex {
    ghost use Rattle.tox_script.specs.index.Steps.{Descends};

    /// The index of some rules.
    pub(crate) fn of(alloc: Global, rules: &[Rule], proxy: &str) -> Result<RuleIndex, AllocError>
        ensures { IfOk result (λ index. HaveRules index (λ conn.
            position_from (λ rule. covers proxy.now conn (rule_view Sixteen rule)) 0 rules.now)) }
    {
        let steps = steps_of(alloc, rules, proxy, 0)?;
        Ok(RuleIndex { steps })
    }

    /// The rule that a connection meets, or None where it meets none.
    pub fn rule(&self, conn: u64) -> Option<usize>
        ensures { result ≡ rule_at conn self.now }
    {
        let latest = self.later(conn);
        if latest < self.steps.len() {
            self.steps[latest].rule
        } else {
            None
        }
    }

    /// The steps of the index, the latest first.
    pub fn steps(&self) -> &[Step]
        ensures found { result.now ≡ self.now }
        ensures descends { Descends (2 ^ 64) result.now }
    {
        &self.steps
    }

    /// How many steps begin behind a connection. They are the first ones.
    fn later(&self, conn: u64) -> usize
        ensures { IsPartitionPoint (λ step. nat_lt conn step.first ≡ true)
            (λ step. nat_lt conn step.first ≡ false) self.now result }
    {
        self.steps.partition_point(|step| conn < step.first)
    }
}

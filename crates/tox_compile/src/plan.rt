//! Plans.
ghost use Rattle.std.specs.Prelude.{◌≡◌, ◌<◌, List, ℕ, Some, false};
ghost use Rattle.tox_time.specs.declared.streams.item.Item.{Item as OneItem};
ghost use Rattle.tox_compile.specs.Drawing.{op_draws, plan_draws};
ghost use Rattle.tox_compile.specs.Meaning.{deadline_of, earlier, means};

use arrayvec::ArrayVec;
use std::marker::Model;
use tox_defs::{MAX_TOXICS, Op};
use tox_time::Micros;
use tox_words::Lanes;

/// A compiled chain: the operations of its applied toxics in order, each joined to the one before it if a rule
/// allows.
#[derive(Drop)]
pub struct Plan {
    lanes: Lanes,
    ops: ArrayVec<Op, MAX_TOXICS>,
}

impl Model for Plan {
    ghost use Rattle.tox_compile.specs.Meaning.{Ops};

    ghost Value = { Ops };

    ghost use Rattle.tox_compile.specs.PlanInside.{operations, KeepsPlan};

    ghost view = { operations };

    ghost invariant = { KeepsPlan };
}

impl Plan {
    ghost use Rattle.tox_compile.specs.Meaning.{IsPlan};

    /// The plan of these operations.
    pub(crate) fn of_ops(lanes: Lanes, ops: ArrayVec<Op, MAX_TOXICS>) -> Plan
        requires { IsPlan (record { lanes = lanes; ops = ops.items }) }
        ensures { result ≡ record { lanes = lanes; ops = ops.items } }
    {
        Plan { lanes, ops }
    }

    /// The lanes of the chain, from which the operations draw.
    pub fn lanes(&self) -> Lanes
        ensures { result ≡ self.now.lanes }
    {
        self.lanes
    }

    /// The operations in order.
    pub fn ops(&self) -> &[Op]
        ensures value { result.now ≡ self.now.ops }
        ensures plan { IsPlan self.now }
    {
        &self.ops
    }

    /// The instant from which arrivals change nothing: 0 if an operation drops all data, else the earliest
    /// cutoff or instant of a halt.
    pub fn deadline(&self) -> Option<Micros>
        ensures { result ≡ deadline_of self.now.ops }
    {
        deadline_of(&self.ops)
    }

    /// Whether some operation draws words. Where none does, the plan means the same for all words.
    pub fn draws(&self) -> bool
        ensures value { result ≡ plan_draws self.now.ops }
        ensures same { result ≡ false → (words other : List ℕ) (items : List OneItem)
            → means self.now words items ≡ means self.now other items }
    {
        plan_draws(self.ops())
    }
}

/// Whether some of these operations draws words.
fn plan_draws(ops: &[Op]) -> bool
    ensures { result ≡ plan_draws ops.now }
{
    ops.iter().any(op_draws)
}

/// Whether an operation draws words.
fn op_draws(op: &Op) -> bool
    ensures { result ≡ op_draws op.now }
{
    match op {
        Op::Delay { jitter, .. } => *jitter > 0,
        Op::Slicing { variation, .. } => *variation > 0,
        _ => false,
    }
}

fn deadline_of(ops: &[Op]) -> Option<Micros>
    ensures { result ≡ deadline_of ops.now }
{
    let (op, others) = ops.split_first()?;
    match op {
        Op::Mute { .. } => Some(Micros::ZERO),
        Op::Cutoff { instant } => Some(earlier(*instant, deadline_of(others))),
        Op::Halt { at: Some(at), .. } => Some(earlier(*at, deadline_of(others))),
        _ => deadline_of(others),
    }
}

/// The earlier of an instant and an optional one.
pub fn earlier(instant: Micros, other: Option<Micros>) -> Micros
    ensures { earlier instant other ≡ Some result }
{
    match other {
        Some(other) if other < instant => other,
        _ => instant,
    }
}

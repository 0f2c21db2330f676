//! By when a plan ends its stream, whatever arrives.
ghost use Rattle.std.specs.Prelude.{◌≡◌, ◌<◌, ◌^◌, None, fold};
ghost use Rattle.tox_plan.specs.EndsBy.{EndsEachStream};
ghost use Rattle.tox_sockets.specs.ResetDue.{after_op, later_by, not_before};

use tox_compile::earlier;
use tox_defs::Op;
use tox_time::{Ending, Micros};

/// The instant by which operations end every stream. None if no such instant is known: a stream may go on for ever, or how
/// long its bytes take depends on their number.
pub fn reset_due(ops: &[Op]) -> Option<Micros>
    ensures value { result ≡ fold after_op None ops.now }
    ensures ended { EndsEachStream ops.now result }
{
    due_behind(None, ops)
}

/// The instant by which a stream that ends by `due` has ended behind these operations.
fn due_behind(due: Option<Micros>, ops: &[Op]) -> Option<Micros>
    ensures { result ≡ fold after_op due ops.now }
{
    let Some((op, others)) = ops.split_first() else {
        return due;
    };
    due_behind(after_op(due, op), others)
}

fn after_op(due: Option<Micros>, op: &Op) -> Option<Micros>
    ensures { result ≡ after_op due op.now }
{
    match op {
        Op::Cutoff { instant } => Some(earlier(*instant, due)),
        Op::Limit { .. } => due,
        Op::Slow { millis } => later_by(due, u64::from(*millis)),
        Op::Delay {
            fixed,
            latency,
            jitter,
            ..
        } => later_by(
            due,
            u64::from(*fixed) + u64::from(*latency) + u64::from(*jitter),
        ),
        Op::Halt { ending, .. } => not_before(due, ending),
        Op::Pace { .. } | Op::Slicing { .. } | Op::Mute { .. } => None,
    }
}

/// So many milliseconds later, if there is an instant.
fn later_by(due: Option<Micros>, millis: u64) -> Option<Micros>
    requires { millis < 2 ^ 40 }
    ensures { result ≡ later_by due millis }
{
    let due = due?;
    Some(due.after(1000 * millis))
}

/// The instant, if there is one, raised to that of an ending. None if the ending leaves the link open.
fn not_before(due: Option<Micros>, ending: &Ending) -> Option<Micros>
    ensures { result ≡ not_before due ending.now }
{
    let due = due?;
    match ending {
        Ending::StillOpen => None,
        Ending::Closed(end) | Ending::Reset(end) => Some(due.later(*end)),
    }
}

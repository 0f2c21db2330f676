//! The cursors of a plan before anything was offered.
ghost use Rattle.std.specs.Prelude.{◌≡◌, ◌+◌, ◌<◌, ◌≤◌, ◌++◌, length, None};
ghost use Rattle.tox_defs.specs.chain.Chain.{max_toxics};
ghost use Rattle.tox_plan.specs.OpCursors.{cursors_at_start, ending_at_start};

use arrayvec::ArrayVec;
use tox_defs::{MAX_TOXICS, Op, OpCursor};
use tox_time::Ending;

/// Adds the cursors of these operations at their start, the last operation first.
pub(crate) fn push_cursors(cursors: &mut ArrayVec<OpCursor, MAX_TOXICS>, ops: &[Op])
    requires { length cursors.old.items + length ops.now ≤ max_toxics }
    ensures items { cursors.new.items ≡ cursors.old.items ++ cursors_at_start ops.now }
    ensures len { length cursors.new.items ≡ length cursors.old.items + length ops.now }
{
    if let [op, later @ ..] = ops {
        push_cursors(cursors, later);
        cursors.push(OpCursor {
            op: *op,
            ending: ending_at_start(op),
            ..OpCursor::default()
        });
    }
}

/// The ending that an operation has from the start.
fn ending_at_start(op: &Op) -> Option<Ending>
    ensures { result ≡ ending_at_start op.now }
{
    match op {
        Op::Mute { ending } => Some(*ending),
        _ => None,
    }
}

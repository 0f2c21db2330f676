//! That the writer's side of a link may rest.
ghost use Rattle.std.specs.Prelude.{IfNone};
ghost use Rattle.tox_link.specs.steps.Held.{MayTake};

use crate::link_core::direction_core::DirectionCore;
use crate::steps::room::may_take;
use tox_lend::Window;

/// The writer's side may rest once: its last pop gave nothing, or nothing may be taken. It can't be copied, so each rest follows
/// a new pop or a new look.
#[derive(Drop)]
pub struct Idle {
    once: (),
}

impl Idle {
    /// The last pop gave nothing.
    pub(super) fn of_pop() -> Idle {
        Idle { once: () }
    }

    /// None if input may be taken.
    pub fn of_look(core: &DirectionCore<'_>, window: &Window, ended: bool) -> Option<Idle>
        ensures { IfNone result (MayTake core.now window.now ended) }
    {
        if may_take(core, window, ended) {
            None
        } else {
            Some(Idle { once: () })
        }
    }
}

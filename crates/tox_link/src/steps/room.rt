//! Whether there is room for input, and for how much.
ghost use Rattle.std.specs.Prelude.{◌≡◌, ◌+◌, ◌<◌, ◌≤◌, ◌↔◌, false, length, None, IsTrue};
ghost use Rattle.tox_link.specs.link_core.Core.{core_ending, kept_count};
ghost use Rattle.tox_link.specs.steps.Held.{MayTake};

use crate::link_core::direction_core::DirectionCore;
use tox_lend::Window;

/// Whether input may be taken. A piece that comes once the ending is known is dropped, so it needs no room in the window.
pub(crate) fn may_take(core: &DirectionCore<'_>, window: &Window, ended: bool) -> bool
    ensures { IsTrue result ↔ MayTake core.now window.now ended }
{
    !ended && core.room_left() > 0 && (window.has_room() || core.ending().is_some())
}

/// How many pieces may be taken, where one may.
pub(crate) fn pieces_to_take(core: &DirectionCore<'_>, window: &Window) -> usize
    requires { MayTake core.now window.now false }
    ensures some { 0 < result }
    ensures core { kept_count core.now + result ≤ core.now.room }
    ensures window { core_ending core.now ≡ None
        → length window.now.held + result ≤ window.now.room }
{
    let room = core.room_left();
    match core.ending() {
        Some(_) => room,
        None => room.min(window.room_left()),
    }
}

//! A reading of the clock reaches the core.
ghost use Rattle.std.specs.Prelude.{◌≡◌, ◌≤◌, ◌⊎◌};
ghost use Rattle.tox_link.specs.link_core.Acts.{Answered};
ghost use Rattle.tox_link.specs.log.Carried.{KeepsCarried, noted_of};

use crate::clock::{Clock, reading};
use crate::link_core::act::Act;
use crate::link_core::direction_core::DirectionCore;
use tox_time::Micros;

/// Asks the core at the greatest reading so far. Returns its answer and that reading.
pub(crate) fn decide<C: Clock>(core: &mut DirectionCore<'_>, clock: &C) -> (Act, Micros)
    requires { (core.old.latest ≡ 0) ⊎ C.reported clock.now core.old.latest }
    ensures reported { C.reported clock.now result.1 × (core.old.latest ≤ result.1) }
    ensures answered { Answered core.old core.new result.1 result.0 }
    ensures carried { KeepsCarried (C.reported clock.now) core.old (noted_of result.0 result.1)
        core.new }
{
    let now = reading(clock, core.latest());
    (core.on_clock(now), now)
}

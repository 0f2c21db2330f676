//! Endings in order.
ghost use Rattle.std.specs.Prelude.{◌≡◌};
ghost use Rattle.tox_time.specs.streams.Table.{final_of};
ghost use Rattle.tox_defs.specs.toxics.Ordered.{in_order};

use tox_time::{Ending, Micros};

/// The ending, put off to an instant if it would come before it.
pub(crate) fn in_order(since: Micros, ending: &Ending) -> Ending
    ensures { final_of result ≡ in_order since (final_of ending.now) }
{
    match ending {
        Ending::StillOpen => Ending::StillOpen,
        Ending::Closed(instant) => Ending::Closed(since.later(*instant)),
        Ending::Reset(instant) => Ending::Reset(since.later(*instant)),
    }
}

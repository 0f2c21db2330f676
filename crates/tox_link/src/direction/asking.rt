//! Asking the core for the slices that are written next.
ghost use Rattle.std.specs.Prelude.{◌≡◌, ℕ, ◌<◌, ◌≤◌, ◌⊎◌, List, [], ◌∷◌, ◌++◌, length, Option};
ghost use Rattle.tox_link.specs.declared.notes.LinkEvent.{LinkEvent as OneEvent};
ghost use Rattle.tox_link.specs.direction.Driven.{Drove, begun_by, steps_of_act, ends_view};
ghost use Rattle.tox_link.specs.direction.Follows.{AreBegun, IsHeld};
ghost use Rattle.tox_link.specs.link_core.Acts.{Answered};

use crate::clock::Clock;
use crate::direction::polled_link::PolledLink;
use crate::direction::unwritten::{MAX_TOGETHER, Unwritten};
use crate::link_core::act::Act;
use crate::steps::deciding::decide;
use tox_time::{Micros, Slice};

/// Asks the core at the clock's reading. The slice of a `Write` is to be written behind those that are being written.
pub(crate) fn ask<C: Clock>(link: &mut PolledLink, clock: &C) -> Act
    requires held { IsHeld link.old }
    requires read { (link.old.core.latest ≡ 0) ⊎ C.reported clock.now link.old.core.latest }
    requires room { length link.old.unwritten.items < 4 }
    requires begun { AreBegun (C.reported clock.now) link.old.unwritten.items }
    ensures held { IsHeld link.new }
    ensures begun { AreBegun (C.reported clock.now) link.new.unwritten.items }
    ensures reported { C.reported clock.now link.new.core.latest }
    ensures answered { Answered link.old.core link.new.core link.new.core.latest result }
    ensures same { link.new ≡ record link.old {
      core = link.new.core;
      unwritten = record {
        items = link.old.unwritten.items ++ begun_by result link.new.core.latest;
      };
    } }
    ensures drove { (left written : Option (List ℕ)) (events : Option (List OneEvent))
        → Drove (steps_of_act result) (C.reported clock.now)
        link.old (ends_view left written events)
        link.new (ends_view left written events) }
{
    let (act, reading) = decide(&mut link.core, clock);
    if let Act::Write(slice) = &act {
        begin(link, slice, &reading);
    }
    act
}

/// Asks for the slices behind one that leaves now, as far as one call writes them: at most four in all. Where no piece is held
/// behind it nothing is asked.
pub(crate) fn ask_further<C: Clock>(link: &mut PolledLink, clock: &C, first: &Slice)
    requires held { IsHeld link.old }
    requires read { C.reported clock.now link.old.core.latest }
    requires begun { AreBegun (C.reported clock.now) link.old.unwritten.items }
    ensures held { IsHeld link.new }
    ensures begun { AreBegun (C.reported clock.now) link.new.unwritten.items }
    ensures reported { C.reported clock.now link.new.core.latest }
    ensures same { link.new ≡ record link.old {
      core = link.new.core;
      unwritten = link.new.unwritten;
    } }
    ensures ended { link.new.core.ended ≡ link.old.core.ended }
    ensures drove { (left written : Option (List ℕ)) (events : Option (List OneEvent))
        → Drove 0 (C.reported clock.now)
        link.old (ends_view left written events)
        link.new (ends_view left written events) }
{
    let mut stop = first.span.stop;
    for _ in 1..MAX_TOGETHER {
        if stop == link.window.stop() || link.unwritten.is_full() {
            return;
        }
        let Act::Write(next) = ask(link, clock) else {
            return;
        };
        stop = next.span.stop;
    }
}

/// The slice is to be written behind the others.
fn begin(link: &mut PolledLink, slice: &Slice, reading: &Micros)
    requires { length link.old.unwritten.items < 4 }
    ensures { link.new ≡ record link.old {
      unwritten = record {
        items = link.old.unwritten.items
            ++ record { slice = slice.now; reading = reading.now } ∷ [];
      };
    } }
{
    link.unwritten.push(Unwritten {
        slice: *slice,
        reading: *reading,
    });
}

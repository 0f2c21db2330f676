//! A piece or the source's end reaches the core.
ghost use Rattle.std.specs.Prelude.{◌≡◌, ◌+◌, ◌<◌, ◌≤◌, ◌^◌, ◌⊎◌, length, vec_capacity, false, true, None, IsSome, is_none, OnOk, OnErr};
ghost use Rattle.tox_link.specs.link_core.Core.{core_ending, kept_count};
ghost use Rattle.tox_link.specs.log.Carried.{ReadsOn, noted_end};
ghost use Rattle.tox_link.specs.log.Events.{with_events};
ghost use Rattle.tox_link.specs.steps.Held.{with_held_piece};
ghost use Rattle.tox_link.specs.steps.Arriving.{CarriesOn, TakesIn};

use crate::clock::{Clock, reading};
use crate::link_core::direction_core::DirectionCore;
use crate::notes::{LinkEvent, Notes};
use std::alloc::AllocError;
use tox_lend::{Piece, Window};
use tox_time::{Ending, Micros};

/// A nonempty piece of at most 16,384 bytes arrives. It is stamped with the greatest reading so far, noted and kept. A refused note changes nothing.
pub(crate) fn take_piece<C: Clock, N: Notes>(
    core: &mut DirectionCore<'_>,
    window: &mut Window,
    clock: &C,
    notes: &mut N,
    bytes: Vec<u8>,
) -> Result<(), AllocError>
    requires room { (kept_count core.old < core.old.room)
        × (length window.old.held < window.old.room) }
    requires read { (core.old.latest ≡ 0) ⊎ C.reported clock.now core.old.latest }
    requires goes_on { (core.old.ended ≡ false) × (core_ending core.old ≡ None) }
    requires fits { (0 < length bytes.items) × (core.old.bytes + length bytes.items ≤ 2 ^ 40) }
    requires small { length bytes.items ≤ 16_384 }
    requires starts { window.old.stop ≡ core.old.bytes }
    ensures counts { OnOk result
        (TakesIn core.old core.new (core.old.bytes + length bytes.items) false) }
    ensures reads { ReadsOn (C.reported clock.now) core.old.latest core.new.latest }
    ensures carried { OnOk result (CarriesOn (C.reported clock.now)
        (N.events notes.old) (N.events notes.new) core.old core.new false) }
    ensures kept { OnOk result (window.new ≡ with_held_piece window.old (record {
      start = window.old.stop;
      bytes = bytes.items;
      instant = core.new.latest;
      room = vec_capacity bytes;
    })) }
    ensures room { OnOk result ((kept_count core.new ≡ kept_count core.old + 1)
        × (core.new.room ≡ core.old.room) × (core_ending core.new ≡ None)) }
    ensures err { OnErr result ((N.events notes.new ≡ N.events notes.old)
        × (core.new ≡ core.old) × (window.new ≡ window.old)) }
{
    let instant = reading(clock, core.latest());
    let len = bytes.len() as u64;
    notes.note(LinkEvent::Piece(len, instant))?;
    let Ok(()) = core.on_piece(len, instant) else {
        unreachable!()
    };
    window.add(Piece {
        start: window.stop(),
        bytes,
        instant,
    });
    Ok(())
}

/// Notes the source's end, unless the link's ending is known.
fn note_end<N: Notes>(
    notes: &mut N,
    ending: &Option<Ending>,
    now: &Micros,
) -> Result<(), AllocError>
    ensures noted { OnOk result (N.events notes.new
        ≡ with_events (N.events notes.old) (noted_end ending.now now.now)) }
    ensures known { IsSome ending.now → N.events notes.new ≡ N.events notes.old }
    ensures err { OnErr result (N.events notes.new ≡ N.events notes.old) }
{
    match ending {
        Some(_) => Ok(()),
        None => notes.note(LinkEvent::SourceEnd(*now)),
    }
}

/// The source's end arrives. It is noted unless the ending is known. A refused note leaves the core as it was.
pub(crate) fn take_end<C: Clock, N: Notes>(
    core: &mut DirectionCore<'_>,
    clock: &C,
    notes: &mut N,
) -> Result<(), AllocError>
    requires first { core.old.ended ≡ false }
    requires read { (core.old.latest ≡ 0) ⊎ C.reported clock.now core.old.latest }
    ensures counts { OnOk result (TakesIn core.old core.new core.old.bytes true) }
    ensures reads { ReadsOn (C.reported clock.now) core.old.latest core.new.latest }
    ensures carried { OnOk result (CarriesOn (C.reported clock.now)
        (N.events notes.old) (N.events notes.new) core.old core.new
        (is_none (core_ending core.old))) }
    ensures known { IsSome (core_ending core.old) → N.events notes.new ≡ N.events notes.old }
    ensures err { OnErr result
        ((N.events notes.new ≡ N.events notes.old) × (core.new ≡ core.old)) }
{
    let now = reading(clock, core.latest());
    let ending = core.ending();
    note_end(notes, &ending, &now)?;
    core.on_end(now);
    Ok(())
}

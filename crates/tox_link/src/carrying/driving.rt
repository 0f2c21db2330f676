//! The writer's side at work: takes from the ring and does what the core says, until the link ends.
ghost use Rattle.std.specs.Prelude.{◌≡◌, ℕ, ◌<◌, ◌≤◌, ◌⊎◌, List, [], ◌∷◌, All, length, take, false, IfOk, IfErr, IfSome, OnOk, OnErr};
ghost use Rattle.std.specs.Io.KnownBytes.{append_known};
ghost use Rattle.rtrb.specs.Ring.{received, SameConsumer};
ghost use Rattle.tox_lend.specs.Run.{stop_of};
ghost use Rattle.tox_link.specs.declared.notes.LinkEvent.{LinkEvent as OneEvent};
ghost use Rattle.tox_link.specs.log.Events.{with_events};
ghost use Rattle.tox_link.specs.log.Logged.{HasEnded};
ghost use Rattle.tox_link.specs.Reports.{IsFaultAt};
ghost use Rattle.tox_link.specs.carrying.Steps.{NotesAll, NotesOn, StopsAfter, StopsUnnoted};
ghost use Rattle.tox_link.specs.carrying.Side.{IsFresh, IsSound, GivesSlice, WritesFront, came};

use crate::carrying::taking::take_message;
use crate::carrying::writer_side::WriterSide;
use crate::carrying::writing::write_slice;
use crate::clock::Clock;
use crate::link_core::act::Act;
use crate::link_fault::LinkFault;
use crate::notes::{LinkEvent, Notes};
use crate::ring::idle::Idle;
use crate::steps::deciding::decide;
use std::sync::Wait;
use tox_time::{Ending, Gate, Micros, Sink, Slice};

/// Writes the next slice and notes it. Gives up the pieces before its end. The clock has told the reading before, at or past the
/// slice's instant.
fn write_next<C: Clock, N: Notes, W: Sink>(
    side: &mut WriterSide<'_>,
    _clock: &C,
    notes: &mut N,
    writer: &mut W,
    slice: &Slice,
    now: &Micros,
) -> Result<(), LinkFault>
    requires due { GivesSlice side.old slice.now }
    requires reported { C.reported _clock.now now.now }
    requires reached { slice.now.instant ≤ now.now }
    requires working { W.failed writer.old ≡ false }
    ensures same { (side.new.core ≡ side.old.core) × (side.new.inbox ≡ side.old.inbox)
        × (side.new.source ≡ side.old.source) × (side.new.ended ≡ side.old.ended) }
    ensures written { WritesFront side.old side.new (W.written writer.old) (W.written writer.new) }
    ensures few { side.new.written ≤ slice.now.span.stop }
    ensures ok { OnOk result (IsSound side.new (received side.new.inbox.receiver)
        × (W.failed writer.new ≡ false)
        × All (λ piece. side.new.written < stop_of piece) side.new.window.held
        × (N.events notes.new
        ≡ with_events (N.events notes.old) (OneEvent.Wrote slice.now now.now ∷ []))) }
    ensures fault { IfErr result (IsFaultAt side.new.written (W.failed writer.new)) }
    ensures unnoted { OnErr result (N.events notes.new ≡ N.events notes.old) }
{
    let stop = slice.span.stop;
    if let Err(count) = write_slice(writer, &side.window, slice) {
        side.written += count;
        return Err(LinkFault::WriteFault(side.written));
    }
    side.written = stop;
    side.give_up(stop);
    let Ok(()) = notes.note(LinkEvent::Wrote(*slice, *now)) else {
        return Err(LinkFault::OutOfMemory(side.written));
    };
    Ok(())
}

/// Waits for a while, at most until this instant, unless the writer has failed. A write of no bytes asks it. The side is idle.
fn rest<C: Clock, W: Sink>(
    clock: &C,
    writer: &mut W,
    written: u64,
    until: Micros,
    _idle: Idle,
) -> Result<(), LinkFault>
    requires working { W.failed writer.old ≡ false }
    ensures same { W.written writer.new ≡ W.written writer.old }
    ensures ok { OnOk result (W.failed writer.new ≡ false) }
    ensures fault { IfErr result (IsFaultAt written (W.failed writer.new)) }
{
    let Ok(_) = writer.write(&[]) else {
        return Err(LinkFault::WriteFault(written));
    };
    clock.rest(until);
    Ok(())
}

/// Does what the core says at the present reading. Waits only where the side is idle.
/// Returns the ending, once the link has ended.
fn act<R: Wait, C: Clock, N: Notes, W: Sink>(
    rt: &R,
    side: &mut WriterSide<'_>,
    clock: &C,
    notes: &mut N,
    writer: &mut W,
    idle: Option<Idle>,
) -> Result<Option<Ending>, LinkFault>
    requires sound { IsSound side.old (received side.old.inbox.receiver) }
    requires read { (side.old.core.latest ≡ 0) ⊎ C.reported clock.now side.old.core.latest }
    requires working { W.failed writer.old ≡ false }
    ensures inbox { side.new.inbox.receiver ≡ side.old.inbox.receiver }
    ensures written { WritesFront side.old side.new (W.written writer.old) (W.written writer.new) }
    ensures few { side.new.written ≤ length (came side.new) }
    ensures ok { IfOk result (λ ending. IsSound side.new (received side.new.inbox.receiver)
        × (W.failed writer.new ≡ false)
        × IfSome ending (HasEnded (C.reported clock.now) side.new.core side.new.ended)) }
    ensures log { OnOk result (NotesOn (C.reported clock.now)
        (N.events notes.old) (N.events notes.new) side.old side.new) }
    ensures broken { IfErr result (StopsUnnoted (C.reported clock.now)
        (N.events notes.old) (N.events notes.new) side.old side.new (W.failed writer.new)) }
{
    let (act, now) = decide(&mut side.core, clock);
    match act {
        Act::Write(slice) => {
            write_next(side, clock, notes, writer, &slice, &now)?;
            Ok(None)
        }
        Act::WaitUntil(instant) => {
            let Some(idle) = idle else {
                return Ok(None);
            };
            rest(clock, writer, side.written, instant, idle)?;
            Ok(None)
        }
        Act::WaitForInput => {
            if let Some(idle) = idle {
                side.inbox.wait(rt, idle);
            }
            Ok(None)
        }
        Act::End(ending) => Ok(Some(ending)),
    }
}

/// Takes from the ring and does what the core says, until the link ends.
pub(crate) fn drive<R: Wait, C: Clock, N: Notes, W: Sink, G: Gate>(
    rt: &R,
    side: &mut WriterSide<'_>,
    clock: &C,
    notes: &mut N,
    writer: &mut W,
    gate: &G,
) -> Result<Ending, LinkFault>
    requires fresh { IsFresh side.old }
    requires working { W.failed writer.old ≡ false }
    ensures ring { SameConsumer side.old.inbox.receiver side.new.inbox.receiver }
    ensures written { W.written writer.new
        ≡ append_known (W.written writer.old) (take side.new.written (came side.new)) }
    ensures few { side.new.written ≤ length (came side.new) }
    ensures ok { IfOk result (λ ending. IsSound side.new (received side.new.inbox.receiver)
        × (W.failed writer.new ≡ false)
        × HasEnded (C.reported clock.now) side.new.core side.new.ended ending) }
    ensures log { OnOk result (NotesAll (C.reported clock.now)
        (N.events notes.old) (N.events notes.new) side.old side.new) }
    ensures broken { IfErr result (StopsAfter (C.reported clock.now)
        (N.events notes.old) (N.events notes.new) side.old side.new (W.failed writer.new)) }
{
    for _ in rt.forever() {
        let Ok(idle) = take_message(side, clock, notes, gate) else {
            return Err(LinkFault::OutOfMemory(side.written));
        };
        if let Some(ending) = act(rt, side, clock, notes, writer, idle)? {
            return Ok(ending);
        }
    }
    unreachable!()
}

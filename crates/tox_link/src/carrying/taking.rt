//! Taking from the ring: pieces are kept and stamped, up to the source's end.
ghost use Rattle.std.specs.Prelude.{◌≡◌, ◌+◌, ◌<◌, ◌≤◌, ◌^◌, ◌⊎◌, List, [], ◌∷◌, ◌++◌, length, take, false, None, IsSome, IfOk, OnOk, OnErr, MatchOption};
ghost use Rattle.rtrb.specs.Ring.{received, SameConsumer};
ghost use Rattle.tox_link.specs.declared.ring.message.Message.{Message as OneMessage};
ghost use Rattle.tox_link.specs.declared.ring.message.Message.TheVariants.{Piece as PieceOf, End as EndOf};
ghost use Rattle.tox_link.specs.log.Carried.{ReadsOn};
ghost use Rattle.tox_link.specs.link_core.Core.{core_ending, kept_count};
ghost use Rattle.tox_link.specs.carrying.Steps.{NotesOn};
ghost use Rattle.tox_link.specs.carrying.Side.{IsSound, Comes, came};

use crate::carrying::writer_side::WriterSide;
use crate::clock::Clock;
use crate::notes::Notes;
use crate::ring::idle::Idle;
use crate::ring::message::{Message, ReadEnd};
use crate::source_ending::SourceEnding;
use crate::steps::arriving::{take_end, take_piece};
use std::alloc::AllocError;
use tox_time::Gate;

/// A piece came. It is stamped, noted and kept, unless the ending is known.
fn keep_piece<C: Clock, N: Notes>(
    side: &mut WriterSide<'_>,
    clock: &C,
    notes: &mut N,
    bytes: Vec<u8>,
) -> Result<(), AllocError>
    requires came { Comes side.old (PieceOf bytes) }
    requires core { kept_count side.old.core < side.old.core.room }
    requires window { core_ending side.old.core ≡ None
        → length side.old.window.held < side.old.window.room }
    requires read { (side.old.core.latest ≡ 0) ⊎ C.reported clock.now side.old.core.latest }
    ensures same { (side.new.inbox ≡ side.old.inbox) × (side.new.written ≡ side.old.written) }
    ensures ok { OnOk result (IsSound side.new (received side.new.inbox.receiver)) }
    ensures log { OnOk result (NotesOn (C.reported clock.now)
        (N.events notes.old) (N.events notes.new) side.old side.new) }
    ensures known { IsSome (core_ending side.old.core)
        → N.events notes.new ≡ N.events notes.old }
    ensures reads { OnErr result
        (ReadsOn (C.reported clock.now) side.old.core.latest side.new.core.latest) }
    ensures err { OnErr result (N.events notes.new ≡ N.events notes.old) }
{
    let None = side.core.ending() else {
        return Ok(());
    };
    take_piece(&mut side.core, &mut side.window, clock, notes, bytes)?;
    Ok(())
}

/// The source's end came. It is noted, unless the ending is known.
fn keep_end<C: Clock, N: Notes>(
    side: &mut WriterSide<'_>,
    clock: &C,
    notes: &mut N,
    end: ReadEnd,
) -> Result<(), AllocError>
    requires came { Comes side.old (EndOf end) }
    requires read { (side.old.core.latest ≡ 0) ⊎ C.reported clock.now side.old.core.latest }
    ensures same { (side.new.inbox ≡ side.old.inbox) × (side.new.written ≡ side.old.written) }
    ensures ok { OnOk result (IsSound side.new (received side.new.inbox.receiver)) }
    ensures log { OnOk result (NotesOn (C.reported clock.now)
        (N.events notes.old) (N.events notes.new) side.old side.new) }
    ensures known { IsSome (core_ending side.old.core)
        → N.events notes.new ≡ N.events notes.old }
    ensures reads { OnErr result
        (ReadsOn (C.reported clock.now) side.old.core.latest side.new.core.latest) }
    ensures err { OnErr result (N.events notes.new ≡ N.events notes.old) }
{
    side.ended = true;
    let None = side.core.ending() else {
        take_end(&mut side.core, clock, notes)?;
        return Ok(());
    };
    side.source = SourceEnding::of(end)?;
    take_end(&mut side.core, clock, notes)?;
    Ok(())
}

/// Takes the next message, if it may be taken and is there. None if one was taken.
pub(crate) fn take_message<C: Clock, N: Notes, G: Gate>(
    side: &mut WriterSide<'_>,
    clock: &C,
    notes: &mut N,
    gate: &G,
) -> Result<Option<Idle>, AllocError>
    requires sound { IsSound side.old (received side.old.inbox.receiver) }
    requires read { (side.old.core.latest ≡ 0) ⊎ C.reported clock.now side.old.core.latest }
    ensures same { SameConsumer side.old.inbox.receiver side.new.inbox.receiver
        × (side.new.written ≡ side.old.written) }
    ensures took { IfOk result (λ idle. MatchOption idle
        ((message : OneMessage)
        × (received side.new.inbox.receiver ≡ received side.old.inbox.receiver ++ message ∷ []))
        (λ _. received side.new.inbox.receiver ≡ received side.old.inbox.receiver)) }
    ensures came { (more : List _) × (came side.new ≡ came side.old ++ more) }
    ensures ok { OnOk result (IsSound side.new (received side.new.inbox.receiver)) }
    ensures log { OnOk result (NotesOn (C.reported clock.now)
        (N.events notes.old) (N.events notes.new) side.old side.new) }
    ensures err { OnErr result (ReadsOn (C.reported clock.now) side.old.core.latest side.new.core.latest
        × (N.events notes.new ≡ N.events notes.old)) }
{
    if let Some(idle) = side.idle() {
        return Ok(Some(idle));
    }
    let message = match side.inbox.pop(gate) {
        Ok(message) => message,
        Err(idle) => return Ok(Some(idle)),
    };
    match message {
        Message::Piece(bytes) => keep_piece(side, clock, notes, bytes)?,
        Message::End(end) => keep_end(side, clock, notes, end)?,
    }
    Ok(None)
}

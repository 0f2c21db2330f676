//! What a read gave reaches the core.
ghost use Rattle.std.specs.Prelude.{◌≡◌, ℕ, ◌+◌, ◌-◌, ◌<◌, ◌≤◌, ◌^◌, ◌⊎◌, List, [], length, take, false, true, None, Option, IfOk, OnErr, OnOk, is_some};
ghost use Rattle.std.specs.Io.KnownBytes.{prepend_known};
ghost use Rattle.tox_link.specs.declared.source_ending.SourceEnding.TheVariants.{TooManyBytes as AtLimit};
ghost use Rattle.tox_link.specs.steps.Held.{MayTake};
ghost use Rattle.tox_link.specs.direction.Driven.{Drove, EndsWithCore, ends_view};
ghost use Rattle.tox_link.specs.direction.Follows.{AreLeftOver, HasRoomFor, IsHeld};
ghost use Rattle.tox_link.specs.link_core.Core.{core_ending, kept_count};
ghost use Rattle.tox_link.specs.log.Carried.{ReadsOn};
ghost use Rattle.tox_link.specs.Sources.{read_end_of};

use crate::clock::Clock;
use crate::direction::polled_link::PolledLink;
use crate::notes::Notes;
use crate::source_ending::SourceEnding;
use crate::steps::arriving::{take_end, take_piece};
use crate::steps::read_size::READ_SIZE;
use std::alloc::{AllocError, Global};
use tox_time::MAX_BYTES;

/// Bytes came. They are stamped with a reading that the clock tells now, noted and kept. After a refused note nothing more
/// is read.
fn keep_bytes<C: Clock, N: Notes>(
    link: &mut PolledLink,
    clock: &C,
    notes: &mut N,
    bytes: Vec<u8>,
) -> Result<(), AllocError>
    requires held { IsHeld link.old }
    requires read { (link.old.core.latest ≡ 0) ⊎ C.reported clock.now link.old.core.latest }
    requires idle { link.old.unwritten.items ≡ [] }
    requires room { MayTake link.old.core link.old.window link.old.ended }
    requires unknown { core_ending link.old.core ≡ None }
    requires fits { (0 < length bytes.items)
        × (link.old.core.bytes + length bytes.items ≤ 2 ^ 40) }
    requires small { length bytes.items ≤ 16_384 }
    ensures held { IsHeld link.new }
    ensures reads { ReadsOn (C.reported clock.now) link.old.core.latest link.new.core.latest }
    ensures same { (link.new.source ≡ link.old.source) × (link.new.unwritten.items ≡ [])
        × (link.new.written ≡ link.old.written) }
    ensures taken { link.new.core.bytes ≤ link.old.core.bytes + length bytes.items }
    ensures ok { OnOk result ((link.new.ended ≡ false) × (link.new.core.ended ≡ false)) }
    ensures room { OnOk result ((kept_count link.new.core ≡ kept_count link.old.core + 1)
        × (link.new.core.room ≡ link.old.core.room) × (core_ending link.new.core ≡ None)
        × (length link.new.window.held ≡ length link.old.window.held + 1)
        × (link.new.window.room ≡ link.old.window.room)) }
    ensures drove { OnOk result ((left written : Option (List ℕ)) → Drove 1 (C.reported clock.now)
        link.old (ends_view (prepend_known bytes.items left) written (N.events notes.old))
        link.new (ends_view left written (N.events notes.new))) }
    ensures stopped { OnErr result ((link.new.core.bytes ≡ link.old.core.bytes)
        × ((lost : List ℕ) (left written : Option (List ℕ)) → Drove 1 (C.reported clock.now)
        link.old (ends_view (prepend_known lost left) written (N.events notes.old))
        link.new (ends_view left written (N.events notes.new)))) }
{
    let Ok(()) = take_piece(&mut link.core, &mut link.window, clock, notes, bytes) else {
        link.ended = true;
        return Err(AllocError);
    };
    Ok(())
}

/// The source ended so. Its end is stamped with a reading that the clock tells now and noted, unless the ending is known.
/// Nothing more is read.
pub(crate) fn end_source<C: Clock, N: Notes>(
    link: &mut PolledLink,
    clock: &C,
    notes: &mut N,
    source: SourceEnding,
) -> Result<(), AllocError>
    requires held { IsHeld link.old }
    requires read { (link.old.core.latest ≡ 0) ⊎ C.reported clock.now link.old.core.latest }
    requires idle { link.old.unwritten.items ≡ [] }
    requires going { link.old.ended ≡ false }
    requires why { is_some (read_end_of source) ≡ true }
    ensures held { IsHeld link.new }
    ensures reads { ReadsOn (C.reported clock.now) link.old.core.latest link.new.core.latest }
    ensures same { (link.new.ended ≡ true) × (link.new.unwritten.items ≡ [])
        × (link.new.written ≡ link.old.written) }
    ensures taken { link.new.core.bytes ≡ link.old.core.bytes }
    ensures source { (link.new.source ≡ source) ⊎ (link.new.source ≡ link.old.source) }
    ensures ok { OnOk result (link.new.core.ended ≡ true) }
    ensures drove { (bytes : List ℕ) (left written : Option (List ℕ))
        → AreLeftOver link.old source bytes → Drove 1 (C.reported clock.now)
        link.old (ends_view (prepend_known bytes left) written (N.events notes.old))
        link.new (ends_view left written (N.events notes.new)) }
{
    link.ended = true;
    let ending = link.core.ending();
    take_end(&mut link.core, clock, notes)?;
    let None = ending else {
        return Ok(());
    };
    link.source = source;
    Ok(())
}

/// Keeps the first piece of some bytes that were read, and returns how many bytes are done with: those of the piece, at most 16,384.
/// Where the ending is known all are dropped, and where they are too many they end the source: then all are done with. Without memory
/// for the piece, or for a note, nothing more is read.
fn keep_next<C: Clock, N: Notes>(
    link: &mut PolledLink,
    alloc: Global,
    clock: &C,
    notes: &mut N,
    bytes: &[u8],
) -> Result<usize, AllocError>
    requires held { IsHeld link.old }
    requires read { (link.old.core.latest ≡ 0) ⊎ C.reported clock.now link.old.core.latest }
    requires idle { link.old.unwritten.items ≡ [] }
    requires room { HasRoomFor (length bytes.now) link.old }
    requires some { 0 < length bytes.now }
    ensures held { IsHeld link.new }
    ensures reads { ReadsOn (C.reported clock.now) link.old.core.latest link.new.core.latest }
    ensures same { (link.new.unwritten.items ≡ []) × (link.new.written ≡ link.old.written) }
    ensures count { IfOk result (λ count. (0 < count) × (count ≤ length bytes.now)) }
    ensures room { IfOk result (λ count. count < length bytes.now
        → HasRoomFor (length bytes.now - count) link.new) }
    ensures taken { IfOk result (λ count. link.new.core.bytes ≤ link.old.core.bytes + count) }
    ensures source { (link.new.source ≡ link.old.source)
        ⊎ ((link.new.source ≡ AtLimit) × (link.new.ended ≡ true)) }
    ensures ends { OnOk result (EndsWithCore link.old → EndsWithCore link.new) }
    ensures drove { IfOk result (λ count. (left written : Option (List ℕ))
        → Drove 1 (C.reported clock.now) link.old
        (ends_view (prepend_known (take count bytes.now) left) written (N.events notes.old))
        link.new (ends_view left written (N.events notes.new))) }
    ensures stopped { OnErr result ((link.new.core.bytes ≡ link.old.core.bytes)
        × ((left written : Option (List ℕ)) → Drove 1 (C.reported clock.now)
        link.old (ends_view (prepend_known bytes.now left) written (N.events notes.old))
        link.new (ends_view left written (N.events notes.new)))) }
{
    if link.core.ending().is_some() {
        return Ok(bytes.len());
    }
    let len = bytes.len().min(READ_SIZE);
    if len as u64 > MAX_BYTES - link.window.stop() {
        end_source(link, clock, notes, SourceEnding::TooManyBytes)?;
        return Ok(bytes.len());
    }
    let Ok(kept) = Vec::from_slice(alloc, &bytes[..len]) else {
        link.ended = true;
        return Err(AllocError);
    };
    keep_bytes(link, clock, notes, kept)?;
    Ok(len)
}

/// Some bytes were read. They are kept in pieces of at most 16,384 bytes, dropped where the ending is known, or end the source where
/// they are too many. Without memory for them, or for a note, nothing more is read.
pub(crate) fn keep_read<C: Clock, N: Notes>(
    link: &mut PolledLink,
    alloc: Global,
    clock: &C,
    notes: &mut N,
    bytes: &[u8],
) -> Result<(), AllocError>
    requires held { IsHeld link.old }
    requires read { (link.old.core.latest ≡ 0) ⊎ C.reported clock.now link.old.core.latest }
    requires idle { link.old.unwritten.items ≡ [] }
    requires room { HasRoomFor (length bytes.now) link.old }
    requires some { 0 < length bytes.now }
    ensures held { IsHeld link.new }
    ensures reads { ReadsOn (C.reported clock.now) link.old.core.latest link.new.core.latest }
    ensures same { (link.new.unwritten.items ≡ []) × (link.new.written ≡ link.old.written) }
    ensures taken { link.new.core.bytes ≤ link.old.core.bytes + length bytes.now }
    ensures source { (link.new.source ≡ link.old.source)
        ⊎ ((link.new.source ≡ AtLimit) × (link.new.ended ≡ true)) }
    ensures ends { OnOk result (EndsWithCore link.old → EndsWithCore link.new) }
    ensures drove { (left written : Option (List ℕ)) → Drove 1 (C.reported clock.now)
        link.old (ends_view (prepend_known bytes.now left) written (N.events notes.old))
        link.new (ends_view left written (N.events notes.new)) }
{
    let mut done = keep_next(link, alloc, clock, notes, bytes)?;
    while done < bytes.len() {
        done += keep_next(link, alloc, clock, notes, &bytes[done..])?;
    }
    Ok(())
}

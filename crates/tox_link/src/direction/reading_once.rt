//! Reading once, where the core waits.
ghost use Rattle.std.specs.Prelude.{◌≡◌, ℕ, ◌+◌, ◌≤◌, List, [], false, true, Option, IfOk, OnOk};
ghost use Rattle.tox_link.specs.steps.Held.{MayTake};
ghost use Rattle.tox_link.specs.direction.Driven.{Drove, EndsWithCore, IsReady, steps_of_move, ends_view};

use crate::clock::Clock;
use crate::direction::poll_ends::PollSource;
use crate::direction::polled_link::PolledLink;
use crate::direction::reading_on::{end_source, keep_read};
use crate::notes::Notes;
use crate::source_ending::SourceEnding;
use crate::steps::read_size::{READ_SIZE, SCRATCH_SIZE};
use crate::steps::room::pieces_to_take;
use std::alloc::{AllocError, Global};

/// Reads once, as much as there is room for, up to 65,536 bytes. What came is stamped with a reading that the clock tells after the
/// read. False where the source would wait. Without memory for the bytes, or for a note, nothing more is read.
pub(crate) fn read_once<C: Clock, N: Notes, S: PollSource>(
    link: &mut PolledLink,
    alloc: Global,
    clock: &C,
    notes: &mut N,
    source: &mut S,
    scratch: &mut [u8; SCRATCH_SIZE],
) -> Result<bool, AllocError>
    requires ready { IsReady (C.reported clock.now) link.old
        (S.remaining source.old) (S.failed source.old) }
    requires idle { link.old.unwritten.items ≡ [] }
    requires room { MayTake link.old.core link.old.window link.old.ended }
    ensures ready { IsReady (C.reported clock.now) link.new
        (S.remaining source.new) (S.failed source.new) }
    ensures same { (link.new.unwritten.items ≡ []) × (link.new.written ≡ link.old.written) }
    ensures taken { link.new.core.bytes ≤ link.old.core.bytes + 65_536 }
    ensures ends { OnOk result (EndsWithCore link.old → EndsWithCore link.new) }
    ensures waits { IfOk result (λ moved. moved ≡ false
        → (link.new ≡ link.old) × (S.waits source.new ≡ true)) }
    ensures drove { (written : Option (List ℕ)) → Drove (steps_of_move result) (C.reported clock.now)
        link.old (ends_view (S.remaining source.old) written (N.events notes.old))
        link.new (ends_view (S.remaining source.new) written (N.events notes.new)) }
{
    let pieces = pieces_to_take(&link.core, &link.window).min(SCRATCH_SIZE / READ_SIZE);
    let part = &mut scratch[..pieces * READ_SIZE];
    let Ok(got) = source.poll_read(part) else {
        end_source(link, clock, notes, SourceEnding::ReadFault)?;
        return Ok(true);
    };
    let Some(count) = got else {
        return Ok(false);
    };
    if count == 0 {
        end_source(link, clock, notes, SourceEnding::Eof)?;
        return Ok(true);
    }
    keep_read(link, alloc, clock, notes, &part[..count])?;
    Ok(true)
}

//! Writing on at slices, as far as the sink takes them.
ghost use Rattle.std.specs.Prelude.{◌≡◌, ◌+◌, ◌<◌, ◌≤◌, length, drop, slice_get, List, [], ◌∷◌, ◌⊎◌, false, true, Some, IfErr, IfOk, OnOk, OnErr, filter, nat_lt};
ghost use Rattle.tox_lend.specs.Run.{stop_of};
ghost use Rattle.tox_link.specs.log.Events.{with_events};
ghost use Rattle.tox_link.specs.Reports.{IsFaultAt};
ghost use Rattle.tox_link.specs.declared.link_fault.LinkFault.TheVariants as FaultOf;
ghost use Rattle.tox_link.specs.declared.notes.LinkEvent.{LinkEvent as OneEvent};
ghost use Rattle.tox_link.specs.direction.Driven.{steps_of_move};
ghost use Rattle.tox_link.specs.direction.Follows.{AreBegun, IsHeld, WritesOn};

use crate::clock::Clock;
use crate::direction::parts::parts_of;
use crate::direction::poll_ends::PollSink;
use crate::direction::polled_link::PolledLink;
use crate::direction::unwritten::Unwritten;
use crate::link_fault::LinkFault;
use crate::notes::{LinkEvent, Notes};

/// Writes the next bytes of the slices by one call, at most 65,536. False where the sink would wait.
fn write_parts<W: PollSink>(
    link: &mut PolledLink,
    sink: &mut W,
    first: &Unwritten,
) -> Result<bool, LinkFault>
    requires held { IsHeld link.old }
    requires writing { slice_get link.old.unwritten.items 0 ≡ Some first.now }
    requires left { link.old.written < first.now.slice.span.stop }
    requires working { W.failed sink.old ≡ false }
    ensures held { (link.new.core ≡ link.old.core) × IsHeld link.new }
    ensures same { link.new.unwritten ≡ link.old.unwritten }
    ensures wrote { WritesOn link.old (W.written sink.old) [] link.new (W.written sink.new) }
    ensures on { link.old.written + steps_of_move result ≤ link.new.written }
    ensures few { link.new.written ≤ link.old.written + 65_536 }
    ensures waits { IfOk result (λ moved. moved ≡ false
        → (link.new ≡ link.old) × (W.waits sink.new ≡ true)) }
    ensures err { IfErr result (λ fault. (fault ≡ FaultOf.WriteFault link.new.written)
        × (W.failed sink.new ≡ true)) }
    ensures working { OnOk result (W.failed sink.new ≡ false) }
{
    let parts = parts_of(&link.window, &link.unwritten, first, link.written);
    match sink.poll_write(&parts) {
        Ok(None) => Ok(false),
        Ok(Some(0)) | Err(_) => Err(LinkFault::WriteFault(link.written)),
        Ok(Some(count)) => {
            link.written += count as u64;
            Ok(true)
        }
    }
}

/// Notes the first slice, which is written to its end, and gives up the pieces that are written. A refused note changes nothing.
fn note_written<N: Notes>(
    link: &mut PolledLink,
    notes: &mut N,
    first: &Unwritten,
) -> Result<(), LinkFault>
    requires writing { slice_get link.old.unwritten.items 0 ≡ Some first.now }
    ensures done { OnOk result (link.new ≡ record link.old {
      unwritten = record { items = drop 1 link.old.unwritten.items };
      window = record link.old.window {
        held = filter (λ piece. nat_lt link.old.written (stop_of piece)) link.old.window.held;
      };
    }) }
    ensures noted { OnOk result (N.events notes.new ≡ with_events (N.events notes.old)
        (OneEvent.Wrote first.now.slice first.now.reading ∷ [])) }
    ensures err { IfErr result (λ fault. fault ≡ FaultOf.OutOfMemory link.new.written) }
    ensures refused { OnErr result
        ((N.events notes.new ≡ N.events notes.old) × (link.new ≡ link.old)) }
{
    let Ok(()) = notes.note(LinkEvent::Wrote(first.slice, first.reading)) else {
        return Err(LinkFault::OutOfMemory(link.written));
    };
    link.unwritten.remove(0);
    link.window.drop_before(link.written);
    Ok(())
}

/// One step of the slices that are being written: their next bytes are written, or the first one is noted once it is written to its
/// end. False where the sink would wait. The clock has told the reading of each slice before, at or past the slice's instant.
pub(crate) fn write_on<C: Clock, N: Notes, W: PollSink>(
    link: &mut PolledLink,
    _clock: &C,
    notes: &mut N,
    sink: &mut W,
    first: &Unwritten,
) -> Result<bool, LinkFault>
    requires held { IsHeld link.old }
    requires begun { AreBegun (C.reported _clock.now) link.old.unwritten.items }
    requires writing { slice_get link.old.unwritten.items 0 ≡ Some first.now }
    requires working { W.failed sink.old ≡ false }
    ensures held { IsHeld link.new }
    ensures begun { AreBegun (C.reported _clock.now) link.new.unwritten.items }
    ensures wrote { (more : List OneEvent)
        × (N.events notes.new ≡ with_events (N.events notes.old) more)
        × WritesOn link.old (W.written sink.old) more link.new (W.written sink.new)
        × (link.old.written + steps_of_move result ≤ link.new.written + length more) }
    ensures moved { (link.old.written ≤ link.new.written)
        × (link.new.written ≤ link.old.written + 65_536) }
    ensures waits { IfOk result (λ moved. moved ≡ false
        → (link.new ≡ link.old) × (W.waits sink.new ≡ true)) }
    ensures err { IfErr result (IsFaultAt link.new.written (W.failed sink.new)) }
    ensures working { OnOk result (W.failed sink.new ≡ false) }
{
    if link.written < first.slice.span.stop {
        return write_parts(link, sink, first);
    }
    match note_written(link, notes, first) {
        Ok(()) => Ok(true),
        Err(fault) => Err(fault),
    }
}

//! Driving a direction: as many steps as its ends allow.
ghost use Rattle.std.specs.Prelude.{◌≡◌, ℕ, ◌+◌, ◌≤◌, Bool, List, [], false, Option, IfOk, IfErr, OnOk};
ghost use Rattle.tox_link.specs.direction.Driven.{Drove, EndsWithCore, IsReady, IsProgress, moved_of, steps_of, ends_view};
ghost use Rattle.tox_link.specs.link_core.Acts.{Says, wait_act};
ghost use Rattle.tox_link.specs.Reports.{IsFaultAt};

use crate::clock::Clock;
use crate::direction::asking::{ask, ask_further};
use crate::direction::drive_start::DriveStart;
use crate::direction::poll_ends::{PollSink, PollSource};
use crate::direction::polled_link::PolledLink;
use crate::direction::progress::Progress;
use crate::direction::reading_once::read_once;
use crate::direction::writing_on::write_on;
use crate::link_core::act::Act;
use crate::link_fault::LinkFault;
use crate::notes::Notes;
use crate::steps::read_size::SCRATCH_SIZE;
use crate::steps::room::may_take;
use std::alloc::Global;
use tox_time::Micros;

/// The most steps of one drive.
const STEPS: usize = 32;

/// Drives a direction: takes as many steps as its ends allow, but no more than 32, so that others have their turn. It also goes on
/// no further once it has taken and written 81,920 bytes in all, or its core gave 4,096 cuts.
///
/// Slices that are being written are written on, and nothing else happens while they wait. Else the core is asked at the clock's
/// reading. Where the core waits, input is read if there is room for it: up to 65,536 bytes by one call, which are kept in pieces of
/// at most 16,384.
///
/// # Errors
///
/// Out of memory, also for a note; a write fails or takes nothing. The direction may then be driven no more.
pub fn drive<C: Clock, N: Notes, S: PollSource, W: PollSink>(
    link: &mut PolledLink,
    alloc: Global,
    clock: &C,
    notes: &mut N,
    source: &mut S,
    sink: &mut W,
    scratch: &mut [u8; SCRATCH_SIZE],
) -> Result<Progress, LinkFault>
    requires ready { IsReady (C.reported clock.now) link.old
        (S.remaining source.old) (S.failed source.old) }
    requires working { W.failed sink.old ≡ false }
    ensures ready { IsReady (C.reported clock.now) link.new
        (S.remaining source.new) (S.failed source.new) }
    ensures drove { Drove (steps_of 32 result) (C.reported clock.now)
        link.old (ends_view (S.remaining source.old) (W.written sink.old) (N.events notes.old))
        link.new (ends_view (S.remaining source.new) (W.written sink.new) (N.events notes.new)) }
    ensures progress { IfOk result (IsProgress (C.reported clock.now) link.new
        (S.waits source.new) (W.waits sink.new) (W.due sink.new)) }
    ensures few { moved_of link.new ≤ moved_of link.old + 147_456 }
    ensures ends { OnOk result (EndsWithCore link.old → EndsWithCore link.new) }
    ensures err { IfErr result (IsFaultAt link.new.written (W.failed sink.new)) }
    ensures working { OnOk result (W.failed sink.new ≡ false) }
{
    let start = DriveStart::of(link);
    for _nth in 0..STEPS {
        match step(link, alloc, clock, notes, source, sink, scratch) {
            Ok(Progress::Again) => {
                if start.has_done_enough(link) {
                    return Ok(Progress::Again);
                }
            }
            Ok(Progress::Waits(until)) => return Ok(Progress::Waits(until)),
            Ok(Progress::Ended(ending)) => return Ok(Progress::Ended(ending)),
            Err(fault) => return Err(fault),
        }
    }
    Ok(Progress::Again)
}

/// One step: writes on, or does what the core says.
fn step<C: Clock, N: Notes, S: PollSource, W: PollSink>(
    link: &mut PolledLink,
    alloc: Global,
    clock: &C,
    notes: &mut N,
    source: &mut S,
    sink: &mut W,
    scratch: &mut [u8; SCRATCH_SIZE],
) -> Result<Progress, LinkFault>
    requires ready { IsReady (C.reported clock.now) link.old
        (S.remaining source.old) (S.failed source.old) }
    requires working { W.failed sink.old ≡ false }
    ensures ready { IsReady (C.reported clock.now) link.new
        (S.remaining source.new) (S.failed source.new) }
    ensures drove { Drove (steps_of 1 result) (C.reported clock.now)
        link.old (ends_view (S.remaining source.old) (W.written sink.old) (N.events notes.old))
        link.new (ends_view (S.remaining source.new) (W.written sink.new) (N.events notes.new)) }
    ensures progress { IfOk result (IsProgress (C.reported clock.now) link.new
        (S.waits source.new) (W.waits sink.new) (W.due sink.new)) }
    ensures few { moved_of link.new ≤ moved_of link.old + 65_536 }
    ensures ends { OnOk result (EndsWithCore link.old → EndsWithCore link.new) }
    ensures err { IfErr result (IsFaultAt link.new.written (W.failed sink.new)) }
    ensures working { OnOk result (W.failed sink.new ≡ false) }
{
    let first = link.unwritten.first().copied();
    let Some(first) = &first else {
        return act(link, alloc, clock, notes, source, scratch);
    };
    match write_on(link, clock, notes, sink, first) {
        Ok(moved) if moved => Ok(Progress::Again),
        Ok(_) => Ok(Progress::Waits(sink.due())),
        Err(fault) => Err(fault),
    }
}

/// Does what the core says, where no slice is being written. Slices that leave with a `Write` are asked for too.
fn act<C: Clock, N: Notes, S: PollSource>(
    link: &mut PolledLink,
    alloc: Global,
    clock: &C,
    notes: &mut N,
    source: &mut S,
    scratch: &mut [u8; SCRATCH_SIZE],
) -> Result<Progress, LinkFault>
    requires ready { IsReady (C.reported clock.now) link.old
        (S.remaining source.old) (S.failed source.old) }
    requires idle { link.old.unwritten.items ≡ [] }
    ensures ready { IsReady (C.reported clock.now) link.new
        (S.remaining source.new) (S.failed source.new) }
    ensures drove { (written : Option (List ℕ)) → Drove (steps_of 1 result) (C.reported clock.now)
        link.old (ends_view (S.remaining source.old) written (N.events notes.old))
        link.new (ends_view (S.remaining source.new) written (N.events notes.new)) }
    ensures progress { (sink_waits : Bool) (due : Option ℕ) → IfOk result
        (IsProgress (C.reported clock.now) link.new (S.waits source.new) sink_waits due) }
    ensures few { moved_of link.new ≤ moved_of link.old + 65_536 }
    ensures ends { OnOk result (EndsWithCore link.old → EndsWithCore link.new) }
    ensures err { IfErr result (IsFaultAt link.new.written false) }
{
    let act = ask(link, clock);
    match &act {
        Act::Write(slice) => {
            ask_further(link, clock, slice);
            Ok(Progress::Again)
        }
        Act::WaitUntil(instant) => {
            read_or_wait(link, alloc, clock, notes, source, scratch, Some(*instant))
        }
        Act::WaitForInput => read_or_wait(link, alloc, clock, notes, source, scratch, None),
        Act::End(ending) => Ok(Progress::Ended(*ending)),
    }
}

/// Reads once, where input may be taken. Else it waits.
fn read_or_wait<C: Clock, N: Notes, S: PollSource>(
    link: &mut PolledLink,
    alloc: Global,
    clock: &C,
    notes: &mut N,
    source: &mut S,
    scratch: &mut [u8; SCRATCH_SIZE],
    until: Option<Micros>,
) -> Result<Progress, LinkFault>
    requires ready { IsReady (C.reported clock.now) link.old
        (S.remaining source.old) (S.failed source.old) }
    requires idle { link.old.unwritten.items ≡ [] }
    requires says { C.reported clock.now link.old.core.latest
        × Says link.old.core link.old.core.latest (wait_act until) }
    ensures ready { IsReady (C.reported clock.now) link.new
        (S.remaining source.new) (S.failed source.new) }
    ensures drove { (written : Option (List ℕ)) → Drove (steps_of 1 result) (C.reported clock.now)
        link.old (ends_view (S.remaining source.old) written (N.events notes.old))
        link.new (ends_view (S.remaining source.new) written (N.events notes.new)) }
    ensures progress { (sink_waits : Bool) (due : Option ℕ) → IfOk result
        (IsProgress (C.reported clock.now) link.new (S.waits source.new) sink_waits due) }
    ensures few { moved_of link.new ≤ moved_of link.old + 65_536 }
    ensures ends { OnOk result (EndsWithCore link.old → EndsWithCore link.new) }
    ensures err { IfErr result (IsFaultAt link.new.written false) }
{
    if !may_take(&link.core, &link.window, link.ended) {
        return Ok(Progress::Waits(until));
    }
    let Ok(moved) = read_once(link, alloc, clock, notes, source, scratch) else {
        return Err(LinkFault::OutOfMemory(link.written));
    };
    if moved {
        Ok(Progress::Again)
    } else {
        Ok(Progress::Waits(until))
    }
}

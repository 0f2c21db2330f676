//! One direction of a link while it goes on: the step machine and its two ends.
ghost use Rattle.std.specs.Prelude.{◌≡◌, Option, true, false, IfSome};
ghost use Rattle.tox_time.specs.Time.{IsInstant};
ghost use Rattle.tox_link.specs.direction.Follows.{AreBegun, IsHeld, IsNew};
ghost use Rattle.tox_link.specs.declared.link_fault.LinkFault.TheVariants.{OutOfMemory};
ghost use Rattle.tox_link.specs.declared.source_ending.SourceEnding.TheVariants.{ReadFault as AtFault, ReadsUsedUp as AtLastRead};
ghost use Rattle.std.proofs.Props.{props};
ghost use Rattle.tox_serve.specs.workers.Ready.{AreBegun-prop, IsHeld-prop};
ghost use Rattle.tox_link.specs.Meaning.{MeansPlan};
ghost use Rattle.tox_sockets.specs.declared.abort_cause.AbortCause.{AbortCause};
ghost use Rattle.tox_link.specs.Reports.{is_write_fault};
ghost use Rattle.tox_serve.specs.link.LinkEnds.{carried_before, carried_until_end, is_write_break};

use crate::link::course::Course;
use crate::link::end::Carried;
use crate::link::source_notes::SourceNotes;
use crate::link::stream_end::{break_stream, end_stream};
use crate::workers::open_direction::DirectionState;
use std::alloc::Global;
use std::boxed::Box;
use std::sync::{Arc, Wait};
use std::time::Clock;
use tox_compile::Plan;
use tox_link::{
    Hangup, LinkFault, PollSink, PollSource, PolledLink, Progress, SCRATCH_SIZE, drive,
};
use tox_sockets::{LinkSockets, LinkStart, ReadySink, ReadySource, SinceStart};
use tox_time::{Ending, Stream};
use tox_words::Words;

/// One direction of a link that goes on.
#[derive(Drop)]
pub(crate) struct Flow<'r, R> {
    pub(crate) stream: Stream,
    pub(crate) link: Box<PolledLink>,
    pub(crate) source: ReadySource,
    pub(crate) sink: ReadySink<'r, R>,
    pub(crate) notes: SourceNotes<'r, R>,
    pub(crate) ghost held: { IsHeld link.value } by { IsHeld-prop link.value },
    pub(crate) ghost read: { IsInstant link.value.core.latest },
    pub(crate) ghost begun: { AreBegun (λ t. IsInstant t) link.value.unwritten.items } by { AreBegun-prop link.value.unwritten.items },
    pub(crate) ghost readable: { link.value.ended ≡ false → source.failed ≡ false },
    pub(crate) ghost failed: { link.value.source ≡ AtFault → source.failed ≡ true } by { Prim.hlevel props },
    pub(crate) ghost unlimited: { ¬ (link.value.source ≡ AtLastRead) },
    pub(crate) ghost writable: { sink.failed ≡ false },
}

/// A direction that has ended. It keeps its sink, which has failed exactly if a write broke the direction.
#[derive(Drop)]
pub(crate) struct EndedFlow<'r, R> {
    pub(crate) carried: Carried,
    pub(crate) sink: ReadySink<'r, R>,
    pub(crate) ghost broken: { sink.failed ≡ is_write_break carried.end },
}

impl<'r, R: Clock + Wait> Flow<'r, R> {
    ghost use Rattle.tox_serve.specs.workers.Begun.{BeginsCourse};
    ghost use Rattle.tox_serve.specs.workers.Directions.{IsOf};
    ghost use Rattle.tox_serve.specs.workers.Driven.{IsAdvanceOf};

    /// A new direction of a course, without a log. `closing`: the peer of its source was reported to have closed its writing half.
    /// None if out of memory.
    pub(crate) fn new(
        rt: &'r R,
        alloc: Global,
        sockets: &Arc<LinkSockets, Global>,
        start: LinkStart,
        course: Course,
        closing: bool,
    ) -> Option<Flow<'r, R>>
        ensures begins { IfSome result (BeginsCourse course closing) }
        ensures starts { IfSome result (λ flow. flow.sink.start ≡ start) }
    {
        let Course {
            stream,
            words,
            plan,
        } = course;
        let source = ReadySource::new(sockets, stream, closing)?;
        let sink = ReadySink::new(rt, sockets, stream, start, plan.ops())?;
        let link = link_of(alloc, plan, words)?;
        let link = Box::new(alloc, link).ok()?;
        let notes = SourceNotes::none(rt, sockets, stream)?;
        Some(Flow::of(stream, link, source, sink, notes))
    }

    /// A direction of these parts, which may be driven.
    fn of(
        stream: Stream,
        link: Box<PolledLink>,
        source: ReadySource,
        sink: ReadySink<'r, R>,
        notes: SourceNotes<'r, R>,
    ) -> Flow<'r, R>
        requires held { IsHeld link.value }
        requires read { IsInstant link.value.core.latest }
        requires begun { AreBegun (λ t. IsInstant t) link.value.unwritten.items }
        requires readable { link.value.ended ≡ false → source.failed ≡ false }
        requires failed { link.value.source ≡ AtFault → source.failed ≡ true }
        requires unlimited { ¬ (link.value.source ≡ AtLastRead) }
        requires writable { sink.failed ≡ false }
        ensures stream { result.stream ≡ stream }
        ensures link { result.link ≡ link }
        ensures source { result.source ≡ source }
        ensures sink { result.sink ≡ sink.entry }
    {
        Flow {
            stream,
            link,
            source,
            sink,
            notes,
        }
    }

    /// Drives the step machine. Returns the state of the direction after that, and the answer. A direction that would wait at an aborted
    /// link is broken by a write instead, since its next write would fail.
    pub(crate) fn advance(
        self,
        alloc: Global,
        clock: &SinceStart<'_, R>,
        sockets: &LinkSockets,
        scratch: &mut [u8; SCRATCH_SIZE],
    ) -> (DirectionState<'r, R>, Result<Progress, LinkFault>)
        ensures stream { IsOf self.entry.stream result.0 }
        ensures advanced { IsAdvanceOf self.entry result.0 result.1 }
    {
        let Flow {
            stream,
            mut link,
            mut source,
            mut sink,
            mut notes,
        } = self;
        match drive(
            &mut link,
            alloc,
            clock,
            &mut notes,
            &mut source,
            &mut sink,
            scratch,
        ) {
            Ok(Progress::Waits(until)) => {
                if sink.fail_if_aborted() {
                    let fault = LinkFault::WriteFault(link.written());
                    let ended = fail(sockets, stream, &fault, &notes, sink);
                    return (DirectionState::Ended(ended), Err(fault));
                }
                let waiting = Flow {
                    stream,
                    link,
                    source,
                    sink,
                    notes,
                };
                (DirectionState::Going(waiting), Ok(Progress::Waits(until)))
            }
            Ok(Progress::Again) => {
                let flow = Flow {
                    stream,
                    link,
                    source,
                    sink,
                    notes,
                };
                (DirectionState::Going(flow), Ok(Progress::Again))
            }
            Ok(Progress::Ended(ending)) => {
                let ended = end(sockets, stream, &link, &ending, &notes, sink);
                (DirectionState::Ended(ended), Ok(Progress::Ended(ending)))
            }
            Err(fault) => {
                let ended = fail(sockets, stream, &fault, &notes, sink);
                (DirectionState::Ended(ended), Err(fault))
            }
        }
    }

    /// Breaks the direction off: out of memory.
    pub(crate) fn break_off(self, sockets: &LinkSockets) -> EndedFlow<'r, R>
        ensures { result.carried ≡ carried_before self.entry.stream
            (OutOfMemory self.entry.link.value.written) }
    {
        let fault = LinkFault::OutOfMemory(self.link.written());
        EndedFlow {
            carried: break_stream(sockets, self.stream, &fault, &self.notes),
            sink: self.sink,
        }
    }
}

/// The step machine of a plan. It keeps its words if the plan draws.
fn link_of(alloc: Global, plan: Plan, words: Words) -> Option<PolledLink>
    ensures meaning { IfSome result (λ link. MeansPlan plan words link.core) }
    ensures fresh { IfSome result IsNew }
    ensures held { IfSome result IsHeld }
{
    if plan.draws() {
        PolledLink::new(alloc, plan, words).ok()
    } else {
        PolledLink::without_words(alloc, plan).ok()
    }
}

/// Breaks a direction off after a fault.
fn fail<'r, R: Wait>(
    sockets: &LinkSockets,
    stream: Stream,
    fault: &LinkFault,
    notes: &SourceNotes<'r, R>,
    sink: ReadySink<'r, R>,
) -> EndedFlow<'r, R>
    requires { sink.failed ≡ is_write_fault fault.now }
    ensures { result.carried ≡ carried_before stream fault.now }
{
    let carried = break_stream(sockets, stream, fault, notes);
    EndedFlow { carried, sink }
}

/// Hangs a direction up that its plan has ended.
fn end<'r, R: Wait>(
    sockets: &LinkSockets,
    stream: Stream,
    link: &PolledLink,
    ending: &Ending,
    notes: &SourceNotes<'r, R>,
    sink: ReadySink<'r, R>,
) -> EndedFlow<'r, R>
    requires { sink.failed ≡ false }
    ensures { (aborted : Option AbortCause) × (result.carried
        ≡ carried_until_end stream link.now.written link.now.core.latest ending.now aborted) }
{
    let mut ends = sockets.ends_of(stream);
    ends.hang_up(*ending, link.has_read_all());
    let (bytes, reading) = (link.written(), link.latest());
    let carried = end_stream(stream, bytes, reading, *ending, ends.aborted, notes);
    EndedFlow { carried, sink }
}

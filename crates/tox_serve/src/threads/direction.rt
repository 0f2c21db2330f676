//! One direction of a served link.
ghost use Rattle.std.specs.Prelude.{◌≡◌, None, fold, IfSome};
ghost use Rattle.std.specs.Arc.{arc_value};
ghost use Rattle.tox_sockets.specs.ResetDue.{after_op};
ghost use Rattle.tox_sockets.specs.Streams.{target_of};
ghost use Rattle.tox_serve.specs.StreamReports.{IsReportOf, carried_after};
ghost use Rattle.tox_serve.specs.link.LinkEnds.{is_write_break};

use crate::link::course::Course;
use crate::link::end::Carried;
use crate::link::logs::notes_of;
use crate::link::source_notes::SourceNotes;
use crate::link::stream_end::{break_stream, end_stream};
use crate::proxy::links::ProxyLinks;
use crate::run::ServeRun;
use crate::runtime::ServeRuntime;
use std::alloc::Global;
use std::sync::{Arc, Wait};
use tox_link::{Ends, LinkFault, TimedReport, carry_timed};
use tox_sockets::{AbortCause, LinkSockets, LinkStart, SinceStart, UntilCut, UntilDue};
use tox_time::{MAX_BYTES, Real, Stream};

/// One direction of a link, before it is carried.
#[derive(Drop)]
pub(crate) struct Direction {
    pub(crate) course: Course,
    pub(crate) reader: UntilCut,
    pub(crate) sockets: Arc<LinkSockets, Global>,
}

impl Direction {
    /// The direction of a course's stream. None if the link can't be shared once more.
    pub(crate) fn new(link: &Arc<LinkSockets, Global>, course: Course) -> Option<Direction>
        ensures course { IfSome result (λ direction. direction.course ≡ course) }
        ensures link { IfSome result (λ direction.
            arc_value direction.reader.link ≡ arc_value link.now) }
        ensures stream { IfSome result (λ direction. direction.reader.stream ≡ course.stream) }
    {
        let reader = UntilCut::new(link, course.stream)?;
        let sockets = link.clone().ok()?;
        Some(Direction {
            course,
            reader,
            sockets,
        })
    }
}

/// A stream that was carried to its end. It keeps its writer, which has failed exactly if a write broke the stream.
#[derive(Drop)]
pub(crate) struct CarriedStream<'a, 'r, R> {
    pub(crate) carried: Carried,
    pub(crate) writer: Real<UntilDue<'a, 'r, R>>,
    pub(crate) ghost broken: { writer.failed ≡ is_write_break carried.end },
}

/// The writer of a stream of a link.
fn writer_of<'a, 'r, R: ServeRuntime>(
    rt: &'r R,
    link: &'a LinkSockets,
    course: &Course,
    clock: SinceStart<'r, R>,
) -> UntilDue<'a, 'r, R>
    ensures socket { result.socket.now ≡ target_of course.now.stream link.now }
    ensures due { result.due ≡ fold after_op None course.now.plan.ops }
{
    UntilDue::new(rt, link, course.stream, clock, course.plan.ops())
}

/// Carries one direction to its end.
pub(crate) fn carry_stream<'a, 'r, R: ServeRuntime>(
    rt: &'r R,
    run: &ServeRun<'_>,
    links: &ProxyLinks<'_>,
    number: u64,
    link: &'a LinkSockets,
    direction: Direction,
    start: LinkStart,
) -> CarriedStream<'a, 'r, R>
    ensures { IsReportOf direction.course result.carried }
{
    let Direction {
        course,
        reader,
        sockets: shared,
    } = direction;
    let clock = SinceStart::new(rt, start);
    let kept = notes_of(rt, run, links, number, course.stream);
    let mut notes = SourceNotes::of(kept, shared, course.stream);
    let mut ends = Ends {
        writer: Real::new(writer_of(rt, link, &course, clock)),
        hangup: link.ends_of(course.stream),
    };
    let Course {
        stream,
        words,
        plan,
    } = course;
    let done = carry_timed(
        rt,
        run.alloc,
        Real::new(reader),
        &mut ends,
        &clock,
        plan,
        &words,
        MAX_BYTES,
        &mut notes,
        &run.gate,
    );
    let Ends { writer, hangup } = ends;
    let carried = end_carried(link, stream, &done, hangup.aborted, &notes);
    CarriedStream { carried, writer }
}

/// Ends a stream by the report of its link, or breaks it off by the fault. Returns what it carried.
fn end_carried<S, R: Wait>(
    link: &LinkSockets,
    stream: Stream,
    done: &Result<TimedReport<S>, LinkFault>,
    aborted: Option<AbortCause>,
    notes: &SourceNotes<'_, R>,
) -> Carried
    ensures { result ≡ carried_after stream aborted done.now }
{
    match done {
        Ok(timed) => {
            let TimedReport { report, reading } = timed;
            let (bytes, ending) = (report.written, report.ending);
            end_stream(stream, bytes, *reading, ending, aborted, notes)
        }
        Err(fault) => break_stream(link, stream, fault, notes),
    }
}

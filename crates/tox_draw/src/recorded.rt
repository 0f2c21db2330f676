//! `draw --log`: the picture of a recorded link, with what was due beside what was written.
ghost use Rattle.std.specs.Prelude.{◌≡◌, ◌≤◌, ℕ, List, Option, false, true, string_bytes, IfOk, OnErr, OnOk};
ghost use Rattle.tox_time.specs.declared.streams.item.Item.{Item as OneItem};
ghost use Rattle.tox_log.specs.Reading.{to_hand};
ghost use Rattle.tox_draw.specs.Drawn.{IsPictureAlone, IsPictureOn, WritesPictureFront, WritesPicture};
ghost use Rattle.tox_draw.specs.Axes.{axis_of};
ghost use Rattle.tox_draw.specs.Frames.{IsFrame};
ghost use Rattle.tox_draw.specs.Hearings.{BeginsHearing, HearsAll, HearsEvent, HearsLogLine, KeepsRecord, reset_after};
ghost use Rattle.tox_draw.specs.Recorded.{end_at};

use crate::form::{cut_forms, forms_of};
use crate::frame::Frame;
use crate::heading::push_heading;
use crate::link_end::LinkEnd;
use crate::picture::{Picture, picture_text};
use crate::setting::Setting;
use crate::strand::Strand;
use crate::strands::{Strands, ending_of};
use std::alloc::{AllocError, Global};
use tox_compile::compile;
use tox_link::LinkEvent;
use tox_log::{LastLine, LogFault, LogLine, OpenLog, ReplayFault};
use tox_plan::Runner;
use tox_text::Part::Word;
use tox_text::write_parts;
use tox_time::{Ending, HORIZON, Micros, Sink, Source};

/// What a log says of its stream.
#[derive(Drop)]
struct Record {
    /// The short forms of the toxics.
    forms: Vec<String>,
    strands: Strands,
    /// How the plan ends the link.
    due_end: Ending,
    written: Strand,
    end: LinkEnd,
}

/// The greatest values of a log, and what its picture's heading says.
#[derive(Drop)]
pub(crate) struct Extent {
    /// The short forms of the toxics.
    forms: Vec<String>,
    /// The greatest instant.
    pub(crate) latest: Micros,
    /// How many bytes arrived.
    arrived: u64,
    ghost few: { arrived ≤ 1_099_511_627_776 },
}

/// What a log said so far, with its last reading.
#[derive(Drop)]
struct Hearing {
    strands: Strands,
    written: Strand,
    end: LinkEnd,
    latest: Micros,
}

/// Draws the log in the file of this name. Both readers give that log: the first for the greatest values, the second for the
/// lines. Nothing is written after a fault, except after a failed write: then a prefix of the picture is.
pub fn draw_log<'a, R: Source, W: Sink>(
    alloc: Global,
    name: &'a str,
    first: &mut R,
    second: &mut R,
    writer: &mut W,
) -> Result<(), ReplayFault<'a>>
    requires first { R.failed first.old ≡ false }
    requires second { R.failed second.old ≡ false }
    requires works { W.failed writer.old ≡ false }
    ensures ok { OnOk result (WritesPicture (IsPictureAlone (R.remaining second.old))
        (W.written writer.old) (W.written writer.new)) }
    ensures unwritten { OnErr result (W.failed writer.new ≡ false
        → W.written writer.new ≡ W.written writer.old) }
    ensures front { W.failed writer.new ≡ true
        → WritesPictureFront (IsPictureAlone (R.remaining second.old))
        (W.written writer.old) (W.written writer.new) }
{
    let drawn = match drawn(alloc, first, second) {
        Ok(drawn) => drawn,
        Err(fault) => return Err(ReplayFault::of(name, &fault)),
    };
    if write_parts(writer, &[Word(drawn.as_str())]).is_err() {
        return Err(ReplayFault::WriteFault);
    }
    Ok(())
}

/// The picture of a log that stands alone.
fn drawn<R: Source>(alloc: Global, first: &mut R, second: &mut R) -> Result<String, LogFault>
    requires first { R.failed first.old ≡ false }
    requires second { R.failed second.old ≡ false }
    ensures { IfOk result (λ drawn. IsPictureAlone (R.remaining second.old) (string_bytes drawn)) }
{
    let extent = extent_of(alloc, first)?;
    drawn_to(alloc, &extent, &extent.latest, second, Setting::Alone)
}

/// Reads a log for the greatest values of its picture.
pub(crate) fn extent_of<R: Source>(alloc: Global, first: &mut R) -> Result<Extent, LogFault>
    requires { R.failed first.old ≡ false }
{
    let totals = record_of(alloc, first, &Frame::widest())?;
    let latest = latest(&totals);
    let arrived = totals.strands.arrived.total;
    Ok(Extent {
        forms: totals.forms,
        latest,
        arrived,
    })
}

/// The picture of a log with these greatest values, whose axis of time goes to an instant.
pub(crate) fn drawn_to<R: Source>(
    alloc: Global,
    extent: &Extent,
    latest: &Micros,
    second: &mut R,
    setting: Setting,
) -> Result<String, LogFault>
    requires { R.failed second.old ≡ false }
    ensures { IfOk result (λ drawn. IsPictureOn (axis_of latest.now) (R.remaining second.old)
        setting (string_bytes drawn)) }
{
    let mut heading = String::new(alloc);
    let lines = push_heading(&mut heading, &cut_forms(alloc, &extent.forms)?)?;
    let frame = Frame::new(lines, latest, extent.arrived);
    let record = record_of(alloc, second, &frame)?;
    Ok(picture_of(alloc, setting, record, heading, frame)?)
}

/// The text of a record's picture.
fn picture_of(
    alloc: Global,
    setting: Setting,
    kept: Record,
    heading: String,
    frame: Frame,
) -> Result<String, AllocError>
    requires { IsFrame frame }
    ensures { IfOk result (λ text. (given : Option (List ℕ)) → KeepsRecord frame given kept
        → IsPictureOn frame.time given setting (string_bytes text)) }
{
    let Record {
        forms,
        strands,
        due_end,
        written,
        end,
    } = kept;
    let arrived = strands.arrived.curve(alloc, &frame)?;
    let planned = strands.planned.curve(alloc, &frame)?;
    let written = written.curve(alloc, &frame)?;
    let picture = Picture {
        setting,
        forms,
        heading,
        frame,
        source_end: strands.source_end,
        source_reset: strands.source_reset,
        arrived,
        planned,
        planned_end: LinkEnd::of(&due_end),
        written: Some(written),
        end,
    };
    picture_text(alloc, &picture)
}

/// The greatest instant of a record that is before the horizon. Programs before 0.3.0 gave the horizon for a reading where a
/// signal had ended the link.
fn latest(kept: &Record) -> Micros {
    let passed = kept
        .strands
        .arrived
        .last_before_horizon
        .later(kept.strands.planned.last_before_horizon)
        .later(kept.written.last_before_horizon);
    let due = LinkEnd::of(&kept.due_end).instant();
    passed
        .later(before_horizon(&kept.strands.source_end))
        .later(before_horizon(&due))
        .later(before_horizon(&kept.end.instant()))
}

/// An instant, if there is one before the horizon, or else 0.
fn before_horizon(instant: &Option<Micros>) -> Micros {
    match instant {
        Some(instant) if instant.get() < HORIZON => *instant,
        _ => Micros::ZERO,
    }
}

/// Reads a log to its end.
fn record_of<R: Source>(alloc: Global, reader: &mut R, frame: &Frame) -> Result<Record, LogFault>
    requires works { R.failed reader.old ≡ false }
    requires frame { IsFrame frame.now }
    ensures { IfOk result (KeepsRecord frame.now (R.remaining reader.old)) }
{
    let mut log = OpenLog::new(alloc, reader)?;
    let words = log.words(alloc)?;
    let forms = forms_of(alloc, log.chain(), &words)?;
    let mut runner = Runner::new(compile(log.chain(), &words), &words);
    let mut hearing = Hearing {
        strands: Strands::new(alloc)?,
        written: Strand::new(alloc)?,
        end: LinkEnd::Missing(Micros::ZERO),
        latest: Micros::ZERO,
    };
    hear_lines(&mut log, reader, &mut runner, &mut hearing, frame)?;
    Ok(Record {
        forms,
        strands: hearing.strands,
        due_end: ending_of(&mut runner),
        written: hearing.written,
        end: hearing.end,
    })
}

/// Hears the lines behind the header.
fn hear_lines<R: Source>(
    log: &mut OpenLog,
    reader: &mut R,
    runner: &mut Runner<'_>,
    hearing: &mut Hearing,
    frame: &Frame,
) -> Result<(), LogFault>
    requires works { R.failed reader.old ≡ false }
    requires idle { runner.old.idle ≡ true }
    requires frame { IsFrame frame.now }
    ensures idle { OnOk result (runner.new.idle ≡ true) }
    ensures same { OnOk result ((log.new.heading ≡ log.old.heading)
        × (log.new.chain ≡ log.old.chain)) }
    ensures hears { OnOk result ((means : List OneItem → List OneItem)
        → BeginsHearing frame.now means log.old hearing.old runner.old
        → HearsAll frame.now means (to_hand log.old (R.remaining reader.old)) hearing.new
        runner.new) }
{
    'lines: for _ in 0..u64::MAX {
        let Some(line) = log.next_line(reader)? else {
            return Ok(());
        };
        hear_line(hearing, runner, frame, &line);
    }
    Err(LogFault::ReadFault)
}

/// Hears a line. Up to the last line the end is missing, at the last reading.
fn hear_line(hearing: &mut Hearing, runner: &mut Runner<'_>, frame: &Frame, line: &LogLine)
    requires idle { runner.old.idle ≡ true }
    requires frame { IsFrame frame.now }
    ensures idle { runner.new.idle ≡ true }
    ensures hears { HearsLogLine frame.now hearing.old runner.old line.now hearing.new runner.new }
{
    match line {
        LogLine::Event(event) => hear_event(hearing, runner, frame, event, false),
        LogLine::SourceReset(instant) => {
            let end = LinkEvent::SourceEnd(*instant);
            hear_event(hearing, runner, frame, &end, true)
        }
        LogLine::Last(LastLine::Ended(reading, ending)) => {
            hearing.end = end_at(ending, reading);
        }
        LogLine::Last(LastLine::Broken(_, _)) => hearing.end = LinkEnd::Broken(hearing.latest),
    }
}

/// Hears an event. The source's end is a reset or not.
fn hear_event(
    hearing: &mut Hearing,
    runner: &mut Runner<'_>,
    frame: &Frame,
    event: &LinkEvent,
    is_reset: bool,
)
    requires idle { runner.old.idle ≡ true }
    requires frame { IsFrame frame.now }
    ensures idle { runner.new.idle ≡ true }
    ensures hears { HearsEvent frame.now hearing.old runner.old event.now hearing.new runner.new }
    ensures reset { hearing.new.strands.source_reset
        ≡ reset_after event.now is_reset hearing.old.strands.source_reset }
{
    match event {
        LinkEvent::Piece(len, instant) => {
            hearing.strands.take_piece(runner, frame, *len, instant);
            read_at(hearing, instant);
        }
        LinkEvent::SourceEnd(instant) => {
            hearing.strands.take_end(runner, instant, is_reset);
            read_at(hearing, instant);
        }
        LinkEvent::Wrote(slice, reading) => {
            let span = slice.span;
            let len = span.stop.saturating_sub(span.start);
            hearing.written.add(frame, len, reading);
            read_at(hearing, reading);
        }
    }
}

/// The clock was read.
fn read_at(hearing: &mut Hearing, reading: &Micros)
    ensures { hearing.new
        ≡ record hearing.old { latest = reading.now; end = LinkEnd.Missing reading.now } }
{
    hearing.latest = *reading;
    hearing.end = LinkEnd::Missing(*reading);
}

/// An ending that came at a reading.
fn end_at(ending: &Ending, reading: &Micros) -> LinkEnd
    ensures { result ≡ end_at ending.now reading.now }
{
    match ending {
        Ending::StillOpen => LinkEnd::Open,
        Ending::Closed(_) => LinkEnd::Closed(*reading),
        Ending::Reset(_) => LinkEnd::Reset(*reading),
    }
}

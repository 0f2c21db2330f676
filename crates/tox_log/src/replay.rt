//! What a log says, judged: whether the plan of its header means it, and how late its writes were.
ghost use Rattle.std.specs.Prelude.{◌≡◌, ◌≢◌, ℕ, List, [], ◌∷◌, true, false, IfErr, IfOk, MatchOption, OnOk};
ghost use Rattle.tox_log.specs.Lateness.{ending_late};
ghost use Rattle.tox_compile.specs.Meaning.{means};
ghost use Rattle.tox_log.specs.EventLines.{logged_line};
ghost use Rattle.tox_log.specs.Hearing.{BeginsJudging, HearsLine, HearsToEnd, IsFaithfulText, IsRefusedText, IsUnfinishedText};
ghost use Rattle.tox_time.specs.declared.streams.ending.Ending.{Ending as OneEnding};
ghost use Rattle.tox_log.specs.Judging.{Judged, KeepsUp};
ghost use Rattle.tox_log.specs.Left.{AcceptsNext, BlamesNoLine, ComesWith, FindsRoom, HasLinesLeft, IsHeardTo, IsNoBadLine, IsNotTooDeep, JudgesWith};
ghost use Rattle.tox_log.specs.LinkLog.{IsLinkLog, events_in};
ghost use Rattle.tox_log.specs.WrittenLog.{IsWrittenText, WrittenLog};
ghost use Rattle.tox_time.specs.streams.StreamPosition.{first_position};
ghost use Rattle.tox_log.specs.declared.event_line.LogLine.{LogLine as AnyLine};
ghost use Rattle.tox_log.specs.declared.replay.Verdict.TheVariants as TheVerdict;
ghost use Rattle.tox_log.specs.declared.event_line.LogLine.TheVariants as OneLine;
ghost use Rattle.tox_log.specs.declared.last_line.LastLine.TheVariants as TheLast;
ghost use Rattle.tox_link.specs.declared.notes.LinkEvent.{LinkEvent as AnyEvent};
ghost use Rattle.tox_link.specs.declared.notes.LinkEvent.TheVariants as OneEvent;
ghost use Rattle.tox_link.specs.log.Log.{IsShallowBehind};
ghost use Rattle.tox_time.specs.declared.streams.item.Item.{Item as OneItem};

use crate::event_line::LogLine;
use crate::fault::LogFault;
use crate::heading::Heading;
use crate::judge::{
    EndingJudged, Judge, begin as begin_judge, hear_end, hear_piece as judge_piece,
    hear_wrote as judge_wrote, judge_ending, takes_at, takes_piece,
};
use crate::last_line::{BreakCause, LastLine};
use crate::lateness::{Lateness, Percentiles};
use crate::open_log::OpenLog;
use std::alloc::Global;
use tox_compile::compile;
use tox_defs::Chain;
use tox_link::LinkEvent;
use tox_time::{Ending, Micros, Slice, Source};

/// What a log is.
#[derive(Clone, Copy, Debug, PartialEq, Eq)]
pub enum Verdict {
    /// A faithful log of a stream that ended so.
    Faithful(Ending),
    /// Faithful as far as it goes: it broke off, or has no last line.
    Unfinished,
    /// Up to the line of this number it isn't faithful.
    Unfaithful(u64),
}

/// A log that was judged.
#[derive(Drop)]
pub struct JudgedLog {
    pub heading: Heading,
    /// The toxics of the header.
    pub chain: Chain,
    pub verdict: Verdict,
    /// Why the stream broke off, where the last line says so and the log is faithful up to it.
    pub broken: Option<BreakCause>,
    /// When the source's end was heard, and whether it is reported as a reset by its peer.
    pub source_end: Option<Micros>,
    pub source_reset: bool,
    /// How many bytes were heard and said, and in how many writes.
    pub heard: u64,
    pub said: u64,
    pub writes: u64,
    /// How late the writes were, and the ending.
    pub late: Option<Percentiles>,
}

/// A log under judgement.
#[derive(Drop)]
struct Hearing {
    judge: Judge,
    verdict: Verdict,
    broken: Option<BreakCause>,
    source_end: Option<Micros>,
    source_reset: bool,
    writes: u64,
    late: Lateness,
}

/// Reads a log to its end, and judges it.
pub fn judge_log<R: Source>(alloc: Global, reader: &mut R) -> Result<JudgedLog, LogFault>
    requires { R.failed reader.old ≡ false }
    ensures faithful { IfOk result (λ judged. (ending : OneEnding)
        → judged.verdict ≡ TheVerdict.Faithful ending
        → IsFaithfulText (R.remaining reader.old) judged ending) }
    ensures unfinished { IfOk result (λ judged. judged.verdict ≡ TheVerdict.Unfinished
        → IsUnfinishedText (R.remaining reader.old) judged) }
    ensures refused { IfOk result (λ judged. (number : ℕ)
        → judged.verdict ≡ TheVerdict.Unfaithful number
        → IsRefusedText (R.remaining reader.old) judged number) }
    ensures reads { (written : WrittenLog) → IsWrittenText (R.remaining reader.old) written
        → IfErr result IsNoBadLine }
    ensures keeps { (written : WrittenLog) → IsWrittenText (R.remaining reader.old) written
        → IsLinkLog written → IfOk result (λ judged. (number : ℕ)
        → judged.verdict ≢ TheVerdict.Unfaithful number) }
    ensures finds_room { (written : WrittenLog) → IsWrittenText (R.remaining reader.old) written
        → IsShallowBehind [] (events_in written.lines) → IfErr result IsNotTooDeep }
{
    let mut log = OpenLog::new(alloc, reader)?;
    let mut hearing = begin(alloc, &log)?;
    hear_lines(alloc, &mut log, reader, &mut hearing)?;
    let late = hearing.late.percentiles();
    let (heading, chain) = log.into_parts();
    Ok(JudgedLog {
        heading,
        chain,
        verdict: hearing.verdict,
        broken: hearing.broken,
        source_end: hearing.source_end,
        source_reset: hearing.source_reset,
        heard: hearing.judge.heard,
        said: hearing.judge.said,
        writes: hearing.writes,
        late,
    })
}

/// The hearing of a log of which only the header is read.
fn begin(alloc: Global, log: &OpenLog) -> Result<Hearing, LogFault>
    ensures held { IfOk result (λ hearing. KeepsUp hearing.judge) }
    ensures begins { IfOk result (BeginsJudging log.now.heading log.now.chain) }
    ensures start { IfOk result (λ hearing. IsHeardTo hearing.judge first_position) }
    ensures judged { IfOk result (λ hearing. (means : List OneItem → List OneItem)
        × Judged means (λ reading. true) hearing.judge []) }
    ensures fault { IfErr result BlamesNoLine }
{
    let words = log.words(alloc)?;
    let plan = compile(log.chain(), &words);
    Ok(Hearing {
        judge: begin_judge(alloc, plan, words)?,
        verdict: Verdict::Unfinished,
        broken: None,
        source_end: None,
        source_reset: false,
        writes: 0,
        late: Lateness::new(alloc),
    })
}

/// Hears the lines behind the header. Once the log is unfaithful, only their form and order count.
fn hear_lines<R: Source>(
    alloc: Global,
    log: &mut OpenLog,
    reader: &mut R,
    hearing: &mut Hearing,
) -> Result<(), LogFault>
    requires works { R.failed reader.old ≡ false }
    requires held { KeepsUp hearing.old.judge }
    requires first { (hearing.old.verdict ≡ TheVerdict.Unfinished) × (log.old.over ≡ false) }
    ensures says { OnOk result
        (HearsToEnd log.old log.new (R.remaining reader.old) hearing.old hearing.new) }
    ensures reads { (lines : List AnyLine)
        → HasLinesLeft log.old (R.remaining reader.old) lines
        → IsHeardTo hearing.old.judge log.old.heard → IfErr result IsNoBadLine }
    ensures finds_room { (means : List OneItem → List OneItem) (events : List AnyEvent)
        (lines : List AnyLine) → Judged means (λ reading. true) hearing.old.judge events
        → HasLinesLeft log.old (R.remaining reader.old) lines
        → IsShallowBehind events (events_in lines) → IfErr result IsNotTooDeep }
{
    'lines: for _ in 0..u64::MAX {
        let Some(line) = log.next_line(reader)? else {
            return Ok(());
        };
        if hearing.verdict != Verdict::Unfinished {
            continue;
        }
        hear_line(alloc, hearing, &line, log.number())?;
    }
    // More lines than a number can count: the log wasn't read to its end.
    Err(LogFault::ReadFault)
}

/// Hears a line of this number.
fn hear_line(
    alloc: Global,
    hearing: &mut Hearing,
    line: &LogLine,
    number: u64,
) -> Result<(), LogFault>
    requires held { KeepsUp hearing.old.judge }
    requires going { hearing.old.verdict ≡ TheVerdict.Unfinished }
    ensures held { KeepsUp hearing.new.judge }
    ensures hears { OnOk result (HearsLine hearing.old line.now number hearing.new) }
    ensures reads { AcceptsNext hearing.old line.now result }
    ensures follows { OnOk result (ComesWith hearing.old line.now hearing.new) }
    ensures finds_room { FindsRoom hearing.old line.now result }
    ensures judges { OnOk result (JudgesWith hearing.old line.now hearing.new) }
{
    match line {
        LogLine::Event(LinkEvent::Piece(len, instant)) => {
            hear_piece(hearing, *len, instant, number)
        }
        LogLine::Event(LinkEvent::SourceEnd(instant)) => {
            hear_source_end(hearing, instant, false, number)
        }
        LogLine::SourceReset(instant) => hear_source_end(hearing, instant, true, number),
        LogLine::Event(LinkEvent::Wrote(slice, reading)) => {
            hear_wrote(alloc, hearing, slice, reading, number)
        }
        LogLine::Last(LastLine::Ended(reading, ending)) => {
            hear_ending(alloc, hearing, ending, reading, number)
        }
        LogLine::Last(LastLine::Broken(cause, _)) => {
            hearing.broken = Some(*cause);
            Ok(())
        }
    }
}

fn hear_piece(
    hearing: &mut Hearing,
    len: u64,
    instant: &Micros,
    number: u64,
) -> Result<(), LogFault>
    requires held { KeepsUp hearing.old.judge }
    requires going { hearing.old.verdict ≡ TheVerdict.Unfinished }
    ensures held { KeepsUp hearing.new.judge }
    ensures hears { OnOk result (HearsLine hearing.old
        (OneLine.Event (OneEvent.Piece len instant.now)) number hearing.new) }
    ensures reads { AcceptsNext hearing.old
        (OneLine.Event (OneEvent.Piece len instant.now)) result }
    ensures follows { OnOk result (ComesWith hearing.old
        (OneLine.Event (OneEvent.Piece len instant.now)) hearing.new) }
    ensures finds_room { FindsRoom hearing.old
        (OneLine.Event (OneEvent.Piece len instant.now)) result }
    ensures judges { OnOk result (JudgesWith hearing.old
        (OneLine.Event (OneEvent.Piece len instant.now)) hearing.new) }
{
    if !takes_piece(&hearing.judge, len, instant) {
        return Err(LogFault::BadLine(number));
    }
    let Ok(()) = judge_piece(&mut hearing.judge, len, instant) else {
        return Err(LogFault::TooDeep(number));
    };
    Ok(())
}

fn hear_source_end(
    hearing: &mut Hearing,
    instant: &Micros,
    is_reset: bool,
    number: u64,
) -> Result<(), LogFault>
    requires held { KeepsUp hearing.old.judge }
    requires going { hearing.old.verdict ≡ TheVerdict.Unfinished }
    ensures held { KeepsUp hearing.new.judge }
    ensures hears { OnOk result (HearsLine hearing.old
        (logged_line is_reset (OneEvent.SourceEnd instant.now)) number hearing.new) }
    ensures reads { AcceptsNext hearing.old
        (OneLine.Event (OneEvent.SourceEnd instant.now)) result }
    ensures follows { OnOk result (ComesWith hearing.old
        (OneLine.Event (OneEvent.SourceEnd instant.now)) hearing.new) }
    ensures fault { IfErr result IsNotTooDeep }
    ensures judges { OnOk result (JudgesWith hearing.old
        (OneLine.Event (OneEvent.SourceEnd instant.now)) hearing.new) }
{
    if hearing.judge.ended || !takes_at(&hearing.judge, instant) {
        return Err(LogFault::BadLine(number));
    }
    hear_end(&mut hearing.judge, instant);
    hearing.source_end = Some(*instant);
    hearing.source_reset = is_reset;
    Ok(())
}

fn hear_wrote(
    alloc: Global,
    hearing: &mut Hearing,
    slice: &Slice,
    reading: &Micros,
    number: u64,
) -> Result<(), LogFault>
    requires held { KeepsUp hearing.old.judge }
    requires going { hearing.old.verdict ≡ TheVerdict.Unfinished }
    ensures held { KeepsUp hearing.new.judge }
    ensures hears { OnOk result (HearsLine hearing.old
        (OneLine.Event (OneEvent.Wrote slice.now reading.now)) number hearing.new) }
    ensures reads { AcceptsNext hearing.old
        (OneLine.Event (OneEvent.Wrote slice.now reading.now)) result }
    ensures follows { OnOk result (ComesWith hearing.old
        (OneLine.Event (OneEvent.Wrote slice.now reading.now)) hearing.new) }
    ensures fault { IfErr result IsNotTooDeep }
    ensures judges { OnOk result (JudgesWith hearing.old
        (OneLine.Event (OneEvent.Wrote slice.now reading.now)) hearing.new) }
{
    if !takes_at(&hearing.judge, reading) {
        return Err(LogFault::BadLine(number));
    }
    if !judge_wrote(&mut hearing.judge, slice, reading) {
        hearing.verdict = Verdict::Unfaithful(number);
        return Ok(());
    }
    hearing.writes = hearing.writes.saturating_add(1);
    let late = reading.get().saturating_sub(slice.instant.get());
    hearing.late.add(alloc, late)?;
    Ok(())
}

fn hear_ending(
    alloc: Global,
    hearing: &mut Hearing,
    ending: &Ending,
    reading: &Micros,
    number: u64,
) -> Result<(), LogFault>
    requires held { KeepsUp hearing.old.judge }
    requires going { hearing.old.verdict ≡ TheVerdict.Unfinished }
    ensures held { KeepsUp hearing.new.judge }
    ensures hears { OnOk result (HearsLine hearing.old
        (OneLine.Last (TheLast.Ended reading.now ending.now)) number hearing.new) }
    ensures reads { AcceptsNext hearing.old
        (OneLine.Last (TheLast.Ended reading.now ending.now)) result }
    ensures fault { IfErr result IsNotTooDeep }
    ensures follows { OnOk result (ComesWith hearing.old
        (OneLine.Last (TheLast.Ended reading.now ending.now)) hearing.new) }
    ensures judges { OnOk result (JudgesWith hearing.old
        (OneLine.Last (TheLast.Ended reading.now ending.now)) hearing.new) }
{
    if !takes_at(&hearing.judge, reading) {
        return Err(LogFault::BadLine(number));
    }
    match judge_ending(&mut hearing.judge, ending, reading) {
        EndingJudged::Reported => {}
        EndingJudged::Refused => {
            hearing.verdict = Verdict::Unfaithful(number);
            return Ok(());
        }
        EndingJudged::Early => return Ok(()),
    }
    hearing.verdict = Verdict::Faithful(*ending);
    if let Some(late) = ending_late(ending, reading) {
        hearing.late.add(alloc, late)?;
    }
    Ok(())
}

/// How late an ending came, if it has an instant.
fn ending_late(ending: &Ending, reading: &Micros) -> Option<u64>
    ensures { MatchOption result (ending_late reading.now ending.now ≡ [])
        (λ late. ending_late reading.now ending.now ≡ late ∷ []) }
{
    match ending {
        Ending::StillOpen => None,
        Ending::Closed(instant) | Ending::Reset(instant) => {
            Some(reading.get().saturating_sub(instant.get()))
        }
    }
}

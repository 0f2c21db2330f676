//! The line that a judged log is printed as.
ghost use Rattle.std.specs.Prelude.{◌≡◌, ◌≢◌, false, IfErr, IfOk, OnOk};
ghost use Rattle.tox_log.specs.FaultText.{IsFaultIn};
ghost use Rattle.tox_log.specs.JudgedLine.{HasJudged, LeavesJudged};
ghost use Rattle.tox_log.specs.JudgedObject.{verdict_word};
ghost use Rattle.tox_log.specs.JudgedText.{counts_text, end_text, judged_line, late_text, mark_text, outcome_text, said_text, stream_text, writes_text};
ghost use Rattle.tox_text.specs.Printing.{IsWorking, Prints};
ghost use Rattle.tox_text.specs.Writing.{Writes};

use crate::fault::ReplayFault;
use crate::lateness::Percentiles;
use crate::replay::{JudgedLog, Verdict, judge_log};
use std::alloc::Global;
use tox_text::Part::{Name, Number, Word};
use tox_text::Printer;
use tox_time::{EndFault, Ending, Sink, Source};

/// Judges the log in the file of this name, and writes its line.
pub fn write_judged<'a, R: Source, W: Sink>(
    alloc: Global,
    name: &'a str,
    reader: &mut R,
    writer: &mut W,
) -> Result<Verdict, ReplayFault<'a>>
    requires reads { R.failed reader.old ≡ false }
    requires works { W.failed writer.old ≡ false }
    ensures ok { IfOk result (HasJudged (R.remaining reader.old) (W.written writer.old)
        (W.written writer.new) judged_line) }
    ensures works { OnOk result (W.failed writer.new ≡ false) }
    ensures fault { IfErr result (LeavesJudged (R.remaining reader.old) (W.written writer.old)
        (W.written writer.new) (W.failed writer.new) judged_line) }
    ensures named { IfErr result (λ fault. fault ≢ ReplayFault.WriteFault
        → IsFaultIn name.entry fault) }
{
    let log = match judge_log(alloc, reader) {
        Ok(log) => log,
        Err(fault) => return Err(ReplayFault::of(name, &fault)),
    };
    match write_log(writer, &log) {
        Ok(()) => Ok(log.verdict),
        Err(_) => Err(ReplayFault::WriteFault),
    }
}

/// Writes the line of a judged log.
fn write_log<W: Sink>(writer: &mut W, log: &JudgedLog) -> Result<(), EndFault>
    requires { W.failed writer.old ≡ false }
    ensures { Writes result (W.written writer.old) (W.written writer.new) (W.failed writer.new)
        (judged_line log.now) }
{
    let mut printer = Printer::new(writer);
    print_judged(&mut printer, log)?;
    printer.finish()
}

/// Prints the line of a judged log.
pub fn print_judged<W: Sink>(printer: &mut Printer<'_, W>, log: &JudgedLog) -> Result<(), EndFault>
    requires { IsWorking W.Sink printer.old }
    ensures { Prints W.Sink result printer.old printer.new (judged_line log.now) }
{
    print_stream(printer, log)?;
    print_outcome(printer, log)
}

/// Prints the verdict, the proxy's name, the link's number and the stream.
fn print_stream<W: Sink>(printer: &mut Printer<'_, W>, log: &JudgedLog) -> Result<(), EndFault>
    requires { IsWorking W.Sink printer.old }
    ensures { Prints W.Sink result printer.old printer.new (stream_text log.now) }
{
    let parts = [
        Word(verdict_word(&log.verdict)),
        Word(" "),
        Name(&log.heading.proxy),
        Word(" "),
        Number(log.heading.number),
        Word(" "),
        Word(log.heading.stream.name()),
    ];
    printer.print(&parts)
}

/// The word of a verdict.
pub(crate) fn verdict_word(verdict: &Verdict) -> &'static str
    ensures { result.now ≡ verdict_word verdict.now }
{
    match verdict {
        Verdict::Faithful(_) => "faithful",
        Verdict::Unfinished => "unfinished",
        Verdict::Unfaithful(_) => "unfaithful",
    }
}

/// Prints the line up to which a log isn't faithful, or what a faithful one says.
fn print_outcome<W: Sink>(printer: &mut Printer<'_, W>, log: &JudgedLog) -> Result<(), EndFault>
    requires { IsWorking W.Sink printer.old }
    ensures { Prints W.Sink result printer.old printer.new (outcome_text log.now log.now.verdict) }
{
    match log.verdict {
        Verdict::Unfaithful(line) => printer.print(&[Word(" line "), Number(line), Word("\n")]),
        Verdict::Faithful(_) | Verdict::Unfinished => print_said(printer, log),
    }
}

/// Prints what was heard and said, the ending, and the writes.
fn print_said<W: Sink>(printer: &mut Printer<'_, W>, log: &JudgedLog) -> Result<(), EndFault>
    requires { IsWorking W.Sink printer.old }
    ensures { Prints W.Sink result printer.old printer.new (said_text log.now) }
{
    print_counts(printer, log)?;
    print_end(printer, &log.verdict)?;
    print_writes(printer, log.writes)?;
    print_late(printer, &log.late)
}

/// Prints what was heard and said.
fn print_counts<W: Sink>(printer: &mut Printer<'_, W>, log: &JudgedLog) -> Result<(), EndFault>
    requires { IsWorking W.Sink printer.old }
    ensures { Prints W.Sink result printer.old printer.new (counts_text log.now) }
{
    let counts = [
        Word(" in "),
        Number(log.heard),
        Word(" out "),
        Number(log.said),
    ];
    printer.print(&counts)
}

/// Prints the number of writes.
fn print_writes<W: Sink>(printer: &mut Printer<'_, W>, writes: u64) -> Result<(), EndFault>
    requires { IsWorking W.Sink printer.old }
    ensures { Prints W.Sink result printer.old printer.new (writes_text writes) }
{
    printer.print(&[Word(" writes "), Number(writes)])
}

/// Prints how a faithful log ended.
fn print_end<W: Sink>(printer: &mut Printer<'_, W>, verdict: &Verdict) -> Result<(), EndFault>
    requires { IsWorking W.Sink printer.old }
    ensures { Prints W.Sink result printer.old printer.new (end_text verdict.now) }
{
    match verdict {
        Verdict::Faithful(Ending::StillOpen) => printer.print(&[Word(" open")]),
        Verdict::Faithful(Ending::Closed(instant)) => {
            printer.print(&[Word(" closed "), Number(instant.get())])
        }
        Verdict::Faithful(Ending::Reset(instant)) => {
            printer.print(&[Word(" reset "), Number(instant.get())])
        }
        Verdict::Unfinished | Verdict::Unfaithful(_) => printer.print(&[]),
    }
}

/// What stands before a percentile that is exact or not.
fn mark_of(exact: bool) -> &'static str
    ensures { result.now ≡ mark_text exact }
{
    if exact { " " } else { " ~" }
}

/// Prints how late the writes and a timed ending were, if anything was timed, and ends the line.
fn print_late<W: Sink>(
    printer: &mut Printer<'_, W>,
    late: &Option<Percentiles>,
) -> Result<(), EndFault>
    requires { IsWorking W.Sink printer.old }
    ensures { Prints W.Sink result printer.old printer.new (late_text late.now) }
{
    let Some(late) = late else {
        return printer.print(&[Word("\n")]);
    };
    let mark = mark_of(late.exact);
    let parts = [
        Word(" late median"),
        Word(mark),
        Number(late.median),
        Word(" p99"),
        Word(mark),
        Number(late.p99),
        Word(" max "),
        Number(late.max),
        Word("\n"),
    ];
    printer.print(&parts)
}

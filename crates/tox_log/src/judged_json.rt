//! The line of a judged log as an object of JSON.
ghost use Rattle.std.specs.Prelude.{◌≡◌, ◌≢◌, false, IfErr, IfOk, OnOk};
ghost use Rattle.tox_log.specs.FaultText.{IsFaultIn};
ghost use Rattle.tox_log.specs.JudgedLine.{HasJudged, LeavesJudged};
ghost use Rattle.tox_log.specs.JudgedObject.{end_fields, ended_fields, ending_fields, judged_object, late_field, outcome_fields, said_fields, stream_fields};
ghost use Rattle.tox_text.specs.Json.{flag_text};
ghost use Rattle.tox_text.specs.JsonLine.{number_field};
ghost use Rattle.tox_text.specs.Printing.{IsWorking, Prints};
ghost use Rattle.tox_text.specs.Writing.{Writes};

use crate::fault::ReplayFault;
use crate::judged_text::verdict_word;
use crate::lateness::Percentiles;
use crate::replay::{JudgedLog, Verdict, judge_log};
use std::alloc::Global;
use tox_text::Part::{Number, Word};
use tox_text::{JsonField, Printer, print_event, print_fields};
use tox_time::{EndFault, Ending, Sink, Source};

/// Judges the log in the file of this name, and writes its line as an object of JSON.
pub fn write_judged_json<'a, R: Source, W: Sink>(
    alloc: Global,
    name: &'a str,
    reader: &mut R,
    writer: &mut W,
) -> Result<Verdict, ReplayFault<'a>>
    requires reads { R.failed reader.old ≡ false }
    requires works { W.failed writer.old ≡ false }
    ensures ok { IfOk result (HasJudged (R.remaining reader.old) (W.written writer.old)
        (W.written writer.new) (judged_object name.entry.now)) }
    ensures works { OnOk result (W.failed writer.new ≡ false) }
    ensures fault { IfErr result (LeavesJudged (R.remaining reader.old) (W.written writer.old)
        (W.written writer.new) (W.failed writer.new) (judged_object name.entry.now)) }
    ensures named { IfErr result (λ fault. fault ≢ ReplayFault.WriteFault
        → IsFaultIn name.entry fault) }
{
    let log = match judge_log(alloc, reader) {
        Ok(log) => log,
        Err(fault) => return Err(ReplayFault::of(name, &fault)),
    };
    match write_log(writer, name, &log) {
        Ok(()) => Ok(log.verdict),
        Err(_) => Err(ReplayFault::WriteFault),
    }
}

/// Writes the object of the judged log in the file of this name.
fn write_log<W: Sink>(writer: &mut W, name: &str, log: &JudgedLog) -> Result<(), EndFault>
    requires { W.failed writer.old ≡ false }
    ensures { Writes result (W.written writer.old) (W.written writer.new) (W.failed writer.new)
        (judged_object name.now log.now) }
{
    let mut printer = Printer::new(writer);
    print_judged_json(&mut printer, name, log)?;
    printer.finish()
}

/// Prints the object of the judged log in the file of this name.
pub fn print_judged_json<W: Sink>(
    printer: &mut Printer<'_, W>,
    name: &str,
    log: &JudgedLog,
) -> Result<(), EndFault>
    requires { IsWorking W.Sink printer.old }
    ensures { Prints W.Sink result printer.old printer.new (judged_object name.now log.now) }
{
    print_event(printer, "replay")?;
    print_stream(printer, name, log)?;
    print_outcome(printer, log)?;
    printer.print(&[Word("}\n")])
}

/// Prints the file, the verdict, and which stream of which link the log is of.
fn print_stream<W: Sink>(
    printer: &mut Printer<'_, W>,
    name: &str,
    log: &JudgedLog,
) -> Result<(), EndFault>
    requires { IsWorking W.Sink printer.old }
    ensures { Prints W.Sink result printer.old printer.new (stream_fields name.now log.now) }
{
    let fields = [
        JsonField::text("file", name),
        JsonField::text("verdict", verdict_word(&log.verdict)),
        JsonField::text("proxy", &log.heading.proxy),
        JsonField::number("link", log.heading.number),
        JsonField::text("stream", log.heading.stream.name()),
    ];
    print_fields(printer, &fields)
}

/// Prints the line up to which a log isn't faithful, or what a faithful one says.
fn print_outcome<W: Sink>(printer: &mut Printer<'_, W>, log: &JudgedLog) -> Result<(), EndFault>
    requires { IsWorking W.Sink printer.old }
    ensures { Prints W.Sink result printer.old printer.new (outcome_fields log.now log.now.verdict) }
{
    match log.verdict {
        Verdict::Unfaithful(line) => print_number(printer, "line", line),
        Verdict::Faithful(_) | Verdict::Unfinished => print_said(printer, log),
    }
}

/// Prints what was heard and said, the ending, and the writes.
fn print_said<W: Sink>(printer: &mut Printer<'_, W>, log: &JudgedLog) -> Result<(), EndFault>
    requires { IsWorking W.Sink printer.old }
    ensures { Prints W.Sink result printer.old printer.new (said_fields log.now) }
{
    print_number(printer, "in", log.heard)?;
    print_number(printer, "out", log.said)?;
    print_end(printer, &log.verdict)?;
    print_number(printer, "writes", log.writes)?;
    print_late(printer, &log.late)
}

/// Prints a field with a number.
fn print_number<W: Sink>(
    printer: &mut Printer<'_, W>,
    key: &str,
    number: u64,
) -> Result<(), EndFault>
    requires { IsWorking W.Sink printer.old }
    ensures { Prints W.Sink result printer.old printer.new (number_field key.now number) }
{
    print_fields(printer, &[JsonField::number(key, number)])
}

/// Prints how a faithful log ended.
fn print_end<W: Sink>(printer: &mut Printer<'_, W>, verdict: &Verdict) -> Result<(), EndFault>
    requires { IsWorking W.Sink printer.old }
    ensures { Prints W.Sink result printer.old printer.new (end_fields verdict.now) }
{
    match verdict {
        Verdict::Faithful(ending) => print_ending(printer, ending),
        Verdict::Unfinished | Verdict::Unfaithful(_) => print_fields(printer, &[]),
    }
}

/// Prints how a stream ended, and when.
fn print_ending<W: Sink>(printer: &mut Printer<'_, W>, ending: &Ending) -> Result<(), EndFault>
    requires { IsWorking W.Sink printer.old }
    ensures { Prints W.Sink result printer.old printer.new (ending_fields ending.now) }
{
    match ending {
        Ending::StillOpen => print_fields(printer, &[JsonField::text("end", "open")]),
        Ending::Closed(instant) => print_ended(printer, "closed", instant.get()),
        Ending::Reset(instant) => print_ended(printer, "reset", instant.get()),
    }
}

/// Prints the word of an ending, and its instant.
fn print_ended<W: Sink>(
    printer: &mut Printer<'_, W>,
    word: &str,
    instant: u64,
) -> Result<(), EndFault>
    requires { IsWorking W.Sink printer.old }
    ensures { Prints W.Sink result printer.old printer.new (ended_fields word.now instant) }
{
    let fields = [
        JsonField::text("end", word),
        JsonField::number("instant", instant),
    ];
    print_fields(printer, &fields)
}

/// A truth value, as JSON has it.
fn flag_word(flag: bool) -> &'static str
    ensures { result.now ≡ flag_text flag }
{
    if flag { "true" } else { "false" }
}

/// Prints how late the writes were, if there was one.
fn print_late<W: Sink>(
    printer: &mut Printer<'_, W>,
    late: &Option<Percentiles>,
) -> Result<(), EndFault>
    requires { IsWorking W.Sink printer.old }
    ensures { Prints W.Sink result printer.old printer.new (late_field late.now) }
{
    let Some(late) = late else {
        return print_fields(printer, &[]);
    };
    let parts = [
        Word(",\"late\":{\"median\":"),
        Number(late.median),
        Word(",\"p99\":"),
        Number(late.p99),
        Word(",\"max\":"),
        Number(late.max),
        Word(",\"approximate\":"),
        Word(flag_word(!late.exact)),
        Word("}"),
    ];
    printer.print(&parts)
}

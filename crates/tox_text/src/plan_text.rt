//! The text of a plan.
ghost use Rattle.std.specs.Prelude.{◌≡◌, ◌++◌, false, codes, flat_map};
ghost use Rattle.tox_defs.specs.operations.Op.{op_from, op_until};
ghost use Rattle.tox_text.specs.PlanText.{at_words, delay_words, nonzero_words, op_line, plan_text, slicing_words, work_words};
ghost use Rattle.tox_text.specs.ResultText.{ending_words};
ghost use Rattle.tox_text.specs.Printing.{IsWorking, Prints};
ghost use Rattle.tox_text.specs.Writing.{Writes};

use crate::fault::WriteFault;
use crate::parts::Part::{Number, Word};
use crate::printer::Printer;
use crate::result_line::print_ending_words;
use tox_compile::Plan;
use tox_defs::Op;
use tox_time::{EndFault, Ending, Micros, Sink};

/// Writes the text of a plan: a line for each operation, or `pass` where there is none.
///
/// After a fault a prefix of the text is written.
pub fn print_plan<W: Sink>(writer: &mut W, plan: &Plan) -> Result<(), WriteFault>
    requires { W.failed writer.old ≡ false }
    ensures { Writes result (W.written writer.old) (W.written writer.new) (W.failed writer.new)
        (plan_text plan.now.ops) }
{
    write_ops(writer, plan.ops()).map_err(|_| WriteFault)
}

/// Writes the lines of operations, or `pass` where there is none.
fn write_ops<W: Sink>(writer: &mut W, ops: &[Op]) -> Result<(), EndFault>
    requires { W.failed writer.old ≡ false }
    ensures { Writes result (W.written writer.old) (W.written writer.new) (W.failed writer.new)
        (plan_text ops.now) }
{
    let mut printer = Printer::new(writer);
    print_text(&mut printer, ops)?;
    printer.finish()
}

fn print_text<W: Sink>(printer: &mut Printer<'_, W>, ops: &[Op]) -> Result<(), EndFault>
    requires { IsWorking W.Sink printer.old }
    ensures { Prints W.Sink result printer.old printer.new (plan_text ops.now) }
{
    if ops.is_empty() {
        return printer.print(&[Word("pass\n")]);
    }
    print_ops(printer, ops)
}

fn print_ops<W: Sink>(printer: &mut Printer<'_, W>, ops: &[Op]) -> Result<(), EndFault>
    requires { IsWorking W.Sink printer.old }
    ensures { Prints W.Sink result printer.old printer.new (flat_map op_line ops.now) }
{
    for op in ops {
        print_op(printer, op)?;
    }
    Ok(())
}

/// Prints the line of an operation.
fn print_op<W: Sink>(printer: &mut Printer<'_, W>, op: &Op) -> Result<(), EndFault>
    requires { IsWorking W.Sink printer.old }
    ensures { Prints W.Sink result printer.old printer.new (op_line op.now) }
{
    print_work(printer, op)?;
    print_nonzero(printer, " until ", u64::from(until_of(op)))?;
    print_nonzero(printer, " from ", u64::from(from_of(op)))?;
    printer.print(&[Word("\n")])
}

/// Prints what an operation does in its time.
fn print_work<W: Sink>(printer: &mut Printer<'_, W>, op: &Op) -> Result<(), EndFault>
    requires { IsWorking W.Sink printer.old }
    ensures { Prints W.Sink result printer.old printer.new (work_words op.now) }
{
    match op {
        Op::Delay {
            fixed,
            latency,
            jitter,
            lane,
            ..
        } => print_delay(printer, *fixed, *latency, *jitter, *lane),
        Op::Pace { rate, .. } => { printer.print(&[Word("pace "), Number(u64::from(*rate))]) }
        Op::Slow { millis } => printer.print(&[Word("slow "), Number(u64::from(*millis))]),
        Op::Limit { bytes } => printer.print(&[Word("limit "), Number(*bytes)]),
        Op::Cutoff { instant } => printer.print(&[Word("cutoff "), Number(instant.get())]),
        Op::Slicing {
            average,
            variation,
            micros,
            lane,
            ..
        } => print_slicing(printer, *average, *variation, *micros, *lane),
        Op::Mute { ending } => print_mute(printer, ending),
        Op::Halt { at, after, ending } => print_halt(printer, at, *after, ending),
    }
}

/// Prints a delay, with what it draws if it has jitter.
fn print_delay<W: Sink>(
    printer: &mut Printer<'_, W>,
    fixed: u32,
    latency: u32,
    jitter: u32,
    lane: usize,
) -> Result<(), EndFault>
    requires { IsWorking W.Sink printer.old }
    ensures { Prints W.Sink result printer.old printer.new (delay_words fixed latency jitter lane) }
{
    if jitter == 0 {
        return printer.print(&[Word("delay "), Number(u64::from(fixed))]);
    }
    let parts = [
        Word("delay "),
        Number(u64::from(fixed)),
        Word(" jitter "),
        Number(u64::from(latency)),
        Word(" "),
        Number(u64::from(jitter)),
        Word(" lane "),
        Number(lane as u64),
    ];
    printer.print(&parts)
}

/// Prints a slicing, with the lane of its draws.
fn print_slicing<W: Sink>(
    printer: &mut Printer<'_, W>,
    average: u32,
    variation: u32,
    micros: u64,
    lane: usize,
) -> Result<(), EndFault>
    requires { IsWorking W.Sink printer.old }
    ensures { Prints W.Sink result printer.old printer.new (slicing_words average variation micros lane) }
{
    let parts = [
        Word("slicing "),
        Number(u64::from(average)),
        Word(" "),
        Number(u64::from(variation)),
        Word(" "),
        Number(micros),
        Word(" lane "),
        Number(lane as u64),
    ];
    printer.print(&parts)
}

/// Prints how a link ends that lets no data through.
fn print_mute<W: Sink>(printer: &mut Printer<'_, W>, ending: &Ending) -> Result<(), EndFault>
    requires { IsWorking W.Sink printer.old }
    ensures { Prints W.Sink result printer.old printer.new (codes "mute " ++ ending_words ending.now) }
{
    printer.print(&[Word("mute ")])?;
    print_ending_words(printer, ending)
}

/// Prints when and how a halt ends the link.
fn print_halt<W: Sink>(
    printer: &mut Printer<'_, W>,
    at: &Option<Micros>,
    after: u64,
    ending: &Ending,
) -> Result<(), EndFault>
    requires { IsWorking W.Sink printer.old }
    ensures { Prints W.Sink result printer.old printer.new (work_words (Op.Halt at.now after ending.now)) }
{
    printer.print(&[Word("halt")])?;
    print_at(printer, at)?;
    print_nonzero(printer, " after ", after)?;
    printer.print(&[Word(" ")])?;
    print_ending_words(printer, ending)
}

/// Prints the instant from which on an operation ends the link, if there is one.
fn print_at<W: Sink>(printer: &mut Printer<'_, W>, at: &Option<Micros>) -> Result<(), EndFault>
    requires { IsWorking W.Sink printer.old }
    ensures { Prints W.Sink result printer.old printer.new (at_words at.now) }
{
    match at {
        Some(instant) => printer.print(&[Word(" at "), Number(instant.get())]),
        None => Ok(()),
    }
}

/// The `until` of an operation in milliseconds, 0 if it never stops.
fn until_of(op: &Op) -> u32
    ensures { result ≡ op_until op.now }
{
    match op {
        Op::Delay { until, .. } => *until,
        Op::Pace { until, .. } => *until,
        Op::Slicing { until, .. } => *until,
        _ => 0,
    }
}

/// The `from` of an operation in milliseconds, 0 if it begins at once.
fn from_of(op: &Op) -> u32
    ensures { result ≡ op_from op.now }
{
    match op {
        Op::Delay { from, .. } => *from,
        Op::Pace { from, .. } => *from,
        Op::Slicing { from, .. } => *from,
        _ => 0,
    }
}

/// Prints a number behind its word, and nothing for 0.
fn print_nonzero<W: Sink>(
    printer: &mut Printer<'_, W>,
    word: &str,
    number: u64,
) -> Result<(), EndFault>
    requires { IsWorking W.Sink printer.old }
    ensures { Prints W.Sink result printer.old printer.new (nonzero_words word.now number) }
{
    if number == 0 {
        return Ok(());
    }
    printer.print(&[Word(word), Number(number)])
}

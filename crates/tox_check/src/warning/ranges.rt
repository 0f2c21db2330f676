//! Ranges of connections in a sentence.
ghost use Rattle.tox_text.specs.Printing.{IsWorking, Prints};
ghost use Rattle.tox_check.specs.Sentences.{meet_text, meet_unless, more_text, range_text, ranges_text, run_end, taken_text};

use crate::run::{LAST, Run};
use tox_text::Part::{Number, Word};
use tox_text::Printer;
use tox_time::{EndFault, Sink};

/// Prints the connections of runs.
pub(crate) fn print_ranges<W: Sink>(
    printer: &mut Printer<'_, W>,
    runs: &[Run],
) -> Result<(), EndFault>
    requires { IsWorking W.Sink printer.old }
    ensures { Prints W.Sink result printer.old printer.new (ranges_text runs.now) }
{
    let [run, rest @ ..] = runs else {
        return Ok(());
    };
    print_range(printer, run)?;
    if rest.is_empty() {
        return Ok(());
    }
    printer.print(&[Word(", ")])?;
    print_ranges(printer, rest)
}

/// Prints the connections of runs, and the rules that they meet.
pub(crate) fn print_taken<W: Sink>(
    printer: &mut Printer<'_, W>,
    runs: &[Run],
) -> Result<(), EndFault>
    requires { IsWorking W.Sink printer.old }
    ensures { Prints W.Sink result printer.old printer.new (taken_text runs.now) }
{
    let [run, rest @ ..] = runs else {
        return Ok(());
    };
    print_range(printer, run)?;
    let [next, ..] = rest else {
        return print_meet(printer, run.rule);
    };
    print_meet_unless(printer, run.rule, next.rule)?;
    printer.print(&[Word(", ")])?;
    print_taken(printer, rest)
}

/// Prints which rule connections meet, unless the next ones meet it too.
fn print_meet_unless<W: Sink>(
    printer: &mut Printer<'_, W>,
    rule: usize,
    next: usize,
) -> Result<(), EndFault>
    requires { IsWorking W.Sink printer.old }
    ensures { Prints W.Sink result printer.old printer.new (meet_unless rule next) }
{
    if rule == next {
        Ok(())
    } else {
        print_meet(printer, rule)
    }
}

/// Prints which rule connections meet, by its number from 1.
fn print_meet<W: Sink>(printer: &mut Printer<'_, W>, rule: usize) -> Result<(), EndFault>
    requires { IsWorking W.Sink printer.old }
    ensures { Prints W.Sink result printer.old printer.new (meet_text rule) }
{
    printer.print(&[Word(" meet rule "), Number(rule as u64)])
}

/// Prints how many more ranges there are, if there are more.
pub(crate) fn print_more<W: Sink>(printer: &mut Printer<'_, W>, more: usize) -> Result<(), EndFault>
    requires { IsWorking W.Sink printer.old }
    ensures { Prints W.Sink result printer.old printer.new (more_text more) }
{
    if more == 0 {
        return Ok(());
    }
    printer.print(&[Word(", and "), Number(more as u64), Word(" more")])
}

/// Prints the connections of a run.
fn print_range<W: Sink>(printer: &mut Printer<'_, W>, run: &Run) -> Result<(), EndFault>
    requires { IsWorking W.Sink printer.old }
    ensures { Prints W.Sink result printer.old printer.new (range_text run.now) }
{
    printer.print(&[Number(run.first)])?;
    print_end(printer, run)
}

/// Prints where the connections of a run end, unless it has only one.
fn print_end<W: Sink>(printer: &mut Printer<'_, W>, run: &Run) -> Result<(), EndFault>
    requires { IsWorking W.Sink printer.old }
    ensures { Prints W.Sink result printer.old printer.new (run_end run.now) }
{
    if LAST <= run.last {
        printer.print(&[Word(" on")])
    } else if run.first == run.last {
        Ok(())
    } else {
        printer.print(&[Word(" to "), Number(run.last)])
    }
}

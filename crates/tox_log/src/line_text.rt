//! The text of a line behind the header.
ghost use Rattle.std.specs.Prelude.{◌++◌, codes};
ghost use Rattle.tox_text.specs.Printing.{IsWorking, Prints};
ghost use Rattle.tox_log.specs.Lines.{line_words};

use crate::event_line::LogLine;
use crate::event_text::print_event;
use crate::last_line::print_last;
use tox_text::Part::{Number, Word};
use tox_text::SizedPrinter;
use tox_time::{EndFault, Micros, Sink};

/// Prints a line: that of an event, `<reading> end reset`, or the last one.
pub(crate) fn print_line<W: Sink, const ROOM: usize>(
    printer: &mut SizedPrinter<'_, W, ROOM>,
    line: &LogLine,
) -> Result<(), EndFault>
    requires { IsWorking W.Sink printer.old }
    ensures { Prints W.Sink result printer.old printer.new (line_words line.now ++ codes "\n") }
{
    match line {
        LogLine::Event(event) => print_event(printer, event),
        LogLine::SourceReset(instant) => print_reset(printer, instant),
        LogLine::Last(last) => print_last(printer, last),
    }
}

/// Prints the line of a source's end that was a reset.
fn print_reset<W: Sink, const ROOM: usize>(
    printer: &mut SizedPrinter<'_, W, ROOM>,
    instant: &Micros,
) -> Result<(), EndFault>
    requires { IsWorking W.Sink printer.old }
    ensures { Prints W.Sink result printer.old printer.new (line_words (LogLine.SourceReset instant.now) ++ codes "\n") }
{
    printer.print(&[Number(instant.get()), Word(" end reset\n")])
}

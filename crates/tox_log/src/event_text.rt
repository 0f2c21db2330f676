//! The line of an event.
ghost use Rattle.tox_text.specs.Printing.{IsWorking, Prints};
ghost use Rattle.tox_log.specs.EventText.{event_line};

use tox_link::LinkEvent;
use tox_text::Part::{Number, Word};
use tox_text::SizedPrinter;
use tox_time::{EndFault, Micros, Sink, Slice};

/// Prints the line of an event: `<reading> piece <bytes>`, `<reading> end` or `<reading> wrote <start>..<stop> <due>`.
pub fn print_event<W: Sink, const ROOM: usize>(
    printer: &mut SizedPrinter<'_, W, ROOM>,
    event: &LinkEvent,
) -> Result<(), EndFault>
    requires { IsWorking W.Sink printer.old }
    ensures { Prints W.Sink result printer.old printer.new (event_line event.now) }
{
    match event {
        LinkEvent::Piece(len, instant) => {
            let parts = [
                Number(instant.get()),
                Word(" piece "),
                Number(*len),
                Word("\n"),
            ];
            printer.print(&parts)
        }
        LinkEvent::SourceEnd(instant) => { printer.print(&[Number(instant.get()), Word(" end\n")]) }
        LinkEvent::Wrote(slice, reading) => print_wrote(printer, slice, reading),
    }
}

/// Prints the line of a slice that was written.
fn print_wrote<W: Sink, const ROOM: usize>(
    printer: &mut SizedPrinter<'_, W, ROOM>,
    slice: &Slice,
    reading: &Micros,
) -> Result<(), EndFault>
    requires { IsWorking W.Sink printer.old }
    ensures { Prints W.Sink result printer.old printer.new (event_line (LinkEvent.Wrote slice.now reading.now)) }
{
    let parts = [
        Number(reading.get()),
        Word(" wrote "),
        Number(slice.span.start),
        Word(".."),
        Number(slice.span.stop),
        Word(" "),
        Number(slice.instant.get()),
        Word("\n"),
    ];
    printer.print(&parts)
}

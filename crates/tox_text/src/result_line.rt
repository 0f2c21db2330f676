//! The lines of a result text.
ghost use Rattle.std.specs.Prelude.{◌+◌, ◌<◌, ◌≤◌, ◌^◌, length};
ghost use Rattle.tox_text.specs.ResultText.{bytes_line, ending_line, ending_words};
ghost use Rattle.tox_text.specs.Printing.{IsWorking, Prints};

use crate::parts::Part::{Hex, Number, Word};
use crate::prepend_buffer::PrependBuffer;
use crate::printer::Printer;
use tox_lend::Lent;
use tox_time::{EndFault, Ending, Sink};

/// The most bytes of a slice whose line is put together before it is printed.
const MAX_SHORT: usize = 64;

/// Prints the line of a lent slice.
pub fn print_lent<W: Sink>(printer: &mut Printer<'_, W>, lent: &Lent<'_>) -> Result<(), EndFault>
    requires working { IsWorking W.Sink printer.old }
    requires fits { lent.now.start + length lent.now.bytes.now < 2 ^ 64 }
    ensures { Prints W.Sink result printer.old printer.new (bytes_line lent.now.instant lent.now.start lent.now.bytes.now) }
{
    if lent.bytes.len() <= MAX_SHORT {
        print_short_line(printer, lent)
    } else {
        print_long_line(printer, lent)
    }
}

/// Prints the line of a short slice. One check for room and one copy for the whole line: those of its eight parts would take most of
/// the time.
fn print_short_line<W: Sink>(printer: &mut Printer<'_, W>, lent: &Lent<'_>) -> Result<(), EndFault>
    requires working { IsWorking W.Sink printer.old }
    requires fits { lent.now.start + length lent.now.bytes.now < 2 ^ 64 }
    requires short { length lent.now.bytes.now ≤ 64 }
    ensures { Prints W.Sink result printer.old printer.new (bytes_line lent.now.instant lent.now.start lent.now.bytes.now) }
{
    let mut line = PrependBuffer::new();
    line.prepend(b"\n");
    line.prepend_hex(lent.bytes);
    line.prepend(b" ");
    line.prepend_number(lent.start + lent.bytes.len() as u64);
    line.prepend(b"..");
    line.prepend_number(lent.start);
    line.prepend(b" ");
    line.prepend_number(lent.instant.get());
    printer.put(line.as_slice())
}

/// Prints the line of a slice of any length, part by part.
fn print_long_line<W: Sink>(printer: &mut Printer<'_, W>, lent: &Lent<'_>) -> Result<(), EndFault>
    requires working { IsWorking W.Sink printer.old }
    requires fits { lent.now.start + length lent.now.bytes.now < 2 ^ 64 }
    ensures { Prints W.Sink result printer.old printer.new (bytes_line lent.now.instant lent.now.start lent.now.bytes.now) }
{
    let stop = lent.start + lent.bytes.len() as u64;
    let parts = [
        Number(lent.instant.get()),
        Word(" "),
        Number(lent.start),
        Word(".."),
        Number(stop),
        Word(" "),
        Hex(lent.bytes),
        Word("\n"),
    ];
    printer.print(&parts)
}

/// Prints the line of an ending.
pub fn print_ending<W: Sink>(printer: &mut Printer<'_, W>, ending: &Ending) -> Result<(), EndFault>
    requires { IsWorking W.Sink printer.old }
    ensures { Prints W.Sink result printer.old printer.new (ending_line ending.now) }
{
    print_ending_words(printer, ending)?;
    printer.print(&[Word("\n")])
}

/// Prints the words of an ending.
pub(crate) fn print_ending_words<W: Sink>(
    printer: &mut Printer<'_, W>,
    ending: &Ending,
) -> Result<(), EndFault>
    requires { IsWorking W.Sink printer.old }
    ensures { Prints W.Sink result printer.old printer.new (ending_words ending.now) }
{
    match ending {
        Ending::StillOpen => printer.print(&[Word("open")]),
        Ending::Closed(instant) => { printer.print(&[Word("closed "), Number(instant.get())]) }
        Ending::Reset(instant) => printer.print(&[Word("reset "), Number(instant.get())]),
    }
}

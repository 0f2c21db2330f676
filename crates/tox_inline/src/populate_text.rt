//! The populate file that means what a command line says.
ghost use Rattle.std.specs.Prelude.{◌≡◌, false};
ghost use Rattle.tox_inline.specs.Texts.{populate_text};
ghost use Rattle.tox_text.specs.Printing.{IsWorking, Prints};
ghost use Rattle.tox_text.specs.Writing.{Writes};

use tox_text::Part::Word;
use tox_text::{Printer, print_quoted};
use tox_time::{EndFault, Sink};

/// Writes a populate file of one proxy, `default`, between two addresses.
pub(crate) fn write_populate<W: Sink>(
    writer: &mut W,
    listen: &str,
    upstream: &str,
) -> Result<(), EndFault>
    requires { W.failed writer.old ≡ false }
    ensures { Writes result (W.written writer.old) (W.written writer.new) (W.failed writer.new)
        (populate_text listen.now upstream.now) }
{
    let mut printer = Printer::new(writer);
    print_populate(&mut printer, listen, upstream)?;
    printer.finish()
}

fn print_populate<W: Sink>(
    printer: &mut Printer<'_, W>,
    listen: &str,
    upstream: &str,
) -> Result<(), EndFault>
    requires { IsWorking W.Sink printer.old }
    ensures { Prints W.Sink result printer.old printer.new (populate_text listen.now upstream.now) }
{
    printer.print(&[Word("[{\"name\": \"default\", \"listen\": ")])?;
    print_quoted(printer, listen)?;
    printer.print(&[Word(", \"upstream\": ")])?;
    print_quoted(printer, upstream)?;
    printer.print(&[Word("}]\n")])
}

//! The script that means what a command line says.
ghost use Rattle.std.specs.Prelude.{◌≡◌, ◌≤◌, false, flat_map, length, map};
ghost use Rattle.std.specs.List.{zip};
ghost use Rattle.tox_inline.specs.Texts.{attribute_line, says_begin, script_text, short_name, toxic_head, toxic_text};
ghost use Rattle.tox_text.specs.Printing.{IsWorking, Prints};
ghost use Rattle.tox_text.specs.Writing.{Writes};

use crate::toxics::NumberedToxic;
use tox_defs::Attribute;
use tox_text::Part::{Number, Word};
use tox_text::Printer;
use tox_time::{EndFault, Sink, Stream};

/// What stands before the toxics.
const HEAD: &str = "version = 2\nlanes = 32\n\n[[rule]]\nproxy = \"default\"\nfirst = 1\n";

/// Writes a script by which each connection of the proxy `default` meets these toxics.
pub(crate) fn write_script<W: Sink>(
    writer: &mut W,
    toxics: &[NumberedToxic],
) -> Result<(), EndFault>
    requires { W.failed writer.old ≡ false }
    ensures { Writes result (W.written writer.old) (W.written writer.new) (W.failed writer.new)
        (script_text toxics.now) }
{
    let mut printer = Printer::new(writer);
    print_script(&mut printer, toxics)?;
    printer.finish()
}

fn print_script<W: Sink>(
    printer: &mut Printer<'_, W>,
    toxics: &[NumberedToxic],
) -> Result<(), EndFault>
    requires { IsWorking W.Sink printer.old }
    ensures { Prints W.Sink result printer.old printer.new (script_text toxics.now) }
{
    printer.print(&[Word(HEAD)])?;
    print_toxics(printer, toxics)
}

fn print_toxics<W: Sink>(
    printer: &mut Printer<'_, W>,
    toxics: &[NumberedToxic],
) -> Result<(), EndFault>
    requires { IsWorking W.Sink printer.old }
    ensures { Prints W.Sink result printer.old printer.new (flat_map toxic_text toxics.now) }
{
    for toxic in toxics {
        print_toxic(printer, toxic)?;
    }
    Ok(())
}

/// Prints the table of a toxic.
fn print_toxic<W: Sink>(printer: &mut Printer<'_, W>, toxic: &NumberedToxic) -> Result<(), EndFault>
    requires { IsWorking W.Sink printer.old }
    ensures { Prints W.Sink result printer.old printer.new (toxic_text toxic.now) }
{
    print_head(printer, toxic)?;
    let entry = &toxic.entry;
    print_attributes(printer, entry.toxic.attributes(), &entry.toxic.values())
}

/// Prints the table of a toxic, up to its attributes.
fn print_head<W: Sink>(printer: &mut Printer<'_, W>, toxic: &NumberedToxic) -> Result<(), EndFault>
    requires { IsWorking W.Sink printer.old }
    ensures { Prints W.Sink result printer.old printer.new (toxic_head toxic.now) }
{
    let entry = &toxic.entry;
    let parts = [
        Word("\n[[rule.toxic]]\nname = \""),
        Word(short_name(toxic.stream)),
        Number(toxic.number as u64),
        Word("\"\ntype = \""),
        Word(entry.toxic.name()),
        Word("\"\nstream = \""),
        Word(toxic.stream.name()),
        Word("\"\ntoxicity = "),
        Number(u64::from(entry.toxicity)),
        Word("\n\n[rule.toxic.attributes]\n"),
    ];
    printer.print(&parts)
}

/// The beginning of the names of a stream's toxics.
fn short_name(stream: Stream) -> &'static str
    ensures { result.now ≡ short_name stream }
{
    match stream {
        Stream::Upstream => "up_",
        Stream::Downstream => "down_",
    }
}

/// Prints the lines of the attributes.
fn print_attributes<W: Sink>(
    printer: &mut Printer<'_, W>,
    attributes: &[Attribute],
    values: &[u64],
) -> Result<(), EndFault>
    requires working { IsWorking W.Sink printer.old }
    requires enough { length attributes.now ≤ length values.now }
    ensures { Prints W.Sink result printer.old printer.new
        (flat_map attribute_line (zip (map (λ attribute. attribute.name.now) attributes.now) values.now)) }
{
    for (place, attribute) in attributes.iter().enumerate() {
        print_attribute(printer, attribute.name, values[place])?;
    }
    Ok(())
}

/// Prints the line of an attribute, but for one of 0 that says when a toxic begins.
fn print_attribute<W: Sink>(
    printer: &mut Printer<'_, W>,
    key: &str,
    value: u64,
) -> Result<(), EndFault>
    requires { IsWorking W.Sink printer.old }
    ensures { Prints W.Sink result printer.old printer.new (attribute_line (key.now, value)) }
{
    if value == 0 && says_begin(key) {
        return Ok(());
    }
    printer.print(&[Word(key), Word(" = "), Number(value), Word("\n")])
}

/// Whether an attribute says when a toxic begins.
fn says_begin(key: &str) -> bool
    ensures { result ≡ says_begin key.now }
{
    key == "from" || key == "after"
}

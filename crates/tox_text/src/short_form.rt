//! Toxics as short forms.
ghost use Rattle.std.specs.Prelude.{◌≡◌, ◌≤◌, flat_map, length, map};
ghost use Rattle.std.specs.List.{zip};
ghost use Rattle.tox_defs.specs.short.Printed.{is_optional, printed_short};
ghost use Rattle.tox_text.specs.ShortForm.{shown_before_comma};
ghost use Rattle.tox_text.specs.Printing.{IsWorking, Prints};

use crate::parts::Part::{Number, Word};
use crate::printer::Printer;
use tox_defs::{Attribute, Entry};
use tox_time::{EndFault, Sink};

/// Prints the short form of a toxic with its toxicity.
pub fn print_short<W: Sink>(printer: &mut Printer<'_, W>, entry: &Entry) -> Result<(), EndFault>
    requires { IsWorking W.Sink printer.old }
    ensures { Prints W.Sink result printer.old printer.new (printed_short entry.now.toxic entry.now.toxicity) }
{
    let toxic = &entry.toxic;
    printer.print(&[Word(toxic.name()), Word(":")])?;
    print_attributes(printer, toxic.attributes(), &toxic.values())?;
    let toxicity = u64::from(entry.toxicity);
    printer.print(&[Word("toxicity="), Number(toxicity)])
}

/// Prints each key with its value and a comma, but for an optional one of 0.
fn print_attributes<W: Sink>(
    printer: &mut Printer<'_, W>,
    attributes: &[Attribute],
    values: &[u64],
) -> Result<(), EndFault>
    requires working { IsWorking W.Sink printer.old }
    requires enough { length attributes.now ≤ length values.now }
    ensures { Prints W.Sink result printer.old printer.new
        (flat_map shown_before_comma (zip (map (λ attribute. attribute.name.now) attributes.now) values.now)) }
{
    for (place, attribute) in attributes.iter().enumerate() {
        print_shown(printer, attribute.name, values[place])?;
    }
    Ok(())
}

fn print_shown<W: Sink>(printer: &mut Printer<'_, W>, key: &str, value: u64) -> Result<(), EndFault>
    requires { IsWorking W.Sink printer.old }
    ensures { Prints W.Sink result printer.old printer.new (shown_before_comma (key.now, value)) }
{
    if value == 0 && is_optional(key) {
        return Ok(());
    }
    printer.print(&[Word(key), Word("="), Number(value), Word(",")])
}

/// Whether an attribute is printed only where it isn't 0.
fn is_optional(key: &str) -> bool
    ensures { result ≡ is_optional key.now }
{
    key == "until" || key == "from" || key == "after"
}

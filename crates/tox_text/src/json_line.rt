//! Lines that are objects of JSON: what a line is about, and then its fields.
ghost use Rattle.std.specs.Prelude.{◌≡◌, false, flat_map};
ghost use Rattle.tox_text.specs.JsonLine.{event_text, field_text, key_text, object_line};
ghost use Rattle.tox_text.specs.Printing.{IsWorking, Prints};
ghost use Rattle.tox_text.specs.Writing.{Writes};

use crate::json::{JsonItem, JsonValue, print_value};
use crate::parts::Part::Word;
use crate::printer::Printer;
use tox_time::{EndFault, Sink};

/// A field of a line: its key, which needs no escape, and its value.
#[derive(Clone, Copy, Debug)]
pub struct JsonField<'a> {
    pub key: &'a str,
    pub value: JsonValue<'a>,
}

impl<'a> JsonField<'a> {
    /// A field with a text.
    pub fn text(key: &'a str, text: &'a str) -> JsonField<'a>
        ensures { result ≡ record {
          key = key.entry;
          value = JsonValue.One (JsonItem.Text text.entry);
        } }
    {
        JsonField {
            key,
            value: JsonValue::One(JsonItem::Text(text)),
        }
    }

    /// A field with a number.
    pub fn number(key: &'a str, number: u64) -> JsonField<'a>
        ensures { result ≡ record {
          key = key.entry;
          value = JsonValue.One (JsonItem.Number number);
        } }
    {
        JsonField {
            key,
            value: JsonValue::One(JsonItem::Number(number)),
        }
    }
}

/// Writes a line about this event with these fields.
pub fn write_object<W: Sink>(
    writer: &mut W,
    event: &str,
    fields: &[JsonField<'_>],
) -> Result<(), EndFault>
    requires { W.failed writer.old ≡ false }
    ensures { Writes result (W.written writer.old) (W.written writer.new) (W.failed writer.new)
        (object_line event.now fields.now) }
{
    let mut printer = Printer::new(writer);
    print_object(&mut printer, event, fields)?;
    printer.finish()
}

/// Prints a line about this event with these fields.
pub fn print_object<W: Sink>(
    printer: &mut Printer<'_, W>,
    event: &str,
    fields: &[JsonField<'_>],
) -> Result<(), EndFault>
    requires { IsWorking W.Sink printer.old }
    ensures { Prints W.Sink result printer.old printer.new (object_line event.now fields.now) }
{
    print_event(printer, event)?;
    print_fields(printer, fields)?;
    printer.put(b"}\n")
}

/// Prints the beginning of a line about this event.
pub fn print_event<W: Sink>(printer: &mut Printer<'_, W>, event: &str) -> Result<(), EndFault>
    requires { IsWorking W.Sink printer.old }
    ensures { Prints W.Sink result printer.old printer.new (event_text event.now) }
{
    printer.print(&[Word("{\"event\":\""), Word(event), Word("\"")])
}

/// Prints fields, each with a comma before it.
pub fn print_fields<W: Sink>(
    printer: &mut Printer<'_, W>,
    fields: &[JsonField<'_>],
) -> Result<(), EndFault>
    requires { IsWorking W.Sink printer.old }
    ensures { Prints W.Sink result printer.old printer.new (flat_map field_text fields.now) }
{
    for field in fields {
        print_field(printer, field)?;
    }
    Ok(())
}

fn print_field<W: Sink>(printer: &mut Printer<'_, W>, field: &JsonField<'_>) -> Result<(), EndFault>
    requires { IsWorking W.Sink printer.old }
    ensures { Prints W.Sink result printer.old printer.new (field_text field.now) }
{
    print_key(printer, field.key)?;
    print_value(printer, &field.value)
}

fn print_key<W: Sink>(printer: &mut Printer<'_, W>, key: &str) -> Result<(), EndFault>
    requires { IsWorking W.Sink printer.old }
    ensures { Prints W.Sink result printer.old printer.new (key_text key.now) }
{
    printer.print(&[Word(",\""), Word(key), Word("\":")])
}

//! Values of JSON, on their way to a writer.
ghost use Rattle.std.specs.Prelude.{◌∷◌, false, flat_map};
ghost use Rattle.tox_text.specs.Json.{after_comma, array_text, escaped_in_json, item_text, json_byte, json_text, value_text};
ghost use Rattle.tox_text.specs.Printing.{IsWorking, Prints};

use crate::printer::Printer;
use tox_time::{EndFault, Sink};

/// A text, a number or a truth value.
#[derive(Clone, Copy, Debug)]
pub enum JsonItem<'a> {
    Text(&'a str),
    Number(u64),
    Flag(bool),
}

impl<'a> Default for JsonItem<'a> {
    fn default() -> JsonItem<'a> {
        JsonItem::Number(0)
    }
}

/// One item, or an array of them.
#[derive(Clone, Copy, Debug)]
pub enum JsonValue<'a> {
    One(JsonItem<'a>),
    Array(&'a [JsonItem<'a>]),
}

/// Prints a value.
pub(crate) fn print_value<W: Sink>(
    printer: &mut Printer<'_, W>,
    value: &JsonValue<'_>,
) -> Result<(), EndFault>
    requires { IsWorking W.Sink printer.old }
    ensures { Prints W.Sink result printer.old printer.new (value_text value.now) }
{
    match value {
        JsonValue::One(item) => print_item(printer, item),
        JsonValue::Array(items) => print_array(printer, items),
    }
}

/// Prints items with commas between them, in brackets.
fn print_array<W: Sink>(
    printer: &mut Printer<'_, W>,
    items: &[JsonItem<'_>],
) -> Result<(), EndFault>
    requires { IsWorking W.Sink printer.old }
    ensures { Prints W.Sink result printer.old printer.new (array_text items.now) }
{
    match items {
        [] => printer.put(b"[]"),
        [first, others @ ..] => print_listed(printer, first, others),
    }
}

/// Prints an item and others with commas between them, in brackets.
fn print_listed<W: Sink>(
    printer: &mut Printer<'_, W>,
    first: &JsonItem<'_>,
    others: &[JsonItem<'_>],
) -> Result<(), EndFault>
    requires { IsWorking W.Sink printer.old }
    ensures { Prints W.Sink result printer.old printer.new (array_text (first.now ∷ others.now)) }
{
    printer.put(b"[")?;
    print_item(printer, first)?;
    print_others(printer, others)?;
    printer.put(b"]")
}

/// Prints items with a comma before each.
fn print_others<W: Sink>(
    printer: &mut Printer<'_, W>,
    items: &[JsonItem<'_>],
) -> Result<(), EndFault>
    requires { IsWorking W.Sink printer.old }
    ensures { Prints W.Sink result printer.old printer.new (flat_map after_comma items.now) }
{
    for item in items {
        print_after_comma(printer, item)?;
    }
    Ok(())
}

fn print_after_comma<W: Sink>(
    printer: &mut Printer<'_, W>,
    item: &JsonItem<'_>,
) -> Result<(), EndFault>
    requires { IsWorking W.Sink printer.old }
    ensures { Prints W.Sink result printer.old printer.new (after_comma item.now) }
{
    printer.put(b",")?;
    print_item(printer, item)
}

fn print_item<W: Sink>(printer: &mut Printer<'_, W>, item: &JsonItem<'_>) -> Result<(), EndFault>
    requires { IsWorking W.Sink printer.old }
    ensures { Prints W.Sink result printer.old printer.new (item_text item.now) }
{
    match item {
        JsonItem::Text(text) => print_quoted(printer, text),
        JsonItem::Number(number) => printer.put_number(*number),
        JsonItem::Flag(true) => printer.put(b"true"),
        JsonItem::Flag(false) => printer.put(b"false"),
    }
}

/// Prints a text between quotes. Quotes, backslashes and control characters before the space are escaped, and all else stands as
/// it is.
pub fn print_quoted<W: Sink>(printer: &mut Printer<'_, W>, text: &str) -> Result<(), EndFault>
    requires { IsWorking W.Sink printer.old }
    ensures { Prints W.Sink result printer.old printer.new (json_text text.now) }
{
    print_between_quotes(printer, text.as_bytes())
}

fn print_between_quotes<W: Sink>(printer: &mut Printer<'_, W>, text: &[u8]) -> Result<(), EndFault>
    requires { IsWorking W.Sink printer.old }
    ensures { Prints W.Sink result printer.old printer.new (json_text text.now) }
{
    printer.put(b"\"")?;
    print_inside(printer, text)?;
    printer.put(b"\"")
}

/// Prints what stands between the quotes.
fn print_inside<W: Sink>(printer: &mut Printer<'_, W>, text: &[u8]) -> Result<(), EndFault>
    requires { IsWorking W.Sink printer.old }
    ensures { Prints W.Sink result printer.old printer.new (flat_map json_byte text.now) }
{
    for byte in text {
        print_json_byte(printer, *byte)?;
    }
    Ok(())
}

fn print_json_byte<W: Sink>(printer: &mut Printer<'_, W>, byte: u8) -> Result<(), EndFault>
    requires { IsWorking W.Sink printer.old }
    ensures { Prints W.Sink result printer.old printer.new (json_byte byte) }
{
    if byte < 32 {
        return print_code(printer, byte);
    }
    if byte == b'"' || byte == b'\\' {
        return printer.put(&[b'\\', byte]);
    }
    printer.put(&[byte])
}

fn print_code<W: Sink>(printer: &mut Printer<'_, W>, byte: u8) -> Result<(), EndFault>
    requires { IsWorking W.Sink printer.old }
    ensures { Prints W.Sink result printer.old printer.new (escaped_in_json byte) }
{
    printer.put(b"\\u00")?;
    printer.put_hex(&[byte])
}

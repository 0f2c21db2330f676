//! Lines as objects of JSON.
ghost use Rattle.std.specs.Prelude.{◌≡◌, ◌+◌, ◌≤◌, ◌++◌, codes, length};
ghost use Rattle.tox_text.specs.Json.{array_text};
ghost use Rattle.tox_text.specs.JsonLine.{field_text, key_text};
ghost use Rattle.tox_text.specs.Printing.{IsWorking, Prints};
ghost use Rattle.tox_check.specs.forecast.Objects.{place_item, place_items, stream_object, total_object};

use crate::forecast::link_line::{Met, number_of};
use crate::forecast::totals::Total;
use arrayvec::ArrayVec;
use tox_defs::MAX_TOXICS;
use tox_text::{JsonField, JsonItem, JsonValue, Printer, print_object};
use tox_time::{EndFault, Sink, Stream};

/// Places of toxics.
type Items<'a> = ArrayVec<JsonItem<'a>, MAX_TOXICS>;

/// Prints the object of a connection's stream.
pub(crate) fn print_stream_object<W: Sink>(
    printer: &mut Printer<'_, W>,
    met: &Met<'_>,
    stream: Stream,
    flags: &[bool],
) -> Result<(), EndFault>
    requires working { IsWorking W.Sink printer.old }
    requires few { length flags.now ≤ 32 }
    ensures { Prints W.Sink result printer.old printer.new
        (stream_object met.now.proxy.now met.now.conn stream met.now.rule flags.now) }
{
    let places = place_items(flags);
    let fields = [
        JsonField::text("proxy", met.proxy),
        JsonField::number("link", met.conn),
        JsonField::text("stream", stream.name()),
        JsonField::number("rule", number_of(met.rule)),
        applied_field(&places),
    ];
    print_object(printer, "forecast", &fields)
}

/// The field of the places of the applied toxics.
fn applied_field<'a>(places: &'a [JsonItem<'a>]) -> JsonField<'a>
    ensures { field_text result ≡ key_text (codes "applied") ++ array_text places.now }
{
    JsonField {
        key: "applied",
        value: JsonValue::Array(places),
    }
}

/// The places of the applied toxics.
fn place_items<'a>(flags: &[bool]) -> Items<'a>
    requires { length flags.now ≤ 32 }
    ensures { result.items ≡ place_items flags.now }
{
    let mut items = ArrayVec::new();
    for (place, applied) in flags.iter().enumerate() {
        add_place(&mut items, place, *applied);
    }
    items
}

/// Adds a place, if its toxic is applied.
fn add_place<'a>(items: &mut Items<'a>, place: usize, applied: bool)
    requires { length items.old.items + 1 ≤ 32 }
    ensures items { items.new.items ≡ items.old.items ++ place_item place applied }
    ensures few { length items.new.items ≤ length items.old.items + 1 }
{
    if applied {
        items.push(JsonItem::Number(place as u64));
    }
}

/// Prints the object of a toxic's total.
pub(crate) fn print_total_object<W: Sink>(
    printer: &mut Printer<'_, W>,
    total: &Total<'_>,
) -> Result<(), EndFault>
    requires { IsWorking W.Sink printer.old }
    ensures { Prints W.Sink result printer.old printer.new
        (total_object total.now.proxy.now total.now.rule total.now.number
        total.now.applied total.now.met total.now.name.now) }
{
    let fields = [
        JsonField::text("proxy", total.proxy),
        JsonField::number("rule", total.rule),
        JsonField::number("toxic", total.number),
        JsonField::number("applied", total.applied),
        JsonField::number("of", total.met),
        JsonField::text("name", total.name),
    ];
    print_object(printer, "toxic", &fields)
}

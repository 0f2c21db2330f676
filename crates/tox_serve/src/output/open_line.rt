//! The line of a stream of a link whose upstream is reached: the client, and the toxics that it meets.
ghost use Rattle.std.specs.Prelude.{◌≡◌, ◌+◌, ◌++◌, ◌<◌, ◌≤◌, codes, false, flat_map, length, map, string_bytes, IfNone, IsSome};
ghost use Rattle.tox_serve.specs.output.LineText.{IsLine};
ghost use Rattle.tox_serve.specs.output.OpenLine.{applied_names, name_if, open_line, open_object, spaced, text_items};
ghost use Rattle.tox_text.specs.Json.{array_text};
ghost use Rattle.tox_text.specs.JsonLine.{field_text, key_text};
ghost use Rattle.tox_words.specs.Draw.{draws_of};

use crate::output::LineText;
use arrayvec::ArrayVec;
use tox_defs::{Entry, MAX_TOXICS};
use tox_text::Part::{Name, Number, Word};
use tox_text::{JsonField, JsonItem, JsonValue};
use tox_time::Stream;
use tox_words::Drawing;

/// The names of toxics that are applied.
pub(crate) type Names<'a> = ArrayVec<&'a str, MAX_TOXICS>;

/// A stream of a link whose upstream is reached.
#[derive(Clone, Copy)]
pub(crate) struct OpenStream<'a> {
    pub(crate) proxy: &'a str,
    pub(crate) number: u64,
    pub(crate) stream: Stream,
    /// The client's address.
    pub(crate) client: &'a str,
    /// The names of the applied toxics.
    pub(crate) toxics: &'a [&'a str],
}

/// The names of the toxics that are applied, in the chain's order.
pub(crate) fn applied_names<'a>(
    entries: &[Entry],
    names: &'a [String],
    drawing: &Drawing<'_>,
) -> Names<'a>
    requires one_each { length names.now ≡ length entries.now }
    requires few { length entries.now ≤ 32 }
    ensures names { map (λ name. name.now) result.items
        ≡ applied_names (draws_of drawing.now) entries.now (map string_bytes names.now) }
    ensures few { length result.items ≤ 32 }
{
    let mut applied = ArrayVec::new();
    for (place, entry) in entries.iter().enumerate() {
        add_if(
            &mut applied,
            entry.is_applied(place, drawing),
            &names[place],
        );
    }
    applied
}

/// Adds a name, if its toxic is applied.
fn add_if<'a>(names: &mut Names<'a>, applied: bool, name: &'a str)
    requires { length names.old.items < 32 }
    ensures names { map (λ n. n.now) names.new.items
        ≡ map (λ n. n.now) names.old.items ++ name_if applied name.now }
    ensures few { length names.new.items ≤ length names.old.items + 1 }
{
    if applied {
        names.push(name);
    }
}

/// The line of a stream. None if it is too long; none is.
pub(crate) fn open_text(opened: &OpenStream<'_>) -> Option<LineText>
    ensures { IsLine result (open_line opened.now) }
{
    let parts = [
        Word("open "),
        Name(opened.proxy),
        Word(" "),
        Number(opened.number),
        Word(" "),
        Word(opened.stream.name()),
        Word(" "),
        Word(opened.client),
    ];
    let mut line = LineText::of(&parts)?;
    add_names(&mut line, opened.toxics)?;
    line.add(&[Word("\n")])?;
    Some(line)
}

/// Adds names, each behind a space.
fn add_names(line: &mut LineText, names: &[&str]) -> Option<()>
    requires { line.old.failed ≡ false }
    ensures text { IsSome result
        → line.new.bytes.items ≡ line.old.bytes.items ++ flat_map spaced names.now }
    ensures working { IsSome result → line.new.failed ≡ false }
    ensures long { IfNone result
        (6144 < length (line.old.bytes.items ++ flat_map spaced names.now)) }
{
    for name in names {
        line.add(&[Word(" "), Name(name)])?;
    }
    Some(())
}

/// The object of a stream. None if it is too long; none is.
pub(crate) fn open_json(opened: &OpenStream<'_>) -> Option<LineText>
    requires { length opened.now.toxics.now ≤ 32 }
    ensures { IsLine result (open_object opened.now) }
{
    let items = text_items(opened.toxics);
    json_with(opened, &items)
}

/// The object of a stream whose toxics have these names.
fn json_with(opened: &OpenStream<'_>, names: &[JsonItem<'_>]) -> Option<LineText>
    requires { names.now ≡ text_items opened.now.toxics.now }
    ensures { IsLine result (open_object opened.now) }
{
    let fields = [
        JsonField::text("proxy", opened.proxy),
        JsonField::number("link", opened.number),
        JsonField::text("stream", opened.stream.name()),
        JsonField::text("client", opened.client),
        toxics_field(names),
    ];
    LineText::of_object("open", &fields)
}

/// The field of the names of toxics.
fn toxics_field<'a>(names: &'a [JsonItem<'a>]) -> JsonField<'a>
    ensures { field_text result ≡ key_text (codes "toxics") ++ array_text names.now }
{
    JsonField {
        key: "toxics",
        value: JsonValue::Array(names),
    }
}

/// Texts as items.
fn text_items<'a>(texts: &[&'a str]) -> ArrayVec<JsonItem<'a>, MAX_TOXICS>
    requires { length texts.now ≤ 32 }
    ensures { result.items ≡ text_items texts.now }
{
    let mut items = ArrayVec::new();
    for text in texts {
        items.push(JsonItem::Text(text));
    }
    items
}

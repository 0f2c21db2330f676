//! The fields of a toxic's table.
ghost use Rattle.std.specs.Prelude.{◌≡◌, option_map, IfOk, IfErr, Ok, Err};
ghost use Rattle.toml.specs.View.{view};
ghost use Rattle.tox_script.specs.fields.ToxicFields.{attributes_field, is_plain, name_field, plain_name, stream_field, stream_text, toxic_fields, type_field};
ghost use Rattle.tox_script.specs.Views.{fields_view};

use crate::fault::Field;
use crate::fields::{has_only, sized_text};
use toml::Value;
use tox_time::Stream;

const MAX_NAME_LEN: usize = 64;

/// The fields of a toxic's table, lent from it. The toxicity and the attributes are read later, by the version and the type.
#[derive(Clone, Copy)]
pub(crate) struct ToxicFields<'a> {
    pub(crate) name: Option<&'a str>,
    pub(crate) type_name: &'a str,
    pub(crate) stream: Stream,
    pub(crate) toxicity: Option<&'a Value>,
    pub(crate) attributes: Option<&'a Value>,
}

impl<'a> ToxicFields<'a> {
    /// The fields, or the first that isn't as it must be.
    pub(crate) fn read(table: &'a Value) -> Result<ToxicFields<'a>, Field>
        ensures ok { IfOk result
            (λ fields. toxic_fields (view table.now) ≡ Ok (fields_view fields)) }
        ensures err { IfErr result (λ field. toxic_fields (view table.now) ≡ Err field) }
    {
        let name = name_field(table)?;
        let type_name = type_field(table)?;
        let stream = stream_field(table)?;
        let attributes = attributes_field(table)?;
        if !has_only(table, &["name", "type", "stream", "toxicity", "attributes"]) {
            return Err(Field::Unknown);
        }
        Ok(ToxicFields {
            name,
            type_name,
            stream,
            toxicity: table.get("toxicity"),
            attributes,
        })
    }
}

/// The name, where there is one.
fn name_field(table: &Value) -> Result<Option<&str>, Field>
    ensures ok { IfOk result
        (λ name. name_field (view table.now) ≡ Ok (option_map (λ text. text.now) name)) }
    ensures err { IfErr result (λ field. name_field (view table.now) ≡ Err field) }
{
    match table.get("name") {
        None => Ok(None),
        Some(value) => match plain_name(value) {
            Some(name) => Ok(Some(name)),
            None => Err(Field::Name),
        },
    }
}

/// A text of 1 to 64 bytes without ASCII's control characters.
fn plain_name(value: &Value) -> Option<&str>
    ensures { option_map (λ name. name.now) result ≡ plain_name (view value.now) }
{
    let name = sized_text(value, MAX_NAME_LEN)?;
    if is_plain(name) { Some(name) } else { None }
}

fn is_plain(text: &str) -> bool
    ensures { result ≡ is_plain text.now }
{
    text.bytes().all(|byte| !byte.is_ascii_control())
}

fn type_field(table: &Value) -> Result<&str, Field>
    ensures ok { IfOk result (λ name. type_field (view table.now) ≡ Ok name.now) }
    ensures err { IfErr result (λ field. type_field (view table.now) ≡ Err field) }
{
    match table.get("type") {
        None => Err(Field::Type),
        Some(value) => value.as_str().ok_or(Field::Type),
    }
}

/// The stream: downstream if absent.
fn stream_field(table: &Value) -> Result<Stream, Field>
    ensures { result ≡ stream_field (view table.now) }
{
    match table.get("stream") {
        None => Ok(Stream::Downstream),
        Some(value) => stream_text(value).ok_or(Field::Stream),
    }
}

fn stream_text(value: &Value) -> Option<Stream>
    ensures { result ≡ stream_text (view value.now) }
{
    Stream::of_name(value.as_str()?)
}

/// The table of attributes, where there is one.
fn attributes_field(table: &Value) -> Result<Option<&Value>, Field>
    ensures ok { IfOk result (λ attributes.
        attributes_field (view table.now) ≡ Ok (option_map (λ value. view value.now) attributes)) }
    ensures err { IfErr result (λ field. attributes_field (view table.now) ≡ Err field) }
{
    match table.get("attributes") {
        None => Ok(None),
        Some(value) if value.is_table() => Ok(Some(value)),
        Some(_) => Err(Field::Attributes),
    }
}

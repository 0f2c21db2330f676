//! A field of a script that isn't as it must be: what it is to be, and what to write.
use crate::explanation::Rest;
use crate::files::meant_stream;
use crate::help_words::field_words;
use crate::quoted::Quoted;
use crate::script_lines::DOCUMENT;
use crate::script_subject::{Subject, keys_of};
use std::alloc::{AllocError, Global};
use toml::Value;
use tox_text::nearest;

/// Adds a key that doesn't belong there, the nearest one that does, and all that do.
pub(crate) fn add_unknown_key(
    text: &mut String,
    alloc: Global,
    subject: &Subject<'_>,
) -> Result<Rest, AllocError> {
    let keys = keys_of(subject.place);
    let key = Quoted(subject.key);
    write!(text, "  no key `{key}` belongs there")?;
    if subject.place == DOCUMENT && subject.key == "toxic" {
        text.push_str("; a toxic belongs to a rule\n  write [[rule.toxic]] below its [[rule]]\n")?;
        return Ok(Rest::Nothing);
    }
    let near = nearest(alloc, subject.key, keys)?;
    if let Some(near) = near {
        write!(text, "; {near}?")?;
    }
    text.push_str("\n  the keys are")?;
    let mut separator = " ";
    for key in keys {
        write!(text, "{separator}{key}")?;
        separator = ", ";
    }
    text.push_str("\n")?;
    if is_attribute(subject) {
        let key = subject.key;
        write!(
            text,
            "  it is an attribute: write attributes = {{ {key} = .. }}\n"
        )?;
    }
    match (near, subject.value()) {
        (Some("rule"), Some(Value::Array(_) | Value::Table(_))) => add_header(text, "rule")?,
        (Some("toxic"), Some(Value::Array(_) | Value::Table(_))) => add_header(text, "toxic")?,
        _ => {}
    }
    Ok(Rest::Nothing)
}

/// Whether a key of a toxic's table is an attribute of its type.
fn is_attribute(subject: &Subject<'_>) -> bool {
    match subject.toxic() {
        Some(toxic) => toxic.has_attribute(subject.key),
        None => false,
    }
}

/// Adds what a field is to be, and what was meant.
pub(crate) fn add_field(
    text: &mut String,
    alloc: Global,
    subject: &Subject<'_>,
) -> Result<Rest, AllocError> {
    let key = subject.key;
    if let Some((first, last)) = backward(subject) {
        write!(text, "  last is {last}, below first, which is {first}\n")?;
        write!(
            text,
            "  write a last from {first} to 1000000, or leave it out\n"
        )?;
        return Ok(Rest::Nothing);
    }
    let Some(words) = field_words(key) else {
        return Ok(Rest::Words);
    };
    if subject.value().is_none() {
        write!(text, "  {key} is missing\n")?;
    }
    write!(text, "  {key}: {words}\n")?;
    if let Some(value) = subject.value() {
        add_meant_value(text, alloc, key, value)?;
    }
    Ok(Rest::Nothing)
}

/// The first and the last connection of a rule whose last is below its first.
fn backward(subject: &Subject<'_>) -> Option<(i64, i64)> {
    if subject.key != "last" {
        return None;
    }
    let first = subject.table.get("first")?.as_integer()?;
    let last = subject.value()?.as_integer()?;
    if 1 <= last && last < first {
        Some((first, last))
    } else {
        None
    }
}

/// Adds what to write in place of a value, where that is sure.
fn add_meant_value(
    text: &mut String,
    alloc: Global,
    key: &str,
    value: &Value,
) -> Result<(), AllocError> {
    match (key, value) {
        ("rule" | "toxic", Value::Table(_)) => add_header(text, key),
        ("first" | "last" | "version" | "lanes", Value::String(number)) => {
            add_whole(text, key, number.trim(), ", without quotes")
        }
        ("first" | "last" | "version" | "lanes", Value::Float(number)) => {
            let number = format!(in alloc; "{number:?}")?;
            let whole = number.strip_suffix(".0").unwrap_or("");
            add_whole(text, key, whole, "")
        }
        ("stream", Value::String(stream)) => match meant_stream(alloc, stream)? {
            Some(stream) => write!(text, "  write stream = \"{stream}\"\n"),
            None => Ok(()),
        },
        ("proxy" | "name", Value::Integer(number)) => {
            write!(text, "  write {key} = \"{number}\", in quotes\n")
        }
        _ => Ok(()),
    }
}

/// Adds a whole number to write, if a text is one.
fn add_whole(text: &mut String, key: &str, number: &str, how: &str) -> Result<(), AllocError> {
    match number.parse::<u64>() {
        Ok(number) => write!(text, "  write {key} = {number}{how}\n"),
        Err(_) => Ok(()),
    }
}

/// Adds the header of an array of tables.
fn add_header(text: &mut String, key: &str) -> Result<(), AllocError> {
    let header = if key == "rule" { "rule" } else { "rule.toxic" };
    write!(
        text,
        "  write [[{header}]], with two brackets, above each {key}\n"
    )
}

/// Adds the number to write.
pub(crate) fn add_meant_number(
    text: &mut String,
    subject: &Subject<'_>,
    meant: Option<u64>,
) -> Result<(), AllocError> {
    let key = subject.key;
    match meant {
        Some(number) => write!(text, "  write {key} = {number}\n"),
        None => Ok(()),
    }
}

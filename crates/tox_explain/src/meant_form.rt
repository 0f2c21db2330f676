//! The short form that a malformed text was meant to be.
use crate::toxic_value::meant_value;
use crate::unknown_name::type_names;
use std::alloc::{AllocError, Global};
use tox_defs::{Toxic, read_short};
use tox_text::nearest;

/// The short form that was meant, such as `latency:latency=1000` for `latency=1s`. None if it isn't sure.
pub(crate) fn meant_form(alloc: Global, text: &str) -> Result<Option<String>, AllocError> {
    let compact = compacted(alloc, text)?;
    let Some((written, pairs)) = type_and_pairs(compact.as_str()) else {
        return Ok(None);
    };
    let type_name = match Toxic::of_name(written) {
        Some(toxic) => toxic.name(),
        None => nearest(alloc, written, &type_names())?.unwrap_or(""),
    };
    let mut form = type_name.to_string(alloc)?;
    let mut is_first = true;
    for pair in pairs.split(',') {
        if pair.is_empty() {
            continue;
        }
        let Some((key, value)) = meant_pair(alloc, type_name, pair)? else {
            return Ok(None);
        };
        add_pair(&mut form, is_first, key, value)?;
        is_first = false;
    }
    if read_short(form.as_str()).is_ok() {
        Ok(Some(form))
    } else {
        Ok(None)
    }
}

/// Adds an attribute behind the type or behind another attribute.
fn add_pair(form: &mut String, is_first: bool, key: &str, value: u64) -> Result<(), AllocError> {
    let separator = if is_first { ":" } else { "," };
    write!(form, "{separator}{key}={value}")
}

/// The text in small letters, without spaces.
fn compacted(alloc: Global, text: &str) -> Result<String, AllocError> {
    let mut compact = String::new(alloc);
    for letter in text.chars() {
        if !letter.is_whitespace() {
            compact.push(letter.to_ascii_lowercase())?;
        }
    }
    Ok(compact)
}

/// The type's name and the attributes. Without a type it is the first that has the first attribute, or `latency` for a time alone.
fn type_and_pairs(text: &str) -> Option<(&str, &str)> {
    if let Some(parts) = text.split_once(':') {
        return Some(parts);
    }
    let Some((key, _)) = text.split_once('=') else {
        let is_time = text.starts_with(|letter: char| letter.is_ascii_digit());
        return Some(if is_time {
            ("latency", text)
        } else {
            (text, "")
        });
    };
    let toxic = Toxic::EACH_TYPE
        .iter()
        .find(|toxic| toxic.has_attribute(key))?;
    Some((toxic.name(), text))
}

/// The attribute and the whole number that a part means. A value alone is that of the type's first attribute.
fn meant_pair<'a>(
    alloc: Global,
    type_name: &str,
    pair: &'a str,
) -> Result<Option<(&'a str, u64)>, AllocError> {
    let Some((key, value)) = pair.split_once('=').or_else(|| first_pair(type_name, pair)) else {
        return Ok(None);
    };
    match meant_value(alloc, type_name, key, value)? {
        Some(number) => Ok(Some((key, number))),
        None => Ok(None),
    }
}

/// A value with the first attribute of a type.
fn first_pair<'a>(type_name: &str, value: &'a str) -> Option<(&'a str, &'a str)> {
    let toxic = Toxic::of_name(type_name)?;
    let attribute = toxic.attributes().first()?;
    Some((attribute.name, value))
}

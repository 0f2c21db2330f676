//! What is wrong in a text that is no short form of a toxic.
use crate::quoted::Quoted;
use crate::unit::{KeyUnit, TOXICITY};
use std::fmt;
use tox_defs::MAX_VALUE_DIGITS;

/// The first thing that is wrong in a text.
#[derive(Clone, Copy)]
pub(crate) enum Mistake<'a> {
    Empty,
    Space,
    CapitalLetter,
    /// Attributes without a type.
    AttributesAlone,
    /// A time without a type.
    TimeAlone,
    /// A chance without a toxic.
    OnlyChance,
    /// Another sign stands where the colon belongs.
    NoColon,
    /// This is no name of a type.
    TypeName(&'a str),
    NothingBehindColon,
    /// A comma with nothing before or behind it.
    StrayComma,
    /// This value has no attribute.
    NoAttribute(&'a str),
    /// This attribute has no value.
    NoValue(&'a str),
    /// This is no name of an attribute.
    AttributeName(&'a str),
    /// Another sign stands where a comma belongs.
    NoComma,
    /// The value of this attribute of a type isn't a whole number.
    NotWhole(&'a str, &'a str),
}

impl<'a> fmt::Display for Mistake<'a> {
    fn fmt<W: fmt::Write>(&self, f: &mut fmt::Formatter<W>) -> fmt::Result {
        match self {
            Mistake::Empty => f.write_str("it is empty"),
            Mistake::Space => f.write_str("a space stands in it"),
            Mistake::CapitalLetter => f.write_str("names have small letters"),
            Mistake::AttributesAlone => f.write_str(
                "a type and a colon are missing before the attributes",
            ),
            Mistake::TimeAlone => f.write_str(
                "a type and an attribute are missing before the value",
            ),
            Mistake::OnlyChance => f.write_str(
                "a chance is the toxicity of a toxic, in whole thousandths: latency:latency=100,toxicity=500",
            ),
            Mistake::NoColon => f.write_str("a colon stands behind the type: type:attribute=value"),
            Mistake::TypeName(name) => write!(
                f,
                "`{}` is no name of a type, which has letters and _ alone",
                Quoted(name)
            ),
            Mistake::NothingBehindColon => f.write_str("nothing stands behind the colon"),
            Mistake::StrayComma => f.write_str(
                "a comma separates two attributes, and one of them is missing",
            ),
            Mistake::NoAttribute(value) => write!(
                f,
                "the attribute of `{}` is missing: attribute=value",
                Quoted(value)
            ),
            Mistake::NoValue(key) => write!(f, "`{key}` has no value: {key}=value"),
            Mistake::AttributeName(key) => write!(
                f,
                "`{}` is no name of an attribute, which has letters and _ alone",
                Quoted(key)
            ),
            Mistake::NoComma => f.write_str("a comma stands between two attributes"),
            Mistake::NotWhole(type_name, key) => display_value(type_name, key, f),
        }
    }
}

/// Tells what a value is to be.
fn display_value<W: fmt::Write>(
    type_name: &str,
    key: &str,
    f: &mut fmt::Formatter<W>,
) -> fmt::Result {
    let unit = match KeyUnit::of(type_name, key) {
        Some(unit) => unit.words(),
        None => "numbers",
    };
    write!(
        f,
        "{key} is in whole {unit}: 1 to {} digits and nothing else",
        MAX_VALUE_DIGITS
    )
}

/// The first thing that is wrong. None if the text is a short form as far as its letters and signs go.
pub(crate) fn mistake_in(text: &str) -> Option<Mistake<'_>> {
    if text.is_empty() {
        return Some(Mistake::Empty);
    }
    if text.contains(char::is_whitespace) {
        return Some(Mistake::Space);
    }
    if text.bytes().any(|byte| byte.is_ascii_uppercase()) {
        return Some(Mistake::CapitalLetter);
    }
    match text.split_once(':') {
        Some((name, _)) if !is_name(name) => Some(Mistake::TypeName(name)),
        Some((_, "")) => Some(Mistake::NothingBehindColon),
        Some((name, pairs)) => mistake_in_pairs(name, pairs),
        None => mistake_without_colon(text),
    }
}

/// What is wrong in a text without a colon, which may be a type.
fn mistake_without_colon(text: &str) -> Option<Mistake<'_>> {
    match text.split_once('=') {
        Some((TOXICITY, _)) => Some(Mistake::OnlyChance),
        Some((key, _)) if is_name(key) => Some(Mistake::AttributesAlone),
        Some(_) => Some(Mistake::NoColon),
        None if is_name(text) => None,
        None if text.ends_with('%') => Some(Mistake::OnlyChance),
        None if text.starts_with(|letter: char| letter.is_ascii_digit()) => Some(
            Mistake::TimeAlone,
        ),
        None => Some(Mistake::TypeName(text)),
    }
}

/// What is wrong in the attributes of a type.
fn mistake_in_pairs<'a>(type_name: &'a str, pairs: &'a str) -> Option<Mistake<'a>> {
    for pair in pairs.split(',') {
        if let Some(mistake) = mistake_in_pair(type_name, pair) {
            return Some(mistake);
        }
    }
    None
}

/// What is wrong in an attribute and its value.
fn mistake_in_pair<'a>(type_name: &'a str, pair: &'a str) -> Option<Mistake<'a>> {
    if pair.is_empty() {
        return Some(Mistake::StrayComma);
    }
    match pair.split_once('=') {
        None if is_name(pair) => Some(Mistake::NoValue(pair)),
        None => Some(Mistake::NoAttribute(pair)),
        Some((key, _)) if !is_name(key) => Some(Mistake::AttributeName(key)),
        Some((key, "")) => Some(Mistake::NoValue(key)),
        Some((_, value)) if is_whole(value) => None,
        Some((_, value)) if value.contains('=') => Some(Mistake::NoComma),
        Some((key, _)) => Some(Mistake::NotWhole(type_name, key)),
    }
}

fn is_name(text: &str) -> bool {
    !text.is_empty()
        && text
            .bytes()
            .all(|byte| byte == b'_' || byte.is_ascii_lowercase())
}

/// Whether a text has only digits, and no more than a value has.
fn is_whole(text: &str) -> bool {
    text.len() <= MAX_VALUE_DIGITS && text.bytes().all(|byte| byte.is_ascii_digit())
}

//! What is wrong in a text that is no JSON.
use crate::explanation::Rest;
use crate::inputs::NamedText;
use crate::quoted::Quoted;
use crate::text_place::add_shown;
use std::alloc::{AllocError, Global};

/// What is wrong in a text that ends too early.
const BREAKS_OFF: &str = "it breaks off: a bracket, a brace or a quote isn't closed";

/// Adds where a text is no JSON, and why.
pub(crate) fn add_not_json(
    text: &mut String,
    alloc: Global,
    config: &NamedText<'_>,
    source: &str,
    error: &serde_json::Error,
) -> Result<Rest, AllocError> {
    let name = Quoted(config.name);
    let number = error.line().max(1);
    let column = error.column().max(1);
    let line = source.lines().nth(number.saturating_sub(1)).unwrap_or("");
    write!(text, "  {name}:{number}:{column}")?;
    add_shown(text, line.trim())?;
    let why = if is_script(alloc, source)? {
        Some(
            "it is a script: --config takes the populate file, which is JSON, and --script the script",
        )
    } else {
        match whole_slip(source) {
            None if error.is_eof() => Some(BREAKS_OFF),
            None => slip_at(source, offset_of(source, number, column)),
            why => why,
        }
    };
    match why {
        Some(why) => {
            write!(text, "  {why}\n")?;
            Ok(Rest::Nothing)
        }
        None => Ok(Rest::Words),
    }
}

/// Whether a text is a script.
fn is_script(alloc: Global, source: &str) -> Result<bool, AllocError> {
    match toml::table_from_str(alloc, source) {
        Ok(table) => {
            let document = toml::Value::Table(table);
            Ok(document.get("rule").is_some() || document.get("version").is_some())
        }
        Err(error) if error.is_memory() => Err(AllocError),
        Err(_) => Ok(false),
    }
}

/// The offset of a column of a line, both from 1.
fn offset_of(source: &str, line: usize, column: usize) -> usize {
    let mut start = 0usize;
    for before in source.split_inclusive('\n').take(line.saturating_sub(1)) {
        start = start.saturating_add(before.len());
    }
    start.saturating_add(column.saturating_sub(1))
}

/// What is wrong with the whole text.
fn whole_slip(source: &str) -> Option<&'static str> {
    if source.starts_with('\u{feff}') {
        Some("a byte order mark, which nobody sees, stands at its start")
    } else if source.trim().is_empty() {
        Some("it is empty; a populate file without proxies is `[]`")
    } else {
        None
    }
}

/// What is wrong at an offset, as far as the signs before it and behind it tell.
fn slip_at(source: &str, offset: usize) -> Option<&'static str> {
    let before = source.get(..offset)?.trim_end();
    let behind = source.get(offset..)?.trim_start();
    let last = before.chars().next_back().unwrap_or(' ');
    let next = behind.chars().next()?;
    match (last, next) {
        (_, '/' | '#') => Some("a comment: JSON has none; take it out"),
        (_, '\'') => Some("a single quote: texts and names stand in double quotes"),
        (',', ']' | '}') => Some("a comma too many: none stands before a closing `]` or `}`"),
        ('[' | '{' | ',', ',') => Some("a comma too many"),
        ('{' | ',', letter) if is_bare(letter) => {
            Some("a name without quotes: write it in double quotes, as \"name\"")
        }
        (':' | '[', letter) if is_bare(letter) => {
            Some("a text without quotes: only numbers, true, false and null have none")
        }
        ('"', '"' | '{' | '[') if ends_in_name(before) => Some("a colon is missing before it"),
        ('"' | '}' | ']', '"' | '{' | '[') => Some("a comma is missing before it"),
        ('"', letter) if is_bare(letter) => Some(
            "a quote is missing before it: what stands in quotes ends there",
        ),
        (digit, '"' | '{' | '[') if digit.is_ascii_alphanumeric() => {
            Some("a comma is missing before it")
        }
        _ => None,
    }
}

/// Whether a text in quotes, with which JSON ends, is the name of a member: it stands behind a brace or a comma.
fn ends_in_name(before: &str) -> bool {
    let inside = before.strip_suffix('"').unwrap_or(before);
    let (outside, _) = inside.rsplit_once('"').unwrap_or(("", inside));
    matches!(outside.trim_end().chars().next_back(), Some('{' | ','))
}

/// Whether a name or a text without quotes may begin with a sign.
fn is_bare(sign: char) -> bool {
    sign.is_ascii_alphabetic() || sign == '_' || sign == '$'
}

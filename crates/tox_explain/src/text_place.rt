//! Places in texts.
use crate::explanation::Rest;
use crate::inputs::NamedText;
use crate::quoted::Quoted;
use std::alloc::AllocError;

/// Adds the line and the column of the byte at an offset, and the line itself. Both count from 1, a column in characters.
pub(crate) fn add_line_at(
    text: &mut String,
    name: &str,
    source: &str,
    offset: usize,
) -> Result<(), AllocError> {
    let before = source.get(..offset).unwrap_or(source);
    let start = match before.rfind('\n') {
        Some(feed) => feed.saturating_add(1),
        None => 0,
    };
    let number = before.matches('\n').count().saturating_add(1);
    let column = before
        .get(start..)
        .unwrap_or("")
        .chars()
        .count()
        .saturating_add(1);
    let line = source
        .get(start..)
        .unwrap_or("")
        .lines()
        .next()
        .unwrap_or("");
    let name = Quoted(name);
    write!(text, "  {name}:{number}:{column}")?;
    add_shown(text, line.trim())
}

/// Adds a line, with the name of its text and its number from 1.
pub(crate) fn add_line(
    text: &mut String,
    name: &str,
    number: usize,
    line: &str,
) -> Result<(), AllocError> {
    let name = Quoted(name);
    write!(text, "  {name}:{number}")?;
    add_shown(text, line)
}

/// Adds a line behind its place. An empty one isn't shown.
pub(crate) fn add_shown(text: &mut String, line: &str) -> Result<(), AllocError> {
    if line.is_empty() {
        return text.push_str("\n");
    }
    let shown = Quoted(line);
    write!(text, ": {shown}\n")
}

/// Adds the line of a text on which its bytes are no UTF-8.
pub(crate) fn add_not_utf8(text: &mut String, given: &NamedText<'_>) -> Result<Rest, AllocError> {
    let number = lines_before_fault(given.bytes).saturating_add(1);
    let name = Quoted(given.name);
    write!(text, "  {name}:{number}: its bytes aren't UTF-8\n")?;
    Ok(Rest::Words)
}

/// How many line feeds stand before the first byte that is no UTF-8.
fn lines_before_fault(bytes: &[u8]) -> usize {
    let valid = match str::from_utf8(bytes) {
        Ok(_) => bytes.len(),
        Err(error) => error.valid_up_to(),
    };
    bytes
        .get(..valid)
        .unwrap_or(&[])
        .iter()
        .filter(|byte| **byte == b'\n')
        .count()
}

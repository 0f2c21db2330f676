//! The earlier toxic of a rule that has a toxic's name.
use crate::inputs::NamedText;
use crate::quoted::Quoted;
use crate::script_lines::line_of;
use crate::script_subject::{Subject, table_at};
use std::alloc::{AllocError, Global};
use toml::Value;
use tox_script::Location;
use tox_time::Stream;

/// Adds the earlier toxic, its line and the name.
pub(crate) fn add_earlier_name(
    text: &mut String,
    alloc: Global,
    script: &NamedText<'_>,
    document: &Value,
    subject: &Subject<'_>,
) -> Result<(), AllocError> {
    let name = name_of(alloc, subject.table)?;
    let Some(place) = earlier(alloc, document, subject.place, name.as_str())? else {
        return Ok(());
    };
    let number = place.toxic;
    write!(text, "  toxic {number} of the rule")?;
    let source = str::from_utf8(script.bytes).unwrap_or("");
    if let Some(line) = line_of(source, document, place, &["name"]) {
        let line = line.number;
        write!(text, ", on line {line},")?;
    }
    let shown = Quoted(name.as_str());
    write!(text, " has the name `{shown}` too\n")
}

/// The first toxic of the rule that has this name and stands before the place.
fn earlier(
    alloc: Global,
    document: &Value,
    place: Location,
    name: &str,
) -> Result<Option<Location>, AllocError> {
    for toxic in 1..place.toxic {
        let other = Location {
            rule: place.rule,
            toxic,
        };
        if let Some(table) = table_at(document, other) {
            if name_of(alloc, table)?.as_str() == name {
                return Ok(Some(other));
            }
        }
    }
    Ok(None)
}

/// The name of a toxic: its own, or that of its type and stream.
fn name_of(alloc: Global, table: &Value) -> Result<String, AllocError> {
    if let Some(name) = text_at(table, "name") {
        return name.to_string(alloc);
    }
    let type_name = text_at(table, "type").unwrap_or("");
    let stream = text_at(table, "stream").unwrap_or(Stream::Downstream.name());
    format!(in alloc; "{type_name}_{stream}")
}

fn text_at<'a>(table: &'a Value, key: &str) -> Option<&'a str> {
    table.get(key)?.as_str()
}

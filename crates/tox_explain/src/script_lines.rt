//! The line of a script on which a field stands.
//!
//! The lines are looked through beside the reader of TOML, whose values don't have places. A table is found by the number of its
//! header, so what is written otherwise, as an inline table, isn't found, and then no line is reported.
use toml::Value;
use tox_script::Location;

/// A line with its number from 1.
#[derive(Clone, Copy)]
pub(crate) struct ScriptLine<'a> {
    pub(crate) number: usize,
    pub(crate) text: &'a str,
}

/// The place of the document.
pub(crate) const DOCUMENT: Location = Location { rule: 0, toxic: 0 };

/// The table in which the lines behind a line stand, which stands in this one.
fn place_behind(place: Location, line: &str) -> Location {
    match header_of(line) {
        Some("rule") => Location {
            rule: place.rule.saturating_add(1),
            toxic: 0,
        },
        Some("rule.toxic") => Location {
            rule: place.rule,
            toxic: place.toxic.saturating_add(1),
        },
        _ => place,
    }
}

/// The line of a table on which one of these fields is set, or that is the header of the first, or else the line of the table's own
/// header. None if it isn't sure.
pub(crate) fn line_of<'a>(
    text: &'a str,
    document: &Value,
    place: Location,
    fields: &[&str],
) -> Option<ScriptLine<'a>> {
    if !has_each_header(text, document, place.rule) {
        return None;
    }
    let key = fields.first().copied().unwrap_or("");
    let mut header = None;
    let mut now = DOCUMENT;
    for (before, line) in text.lines().enumerate() {
        let line = ScriptLine {
            number: before.saturating_add(1),
            text: line.trim(),
        };
        let next = place_behind(now, line.text);
        if next != now && next == place {
            header = Some(line);
        }
        now = next;
        let is_set = now == place && fields.iter().any(|field| sets(line.text, field));
        if is_set || heads(line.text, now, place, key) {
            return Some(line);
        }
    }
    header
}

/// Whether the text has as many headers of rules, and of this rule's toxics, as the document has tables.
fn has_each_header(text: &str, document: &Value, rule: usize) -> bool {
    let mut last = DOCUMENT;
    let mut toxics = 0;
    for line in text.lines() {
        last = place_behind(last, line.trim());
        if last.rule == rule {
            toxics = last.toxic;
        }
    }
    let rules = document.get("rule").and_then(Value::as_array);
    let table = rules.and_then(|rules| rules.get(rule.checked_sub(1)?));
    last.rule == count_of(rules.map(|rules| rules.as_slice()))
        && toxics
            == count_of(
                table
                    .and_then(|table| table.get("toxic"))
                    .and_then(Value::as_array)
                    .map(|toxics| toxics.as_slice()),
            )
}

fn count_of(tables: Option<&[Value]>) -> usize {
    match tables {
        Some(tables) => tables.len(),
        None => 0,
    }
}

/// The name of an array of tables whose header this line is.
fn header_of(line: &str) -> Option<&str> {
    let (name, _) = line.strip_prefix("[[")?.split_once("]]")?;
    Some(name.trim())
}

/// Whether a line is the header of a field of the table at a place. Behind the line stands the table `now`.
fn heads(line: &str, now: Location, place: Location, field: &str) -> bool {
    let name = match header_of(line) {
        Some("rule" | "rule.toxic") | None => line
            .strip_prefix('[')
            .and_then(|name| name.strip_suffix(']')),
        name => name,
    };
    let Some(name) = name else {
        return false;
    };
    let (table, key) = match name.rsplit_once('.') {
        Some((table, key)) => (table, key),
        None => ("", name),
    };
    let is_there = match table {
        "" => place == DOCUMENT,
        "rule" => place.toxic == 0 && place.rule == now.rule,
        "rule.toxic" => place == now,
        _ => false,
    };
    is_there && key == field
}

/// Whether a line sets a field.
fn sets(line: &str, field: &str) -> bool {
    let line = line.strip_prefix('"').unwrap_or(line);
    match line.strip_prefix(field) {
        Some(behind) => {
            let behind = behind.strip_prefix('"').unwrap_or(behind);
            behind.trim_start().starts_with('=')
        }
        None => false,
    }
}

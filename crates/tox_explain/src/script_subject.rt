//! What a fault of a script is about: a table and one of its keys.
use crate::script_lines::DOCUMENT;
use crate::toxic_attributes::bad_attribute;
use crate::unit::TOXICITY;
use crate::unknown_name::UnknownName;
use std::alloc::{AllocError, Global};
use toml::Value;
use tox_defs::{Toxic, ToxicFault};
use tox_script::{Field, Location, ScriptFault};
use tox_text::nearest;

/// The keys of a document, of a rule and of a toxic.
const DOCUMENT_KEYS: [&str; 3] = ["version", "lanes", "rule"];

const RULE_KEYS: [&str; 4] = ["proxy", "first", "last", "toxic"];

const TOXIC_KEYS: [&str; 5] = ["name", "type", "stream", "toxicity", "attributes"];

/// A table of a script, and the key that is faulty: its own, or an attribute's.
#[derive(Clone, Copy)]
pub(crate) struct Subject<'a> {
    pub(crate) place: Location,
    pub(crate) table: &'a Value,
    pub(crate) key: &'a str,
}

impl<'a> Subject<'a> {
    /// What a fault is about.
    pub(crate) fn of(
        alloc: Global,
        fault: &ScriptFault,
        document: &'a Value,
    ) -> Result<Option<Subject<'a>>, AllocError> {
        let Some(place) = place_of(fault) else {
            return Ok(None);
        };
        let Some(table) = table_at(document, place) else {
            return Ok(None);
        };
        let key = match fault {
            ScriptFault::Field(_, field) => field_key(alloc, *field, place, table)?,
            ScriptFault::Toxic(_, fault) => toxic_key(fault, table),
            ScriptFault::DoubleName(_) => Some("name"),
            ScriptFault::AlreadyVersion2 => Some("version"),
            _ => Some("type"),
        };
        match key {
            Some(key) => Ok(Some(Subject { place, table, key })),
            None => Ok(None),
        }
    }

    /// The value of the key.
    pub(crate) fn value(&self) -> Option<&'a Value> {
        match self.table.get(self.key) {
            Some(value) => Some(value),
            None => self.table.get("attributes")?.get(self.key),
        }
    }

    /// The toxic's type.
    pub(crate) fn toxic(&self) -> Option<Toxic> {
        Toxic::of_name(self.table.get("type")?.as_str()?)
    }

    /// Whether the key is one that such a table may have.
    pub(crate) fn is_known(&self) -> bool {
        keys_of(self.place).contains(&self.key)
    }
}

/// The place of a fault.
fn place_of(fault: &ScriptFault) -> Option<Location> {
    match fault {
        ScriptFault::Field(place, _) => Some(*place),
        ScriptFault::Toxic(place, _) => Some(*place),
        ScriptFault::DoubleName(place) => Some(*place),
        ScriptFault::TooManyToxics(place) => Some(*place),
        ScriptFault::AlreadyVersion2 => Some(DOCUMENT),
        ScriptFault::NotToml | ScriptFault::OutOfMemory => None,
    }
}

/// The keys that the table at a place may have.
pub(crate) fn keys_of(place: Location) -> &'static [&'static str] {
    if place.rule == 0 {
        &DOCUMENT_KEYS
    } else if place.toxic == 0 {
        &RULE_KEYS
    } else {
        &TOXIC_KEYS
    }
}

/// The key of a toxic's table or of its attributes that a fault is about.
fn toxic_key<'a>(fault: &ToxicFault, table: &'a Value) -> Option<&'a str> {
    match fault {
        ToxicFault::UnknownType => Some("type"),
        ToxicFault::UnknownAttribute => Some(UnknownName::in_table(table)?.name()),
        ToxicFault::OutOfRange => Some(bad_attribute(table)?.name),
        ToxicFault::Variation => Some("size_variation"),
        ToxicFault::ToxicityNotThousandths => Some(TOXICITY),
    }
}

/// The key that a field stands for. In version 1 a document has no lanes, so they are unknown too. In place of a field that is
/// missing it is an unknown key for which it is the nearest one.
fn field_key<'a>(
    alloc: Global,
    field: Field,
    place: Location,
    table: &'a Value,
) -> Result<Option<&'a str>, AllocError> {
    let keys = keys_of(place);
    let unknown = unknown_key(table, keys);
    let Some(name) = name_of(field) else {
        return Ok(Some(unknown.unwrap_or("lanes")));
    };
    match unknown {
        Some(unknown) if table.get(name).is_none() => {
            let is_meant = nearest(alloc, unknown, keys)? == Some(name);
            Ok(Some(if is_meant { unknown } else { name }))
        }
        _ => Ok(Some(name)),
    }
}

/// The key of a field. None for one that isn't known.
fn name_of(field: Field) -> Option<&'static str> {
    match field {
        Field::Version => Some("version"),
        Field::Lanes => Some("lanes"),
        Field::Rule => Some("rule"),
        Field::Proxy => Some("proxy"),
        Field::First => Some("first"),
        Field::Last => Some("last"),
        Field::Toxic => Some("toxic"),
        Field::Name => Some("name"),
        Field::Type => Some("type"),
        Field::Stream => Some("stream"),
        Field::Attributes => Some("attributes"),
        Field::Unknown => None,
    }
}

/// The table at a place.
pub(crate) fn table_at(document: &Value, place: Location) -> Option<&Value> {
    let Some(rule) = place.rule.checked_sub(1) else {
        return Some(document);
    };
    let rule = document.get("rule")?.as_array()?.get(rule)?;
    match place.toxic.checked_sub(1) {
        Some(toxic) => rule.get("toxic")?.as_array()?.get(toxic),
        None => Some(rule),
    }
}

/// The first key of a table that isn't among the known.
fn unknown_key<'a>(table: &'a Value, known: &[&str]) -> Option<&'a str> {
    for key in table.as_table()?.keys() {
        if !known.iter().any(|other| *other == key.as_str()) {
            return Some(key.as_str());
        }
    }
    None
}

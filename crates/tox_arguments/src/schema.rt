//! JSON Schemas of the two files, by which editors check them. That of a script speaks of its tables as JSON has them.
use std::fmt;
use tox_defs::{Attribute, MAX_TOXICITY, Toxic};
use tox_words::MAX_CONNECTIONS;

/// A file that has a schema.
#[derive(Clone, Copy, Debug, PartialEq, Eq)]
pub enum Schema {
    Populate,
    Script,
}

/// The proxies of a populate file. Other members pass, as the reader lets them.
const POPULATE: &str = r##"{
  "$schema": "https://json-schema.org/draft/2020-12/schema",
  "title": "The proxies of Toxi",
  "type": "array",
  "items": {
    "type": "object",
    "required": ["name", "upstream"],
    "properties": {
      "name": {"description": "The proxy's name", "type": "string", "minLength": 1, "maxLength": 255},
      "listen": {"description": "Where it listens, as host:port", "type": ["string", "null"], "pattern": "^$|:[0-9]{1,5}$", "maxLength": 255},
      "upstream": {"description": "What it connects to, as host:port", "type": "string", "pattern": ":[0-9]{1,5}$", "maxLength": 255},
      "enabled": {"description": "Whether it listens", "type": ["boolean", "null"]}
    }
  }
}"##;

/// A script, up to the most connections.
const SCRIPT: &str = r##"{
  "$schema": "https://json-schema.org/draft/2020-12/schema",
  "title": "A script of Toxi",
  "type": "object",
  "additionalProperties": false,
  "properties": {
    "version": {"description": "1 if absent", "enum": [1, 2]},
    "lanes": {"description": "The lanes of each chain, in version 2 alone", "enum": [16, 32]},
    "rule": {"type": "array", "items": {"$ref": "#/$defs/rule"}}
  },
  "if": {"required": ["version"], "properties": {"version": {"const": 2}}},
  "else": {"properties": {"lanes": false}},
  "$defs": {
    "rule": {
      "type": "object",
      "required": ["proxy", "first"],
      "additionalProperties": false,
      "properties": {
        "proxy": {"description": "The proxy's name", "type": "string", "minLength": 1, "maxLength": 255},
        "first": {"description": "Its first connection", "$ref": "#/$defs/connection"},
        "last": {"description": "Its last connection", "$ref": "#/$defs/connection"},
        "toxic": {"type": "array", "items": {"$ref": "#/$defs/toxic"}}
      }
    },
    "connection": {"type": "integer", "minimum": 1, "maximum": "##;

/// Behind the most connections, up to the types.
const TOXIC: &str = r##"},
    "toxic": {
      "type": "object",
      "required": ["type"],
      "additionalProperties": false,
      "properties": {
        "name": {"description": "<type>_<stream> if absent", "type": "string", "minLength": 1, "maxLength": 64, "pattern": "^[^\\x00-\\x1f\\x7f]*$"},
        "stream": {"description": "downstream if absent", "enum": ["upstream", "downstream"]},
        "toxicity": {
          "description": "The chance that a link meets it, in thousandths, or in version 2 a text such as 0.25",
          "anyOf": [
            {"type": "string", "pattern": "^(0(\\.[0-9]{1,3})?|1(\\.0{1,3})?)$"},
            {"type": "integer", "minimum": 0, "maximum": "##;

/// Behind the most thousandths.
const TYPES: &str = r##"}
          ]
        },
        "attributes": {"type": "object"},
        "type": {"enum": ["##;

/// Behind the types.
const ATTRIBUTES: &str = r##"]}
      },
      "allOf": ["##;

const END: &str = r##"
      ]
    }
  }
}"##;

impl Schema {
    /// The names of the files, which `of_name` knows.
    pub(crate) const NAMES: &'static [&'static str] = &["populate", "script"];

    pub(crate) fn of_name(name: &str) -> Option<Schema> {
        match name {
            "populate" => Some(Schema::Populate),
            "script" => Some(Schema::Script),
            _ => None,
        }
    }
}

impl fmt::Display for Schema {
    fn fmt<W: fmt::Write>(&self, f: &mut fmt::Formatter<W>) -> fmt::Result {
        match self {
            Schema::Populate => f.write_str(POPULATE),
            Schema::Script => display_script(f),
        }
    }
}

fn display_script<W: fmt::Write>(f: &mut fmt::Formatter<W>) -> fmt::Result {
    write!(
        f,
        "{}{}{}{}{}",
        SCRIPT, MAX_CONNECTIONS, TOXIC, MAX_TOXICITY, TYPES
    )?;
    let mut mark = "";
    for toxic in &Toxic::EACH_TYPE {
        write!(f, "{mark}\"{}\"", toxic.name())?;
        mark = ", ";
    }
    f.write_str(ATTRIBUTES)?;
    display_types(f)?;
    f.write_str(END)
}

/// What each type says of its attributes.
fn display_types<W: fmt::Write>(f: &mut fmt::Formatter<W>) -> fmt::Result {
    let mut mark = "";
    for toxic in &Toxic::EACH_TYPE {
        f.write_str(mark)?;
        display_type(toxic, f)?;
        mark = ",";
    }
    Ok(())
}

fn display_type<W: fmt::Write>(toxic: &Toxic, f: &mut fmt::Formatter<W>) -> fmt::Result {
    let name = toxic.name();
    f.write_str("\n        {\"if\": {\"properties\": {\"type\": {\"const\": \"")?;
    write!(f, "{name}\"")?;
    f.write_str("}}}, \"then\": {")?;
    display_needed(toxic, f)?;
    f.write_str("\"additionalProperties\": false, \"properties\": {")?;
    let mut mark = "";
    for attribute in toxic.attributes() {
        f.write_str(mark)?;
        display_attribute(attribute, f)?;
        mark = ",";
    }
    f.write_str("}}}}}")
}

/// Up to what is said of the attributes: they have to be there where one of them has no default.
fn display_needed<W: fmt::Write>(toxic: &Toxic, f: &mut fmt::Formatter<W>) -> fmt::Result {
    let needed = toxic
        .attributes()
        .iter()
        .find(|attribute| attribute.default().is_none());
    let Some(attribute) = needed else {
        return f.write_str("\"properties\": {\"attributes\": {");
    };
    let name = attribute.name;
    f.write_str("\"required\": [\"attributes\"], \"properties\": {\"attributes\": {")?;
    write!(f, "\"required\": [\"{name}\"], ")
}

fn display_attribute<W: fmt::Write>(
    attribute: &Attribute,
    f: &mut fmt::Formatter<W>,
) -> fmt::Result {
    let (name, words) = (attribute.name, attribute.words);
    let (least, most) = (attribute.limits.least, attribute.limits.most);
    let unit = attribute.unit.words();
    write!(f, "\n          \"{name}\": ")?;
    f.write_str("{\"description\": \"")?;
    write!(
        f,
        "{words}; in {unit}\", \"type\": \"integer\", \"minimum\": {least}, \"maximum\": {most}"
    )?;
    f.write_str("}")
}

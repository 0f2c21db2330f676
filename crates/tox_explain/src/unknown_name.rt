//! A type or an attribute that there isn't, and the nearest name.
use crate::explanation::Rest;
use crate::failure::Failure;
use crate::inputs::Inputs;
use crate::quoted::Quoted;
use crate::script::document_of;
use crate::script_subject::table_at;
use crate::short_form::form_of;
use crate::toxic_attributes::attribute_names;
use crate::unit::TOXICITY;
use std::alloc::{AllocError, Global};
use toml::Value;
use tox_defs::{ShortFault, Toxic, ToxicFault};
use tox_proxy::ToxicsFault;
use tox_script::ScriptFault;
use tox_text::nearest;

/// A name that is given for a type, or for an attribute of a toxic.
#[derive(Clone, Copy)]
pub(crate) enum UnknownName<'a> {
    Type(&'a str),
    Attribute(Toxic, &'a str),
}

impl<'a> UnknownName<'a> {
    /// The unknown name of a short form.
    pub(crate) fn in_form(form: &'a str) -> Option<UnknownName<'a>> {
        let (name, pairs) = form.split_once(':').unwrap_or((form, ""));
        let Some(toxic) = Toxic::of_name(name) else {
            return Some(UnknownName::Type(name));
        };
        for pair in pairs.split(',') {
            let (key, _) = pair.split_once('=').unwrap_or((pair, ""));
            if key != TOXICITY && !toxic.has_attribute(key) {
                return Some(UnknownName::Attribute(toxic, key));
            }
        }
        None
    }

    /// The unknown name of a toxic's table of a script.
    pub(crate) fn in_table(table: &'a Value) -> Option<UnknownName<'a>> {
        let name = table.get("type")?.as_str()?;
        let Some(toxic) = Toxic::of_name(name) else {
            return Some(UnknownName::Type(name));
        };
        for key in table.get("attributes")?.as_table()?.keys() {
            if !toxic.has_attribute(key.as_str()) {
                return Some(UnknownName::Attribute(toxic, key.as_str()));
            }
        }
        None
    }

    pub(crate) fn name(&self) -> &'a str {
        match self {
            UnknownName::Type(name) => name,
            UnknownName::Attribute(_, name) => name,
        }
    }

    /// The nearest name that there is.
    pub(crate) fn nearest(&self, alloc: Global) -> Result<Option<&'static str>, AllocError> {
        match self {
            UnknownName::Type(name) => nearest(alloc, name, &type_names()),
            UnknownName::Attribute(toxic, name) => nearest(alloc, name, &attribute_names(toxic)),
        }
    }

    /// Adds the nearest name, and those that there are.
    pub(crate) fn add(&self, text: &mut String, alloc: Global) -> Result<Rest, AllocError> {
        let name = Quoted(self.name());
        match self {
            UnknownName::Type(_) => write!(text, "  no toxic has the type `{name}`")?,
            UnknownName::Attribute(toxic, _) => {
                let type_name = toxic.name();
                write!(text, "  {type_name} has no attribute `{name}`")?;
            }
        }
        if let Some(near) = self.nearest(alloc)? {
            write!(text, "; {near}?")?;
        }
        text.push_str("\n")?;
        match self {
            UnknownName::Type(_) => add_names(text, "the types are", &type_names())?,
            UnknownName::Attribute(toxic, _) => {
                add_names(text, "it has", &attribute_names(toxic))?;
            }
        }
        Ok(Rest::Nothing)
    }
}

/// The names of all types.
pub(crate) fn type_names() -> [&'static str; 7] {
    Toxic::EACH_TYPE.map(|toxic| toxic.name())
}

/// Adds a line with names.
fn add_names(text: &mut String, words: &str, names: &[&str]) -> Result<(), AllocError> {
    write!(text, "  {words}")?;
    let mut separator = " ";
    for name in names {
        write!(text, "{separator}{name}")?;
        separator = ", ";
    }
    text.push_str("\n")
}

/// A name that there isn't, and the nearest one that there is.
#[derive(Drop)]
pub struct NearName {
    pub name: String,
    pub nearest: &'static str,
}

/// The unknown type or attribute that a failure is about, and the nearest known one. None if none is near, or of another failure.
pub fn near_name(
    alloc: Global,
    failure: &Failure<'_>,
    inputs: &Inputs<'_>,
) -> Result<Option<NearName>, AllocError> {
    match failure {
        Failure::Toxics(fault) => match fault {
            ToxicsFault::Short(ShortFault::Toxic(why), _) if is_of_name(why) => nearest_of(
                alloc,
                form_of(fault, inputs).and_then(UnknownName::in_form),
            ),
            _ => Ok(None),
        },
        Failure::Script(ScriptFault::Toxic(place, fault)) if is_of_name(fault) => {
            match document_of(alloc, inputs)? {
                Some(document) => nearest_of(
                    alloc,
                    table_at(&document, *place).and_then(UnknownName::in_table),
                ),
                None => Ok(None),
            }
        }
        _ => Ok(None),
    }
}

/// Whether a toxic is refused for a name that there isn't.
fn is_of_name(fault: &ToxicFault) -> bool {
    matches!(
        fault,
        ToxicFault::UnknownType | ToxicFault::UnknownAttribute
    )
}

fn nearest_of(
    alloc: Global,
    unknown: Option<UnknownName<'_>>,
) -> Result<Option<NearName>, AllocError> {
    let Some(unknown) = unknown else {
        return Ok(None);
    };
    match unknown.nearest(alloc)? {
        Some(nearest) => Ok(Some(NearName {
            name: unknown.name().to_string(alloc)?,
            nearest,
        })),
        None => Ok(None),
    }
}

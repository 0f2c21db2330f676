//! An attribute whose value is out of its range.
use arrayvec::ArrayVec;
use std::alloc::AllocError;
use toml::Value;
use tox_defs::{ABSENT_VALUE, Attribute, MAX_ATTRIBUTES, Toxic};

/// Adds what the values of an attribute may be.
pub(crate) fn add_range(text: &mut String, attribute: &Attribute) -> Result<(), AllocError> {
    let (key, limits) = (attribute.name, attribute.limits);
    let unit = attribute.unit.words();
    write!(
        text,
        "  {key} is in whole {unit}, {} to {}",
        limits.least, limits.most
    )?;
    if attribute.default().is_none() {
        text.push_str("; it has no default")?;
    }
    text.push_str("\n")
}

/// The names of a toxic's attributes.
pub(crate) fn attribute_names(toxic: &Toxic) -> ArrayVec<&'static str, MAX_ATTRIBUTES> {
    let mut names = ArrayVec::new();
    for attribute in toxic.attributes() {
        let _ = names.try_push(attribute.name);
    }
    names
}

/// The attribute of a name.
pub(crate) fn attribute_of(toxic: &Toxic, name: &str) -> Option<Attribute> {
    toxic
        .attributes()
        .iter()
        .copied()
        .find(|attribute| attribute.name == name)
}

/// The first attribute of a toxic's table that isn't a whole number in its range. One that has no default may be absent.
pub(crate) fn bad_attribute(table: &Value) -> Option<Attribute> {
    let toxic = Toxic::of_name(table.get("type")?.as_str()?)?;
    let attributes = table.get("attributes");
    toxic.attributes().iter().copied().find(|attribute| {
        let value = attributes.and_then(|attributes| attributes.get(attribute.name));
        !is_good(attribute, value)
    })
}

/// Whether a value is a whole number in the attribute's range.
fn is_good(attribute: &Attribute, value: Option<&Value>) -> bool {
    match value {
        Some(Value::Integer(number)) => match u64::try_from(*number) {
            Ok(number) => attribute.limits.has(number),
            Err(_) => false,
        },
        Some(_) => false,
        None => attribute.limits.has(ABSENT_VALUE),
    }
}

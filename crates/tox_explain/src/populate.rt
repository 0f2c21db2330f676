//! Faults of a populate file, or of the addresses of a command line in place of one.
use crate::address::add_address_trouble;
use crate::explanation::Rest;
use crate::inputs::{Inputs, NamedText};
use crate::json_slip::add_not_json;
use crate::quoted::Quoted;
use crate::text_place::add_not_utf8;
use serde_json::Value;
use std::alloc::{AllocError, Global};
use tox_config::ConfigFault;

/// Adds the file and the place in it, and what is there.
pub(crate) fn explain_populate(
    text: &mut String,
    alloc: Global,
    fault: &ConfigFault,
    inputs: &Inputs<'_>,
) -> Result<Rest, AllocError> {
    let Some(config) = inputs.config else {
        return add_option(text, fault, inputs);
    };
    let Ok(source) = str::from_utf8(config.bytes) else {
        return add_not_utf8(text, &config);
    };
    match Value::from_str(alloc, source) {
        Ok(value) => add_value(text, fault, &config, &value),
        Err(error) => add_not_json(text, alloc, &config, source, &error),
    }
}

/// Adds the address of the command line that is refused, and what is wrong in it.
fn add_option(
    text: &mut String,
    fault: &ConfigFault,
    inputs: &Inputs<'_>,
) -> Result<Rest, AllocError> {
    let (option, given, more) = match fault {
        ConfigFault::Listen(_) => (
            "--listen",
            inputs.listen,
            ", 0 for one of the system's choice",
        ),
        ConfigFault::Upstream(_) => ("--upstream", inputs.upstream, ""),
        _ => return Ok(Rest::Words),
    };
    let Some(address) = given else {
        return Ok(Rest::Words);
    };
    let shown = Quoted(address);
    write!(text, "  {option} {shown}\n")?;
    add_address_trouble(text, address)?;
    write!(
        text,
        "  {option} takes `host:port`, with a port up to 65535{more}\n"
    )?;
    Ok(Rest::Nothing)
}

/// Adds the value that a fault is about.
fn add_value(
    text: &mut String,
    fault: &ConfigFault,
    config: &NamedText<'_>,
    value: &Value,
) -> Result<Rest, AllocError> {
    let name = Quoted(config.name);
    write!(text, "  {name}")?;
    match fault {
        ConfigFault::NotObject(place) => add_proxy(text, value, *place, None)?,
        ConfigFault::Name(place) => add_proxy(text, value, *place, Some("name"))?,
        ConfigFault::TooMany(place) => add_proxy(text, value, *place, Some("name"))?,
        ConfigFault::Listen(place) => add_proxy(text, value, *place, Some("listen"))?,
        ConfigFault::Upstream(place) => add_proxy(text, value, *place, Some("upstream"))?,
        ConfigFault::Enabled(place) => add_proxy(text, value, *place, Some("enabled"))?,
        ConfigFault::NotArray => return add_not_array(text, value),
        ConfigFault::NotJson | ConfigFault::OutOfMemory => text.push_str("\n")?,
    }
    Ok(Rest::Words)
}

/// Adds what stands in place of the array.
fn add_not_array(text: &mut String, value: &Value) -> Result<Rest, AllocError> {
    if is_of_toxiproxy(value) {
        text.push_str(
            ": it is an object of proxies, as Toxiproxy's `GET /proxies` prints it\n  `examples/from-toxiproxy FILE CONFIG SCRIPT` makes a populate file and a script of it (docs/FROM-TOXIPROXY.md)\n",
        )?;
        return Ok(Rest::Nothing);
    }
    let kind = kind_of(value);
    write!(text, ": it is {kind}\n")?;
    if value.get("upstream").is_some() {
        return Ok(Rest::Words);
    }
    text.push_str(
        "  a populate file is an array of proxies: [{\"name\": \"shop\", \"upstream\": \"localhost:8080\"}]\n",
    )?;
    Ok(Rest::Nothing)
}

/// Whether each member of an object is a proxy, as Toxiproxy prints them.
fn is_of_toxiproxy(value: &Value) -> bool {
    let Some(members) = value.as_object() else {
        return false;
    };
    !members.is_empty()
        && members
            .values()
            .all(|proxy| proxy.get("upstream").is_some())
}

/// Adds the proxy at a place, and the member of it that is refused.
fn add_proxy(
    text: &mut String,
    value: &Value,
    place: usize,
    member: Option<&str>,
) -> Result<(), AllocError> {
    write!(text, ", place {place}")?;
    let Some(proxy) = value.get(place) else {
        return text.push_str("\n");
    };
    if let Some(name) = proxy.get("name").and_then(Value::as_str) {
        let name = Quoted(name);
        write!(text, ", `{name}`")?;
    }
    let Some(member) = member else {
        let kind = kind_of(proxy);
        return write!(text, ": it is {kind}\n");
    };
    match proxy.get(member) {
        Some(value) => {
            write!(text, ": {member} is {value}\n")?;
            add_member_trouble(text, member, value)
        }
        None => write!(text, ": {member} is missing\n"),
    }
}

/// Adds what is wrong in an address.
fn add_member_trouble(text: &mut String, member: &str, value: &Value) -> Result<(), AllocError> {
    match (member, value.as_str()) {
        ("listen" | "upstream", Some(address)) => add_address_trouble(text, address),
        _ => Ok(()),
    }
}

/// What a value is.
fn kind_of(value: &Value) -> &'static str {
    match value {
        Value::Null => "null",
        Value::Bool(_) => "true or false",
        Value::Number(_) => "a number",
        Value::String(_) => "a text",
        Value::Array(_) => "an array",
        Value::Object(_) => "an object",
    }
}

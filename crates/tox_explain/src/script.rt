//! Faults of a script file.
use crate::double_name::add_earlier_name;
use crate::explanation::Rest;
use crate::inputs::{Inputs, NamedText};
use crate::script_field::{add_field, add_meant_number, add_unknown_key};
use crate::script_lines::line_of;
use crate::script_subject::Subject;
use crate::text_place::{add_line, add_line_at, add_not_utf8};
use crate::toxic_attributes::{add_range, attribute_of};
use crate::toxic_value::meant_value;
use crate::unknown_name::UnknownName;
use std::alloc::{AllocError, Global};
use toml::Value;
use tox_defs::{MAX_TOXICITY, ToxicFault};
use tox_script::ScriptFault;

/// Adds the file and the line, and what is wrong there.
pub(crate) fn explain_script(
    text: &mut String,
    alloc: Global,
    fault: &ScriptFault,
    inputs: &Inputs<'_>,
) -> Result<Rest, AllocError> {
    let Some(script) = inputs.script else {
        return Ok(Rest::Words);
    };
    let Ok(source) = str::from_utf8(script.bytes) else {
        return add_not_utf8(text, &script);
    };
    let document = match toml::table_from_str(alloc, source) {
        Ok(table) => Value::Table(table),
        Err(error) => return add_not_toml(text, alloc, &script, source, &error),
    };
    let Some(subject) = Subject::of(alloc, fault, &document)? else {
        return Ok(Rest::Words);
    };
    let found = line_of(
        source,
        &document,
        subject.place,
        &fields_of(fault, subject.key),
    );
    if let Some(line) = found {
        add_line(text, script.name, line.number, line.text)?;
    }
    match fault {
        ScriptFault::Field(_, _) if !subject.is_known() => add_unknown_key(text, alloc, &subject),
        ScriptFault::Field(_, _) => add_field(text, alloc, &subject),
        ScriptFault::Toxic(_, fault) => add_toxic_fault(text, alloc, fault, &subject),
        ScriptFault::DoubleName(_) => {
            add_earlier_name(text, alloc, &script, &document, &subject)?;
            Ok(Rest::Words)
        }
        _ => Ok(Rest::Words),
    }
}

/// The document of the script file, if it is one.
pub(crate) fn document_of(alloc: Global, inputs: &Inputs<'_>) -> Result<Option<Value>, AllocError> {
    let Some(script) = inputs.script else {
        return Ok(None);
    };
    let Ok(source) = str::from_utf8(script.bytes) else {
        return Ok(None);
    };
    match toml::table_from_str(alloc, source) {
        Ok(table) => Ok(Some(Value::Table(table))),
        Err(error) if error.is_memory() => Err(AllocError),
        Err(_) => Ok(None),
    }
}

/// Adds where a text is no TOML, and why.
fn add_not_toml(
    text: &mut String,
    alloc: Global,
    script: &NamedText<'_>,
    source: &str,
    error: &toml::de::Error,
) -> Result<Rest, AllocError> {
    let Some(span) = error.span() else {
        return Ok(Rest::Words);
    };
    add_line_at(text, script.name, source, span.start)?;
    if serde_json::Value::from_str(alloc, source).is_ok() {
        text.push_str(
            "  it is JSON, as a populate file is: --script takes the script, and --config the populate file\n",
        )?;
        return Ok(Rest::Nothing);
    }
    let why = error.message();
    write!(text, "  {why}\n")?;
    Ok(Rest::Words)
}

/// The fields by which the line of a fault is found: its key, and that of the table of attributes, which an attribute may stand in.
fn fields_of<'a>(fault: &ScriptFault, key: &'a str) -> [&'a str; 2] {
    match fault {
        ScriptFault::Toxic(_, ToxicFault::UnknownAttribute) => [key, "attributes"],
        ScriptFault::Toxic(_, ToxicFault::OutOfRange) => [key, "attributes"],
        ScriptFault::Toxic(_, ToxicFault::Variation) => [key, "attributes"],
        _ => [key, key],
    }
}

/// Adds why a toxic is refused.
fn add_toxic_fault(
    text: &mut String,
    alloc: Global,
    fault: &ToxicFault,
    subject: &Subject<'_>,
) -> Result<Rest, AllocError> {
    match fault {
        ToxicFault::UnknownType | ToxicFault::UnknownAttribute => {
            match UnknownName::in_table(subject.table) {
                Some(unknown) => unknown.add(text, alloc),
                None => Ok(Rest::Words),
            }
        }
        ToxicFault::OutOfRange => add_attribute(text, alloc, subject),
        ToxicFault::Variation => Ok(Rest::Words),
        ToxicFault::ToxicityNotThousandths => add_toxicity(text, alloc, subject),
    }
}

/// Adds what an attribute may be, and what was meant.
fn add_attribute(
    text: &mut String,
    alloc: Global,
    subject: &Subject<'_>,
) -> Result<Rest, AllocError> {
    let Some(toxic) = subject.toxic() else {
        return Ok(Rest::Words);
    };
    let Some(attribute) = attribute_of(&toxic, subject.key) else {
        return Ok(Rest::Words);
    };
    add_range(text, &attribute)?;
    let meant = meant_of(alloc, toxic.name(), subject)?;
    add_meant_number(
        text,
        subject,
        meant.filter(|number| attribute.limits.has(*number)),
    )?;
    Ok(Rest::Nothing)
}

/// Adds what a toxicity may be, and what was meant.
fn add_toxicity(
    text: &mut String,
    alloc: Global,
    subject: &Subject<'_>,
) -> Result<Rest, AllocError> {
    text.push_str(
        "  a toxicity is whole thousandths, 0 to 1000, such as 30 (3.0 %); with version = 2 it may be a text, as \"0.25\"\n",
    )?;
    let meant = meant_of(alloc, "", subject)?;
    add_meant_number(
        text,
        subject,
        meant.filter(|number| *number <= u64::from(MAX_TOXICITY)),
    )?;
    Ok(Rest::Nothing)
}

/// The whole number that was meant, if it is sure.
fn meant_of(
    alloc: Global,
    type_name: &str,
    subject: &Subject<'_>,
) -> Result<Option<u64>, AllocError> {
    let Some(value) = subject.value() else {
        return Ok(None);
    };
    let written = written_value(alloc, value)?;
    meant_value(alloc, type_name, subject.key, written.as_str())
}

/// A value as a person reads it: a text without its quotes, and a number with a point if it has one.
fn written_value(alloc: Global, value: &Value) -> Result<String, AllocError> {
    match value {
        Value::String(text) => text.clone(),
        Value::Float(number) => format!(in alloc; "{number:?}"),
        Value::Integer(number) => format!(in alloc; "{number}"),
        _ => Ok(String::new(alloc)),
    }
}

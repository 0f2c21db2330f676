//! `toxi arguments`: the table of commands and arguments as lines of JSON, from which the completions and the man page are made.
use std::alloc::{AllocError, Global};
use std::io;
use thiserror::Error;
use tox_arguments::{
    Argument, ArgumentHelp, COMMANDS, CommandForm, FAULTS, FaultForm, HelpText, PROGRAM, Takes,
    Topic, ToxicsHelp, VERSION, ValueKind,
};
use tox_defs::{Attribute, Toxic};
use tox_explain::TOXICITY;
use tox_proxy::{JsonField, JsonItem, JsonValue, WriteFault, write_object};
use tox_time::{Real, Stream};

/// Why the table was not printed whole.
#[derive(Clone, Copy, Debug, Error)]
pub enum ArgumentsFault {
    #[error("L0 OutOfMemory")]
    OutOfMemory,
    #[error("{0}")]
    Write(WriteFault),
}

impl From<AllocError> for ArgumentsFault {
    fn from(_: AllocError) -> ArgumentsFault {
        ArgumentsFault::OutOfMemory
    }
}

/// Prints the table.
#[inline(never)]
pub fn arguments<R: Print + AllocGlobal>(rt: &R) -> Result<(), ArgumentsFault> {
    write_program(rt)?;
    for form in COMMANDS {
        write_command(rt, form)?;
    }
    for toxic in Toxic::EACH_TYPE {
        write_toxic(rt, &toxic)?;
    }
    for topic in Topic::EACH {
        write_topic(rt, topic)?;
    }
    for fault in FAULTS {
        write_fault(rt, fault)?;
    }
    Ok(())
}

/// Writes the line of the program, and those of its options.
fn write_program<R: Print + AllocGlobal>(rt: &R) -> Result<(), ArgumentsFault> {
    let fields = [
        JsonField::text("name", PROGRAM.name),
        JsonField::text("version", VERSION),
        JsonField::text("about", PROGRAM.about),
        JsonField::text("examples", PROGRAM.examples),
    ];
    write(rt, "program", &fields)?;
    write_arguments(rt, &PROGRAM)
}

/// Writes the line of a command, and those of its arguments.
fn write_command<R: Print + AllocGlobal>(rt: &R, form: &CommandForm) -> Result<(), ArgumentsFault> {
    let fields = [
        JsonField::text("name", form.name),
        JsonField::text("about", form.about),
        JsonField::text("examples", form.examples),
    ];
    write(rt, "command", &fields)?;
    write_arguments(rt, form)
}

fn write_arguments<R: Print + AllocGlobal>(
    rt: &R,
    form: &CommandForm,
) -> Result<(), ArgumentsFault> {
    for argument in form.arguments {
        write_argument(rt, form.name, argument)?;
    }
    Ok(())
}

fn write_argument<R: Print + AllocGlobal>(
    rt: &R,
    command: &str,
    argument: &Argument,
) -> Result<(), ArgumentsFault> {
    let values = values_of(rt.alloc(), argument)?;
    let help = format!(in rt.alloc(); "{}", ArgumentHelp(argument))?;
    let range = range_of(rt.alloc(), argument)?;
    let default = format!(in rt.alloc(); "{}", argument.absent)?;
    let unless = items(rt.alloc(), argument.unless)?;
    let fields = [
        JsonField::text("command", command),
        JsonField::text("name", argument.name),
        JsonField::text("short", argument.short),
        flag("option", argument.dashed),
        JsonField::text("value", argument.value),
        JsonField::text("kind", argument.kind.name()),
        array("values", &values),
        JsonField::text("words", argument.help),
        JsonField::text("help", help.as_str()),
        JsonField::text("range", range.as_str()),
        JsonField::text("unit", unit_of(argument)),
        JsonField::text("default", default.as_str()),
        JsonField::text("environment", argument.environment),
        flag("required", argument.needed),
        array("unless", &unless),
        flag("repeatable", argument.is_repeatable()),
        flag("shared", argument.shared),
    ];
    write(rt, "argument", &fields)
}

/// The numbers that an option takes. Empty: it takes none.
fn range_of(alloc: Global, argument: &Argument) -> Result<String, AllocError> {
    match argument.takes {
        Takes::Number(range) => format!(in alloc; "{range}"),
        _ => Ok(String::new(alloc)),
    }
}

/// What they count.
fn unit_of(argument: &Argument) -> &'static str {
    match argument.takes {
        Takes::Number(range) => range.unit,
        _ => "",
    }
}

/// The names that a value may be. None: they aren't listed.
fn values_of(alloc: Global, argument: &Argument) -> Result<Vec<JsonItem<'static>>, AllocError> {
    match argument.kind {
        ValueKind::Stream => {
            let names = [Stream::Upstream.name(), Stream::Downstream.name()];
            items(alloc, &names)
        }
        _ => items(alloc, argument.names()),
    }
}

/// Writes the line of a type of toxics, with the keys of its short form, and those of its attributes.
fn write_toxic<R: Print + AllocGlobal>(rt: &R, toxic: &Toxic) -> Result<(), ArgumentsFault> {
    let keys = keys_of(rt.alloc(), toxic)?;
    let fields = [
        JsonField::text("name", toxic.name()),
        JsonField::text("words", toxic.words()),
        array("keys", &keys),
    ];
    write(rt, "toxic", &fields)?;
    for attribute in toxic.attributes() {
        write_attribute(rt, toxic.name(), attribute)?;
    }
    Ok(())
}

/// The keys of a toxic's short form.
fn keys_of(alloc: Global, toxic: &Toxic) -> Result<Vec<JsonItem<'static>>, AllocError> {
    let mut keys = Vec::new(alloc);
    for attribute in toxic.attributes() {
        keys.push(JsonItem::Text(attribute.name))?;
    }
    keys.push(JsonItem::Text(TOXICITY))?;
    Ok(keys)
}

/// Writes the line of an attribute. Where a value has to be given, its default is 0.
fn write_attribute<R: Print>(
    rt: &R,
    toxic: &str,
    attribute: &Attribute,
) -> Result<(), ArgumentsFault> {
    let fields = [
        JsonField::text("toxic", toxic),
        JsonField::text("name", attribute.name),
        JsonField::text("unit", attribute.unit.words()),
        JsonField::text("placeholder", attribute.unit.placeholder()),
        JsonField::number("least", attribute.limits.least),
        JsonField::number("most", attribute.limits.most),
        flag("required", attribute.default().is_none()),
        JsonField::number("default", attribute.default().unwrap_or(0)),
        JsonField::text("words", attribute.words),
    ];
    write(rt, "attribute", &fields)
}

/// Writes the line of a topic of help. The text of the faults is that of their own lines.
fn write_topic<R: Print + AllocGlobal>(rt: &R, topic: Topic) -> Result<(), ArgumentsFault> {
    match topic.text() {
        HelpText::One(text) => write_text(rt, topic, text),
        HelpText::Toxics => {
            let text = format!(in rt.alloc(); "{}", ToxicsHelp)?;
            write_text(rt, topic, text.as_str())
        }
        HelpText::Toxic(_) | HelpText::Faults | HelpText::Schema(_) | HelpText::Fault(_) =>
            write_text(rt, topic, ""),
    }
}

fn write_text<R: Print>(rt: &R, topic: Topic, text: &str) -> Result<(), ArgumentsFault> {
    let fields = [
        JsonField::text("name", topic.name()),
        JsonField::text("about", topic.about()),
        JsonField::text("text", text),
    ];
    write(rt, "topic", &fields)
}

/// Writes the line of a fault: its parts, and the line of help that has them all.
fn write_fault<R: Print + AllocGlobal>(rt: &R, fault: &FaultForm) -> Result<(), ArgumentsFault> {
    let line = format!(in rt.alloc(); "{fault}")?;
    let fields = [
        JsonField::text("code", fault.code),
        JsonField::text("name", fault.name),
        JsonField::text("subject", fault.place),
        JsonField::text("means", fault.means),
        JsonField::text("advice", fault.advice),
        JsonField::text("line", line.as_str()),
    ];
    write(rt, "fault", &fields)
}

/// Texts as items of an array.
fn items<'a>(alloc: Global, texts: &[&'a str]) -> Result<Vec<JsonItem<'a>>, AllocError> {
    texts.iter().map(|text| JsonItem::Text(text)).collect(alloc)
}

fn array<'a>(key: &'a str, items: &'a [JsonItem<'a>]) -> JsonField<'a> {
    JsonField {
        key,
        value: JsonValue::Array(items),
    }
}

fn flag<'a>(key: &'a str, holds: bool) -> JsonField<'a> {
    JsonField {
        key,
        value: JsonValue::One(JsonItem::Flag(holds)),
    }
}

/// Writes a line.
fn write<R: Print>(rt: &R, event: &str, fields: &[JsonField<'_>]) -> Result<(), ArgumentsFault> {
    let mut writer = Real::new(io::writer(rt));
    write_object(&mut writer, event, fields).map_err(|_| ArgumentsFault::Write(WriteFault))
}

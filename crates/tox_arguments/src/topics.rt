//! The command `help`: of a command, of toxics, scripts and faults, and of a fault by its code.
use crate::argument::{Argument, OPTION, PLACE};
use crate::argument_help::HelpLines;
use crate::command::CommandForm;
use crate::command_line::{Task, incomplete, matches_of};
use crate::environment::Environment;
use crate::faults::fault_of;
use crate::help;
use crate::schema::Schema;
use crate::takes::Takes;
use crate::topic::{HelpText, Topic};
use crate::value_kind::ValueKind;
use clap::{ArgMatches, Error};
use std::alloc::Global;
use tox_defs::Toxic;

pub(crate) const HELP: CommandForm = CommandForm {
    name: "help",
    about: "Prints the help of a command, a topic, a toxic or a fault",
    usage: "",
    examples: help::HELP,
    arguments: &[
        Argument {
            name: "topic",
            value: "TOPIC",
            kind: ValueKind::Topic,
            help: "A command, toxics, scripts, faults, the type of a toxic, or the code of a fault",
            ..PLACE
        },
        Argument {
            name: "schema",
            value: "FILE",
            help: "Prints the JSON Schema of the populate file or of the script",
            takes: Takes::Names(Schema::NAMES),
            without: &["topic"],
            ..OPTION
        },
    ],
};

/// The task of `help`: a text, or `clap`'s own help, which is an error. `toxi help` alone prints the
/// program's help.
pub(crate) fn help_task<'a>(
    alloc: Global,
    given: &ArgMatches<'a>,
    lines: &HelpLines,
    environment: &Environment,
) -> Result<Task<'a>, Error> {
    if let Some(schema) = given.get_str("schema").and_then(Schema::of_name) {
        return Ok(Task::Help(HelpText::Schema(schema)));
    }
    let topic = given.get_str("topic").unwrap_or("--help");
    match text_of(topic) {
        Some(text) => Ok(Task::Help(text)),
        None => Err(command_help(alloc, topic, lines, environment)),
    }
}

/// What `clap` answers a command line that asks for the help of a command.
fn command_help(alloc: Global, name: &str, lines: &HelpLines, environment: &Environment) -> Error {
    match matches_of(alloc, &["toxi", name, "--help"], lines, environment).err() {
        Some(help) => help,
        None => incomplete(alloc),
    }
}

/// The text of a topic that is no command.
fn text_of(topic: &str) -> Option<HelpText> {
    if let Some(topic) = Topic::of_name(topic) {
        return Some(topic.text());
    }
    match Toxic::of_name(topic) {
        Some(toxic) => Some(HelpText::Toxic(toxic)),
        None => fault_of(topic).map(HelpText::Fault),
    }
}

//! What to write in place of a command line that is refused.
use crate::number_option::add_number_advice;
use crate::toxiproxy::add_foreign_command;
use clap::error::ErrorKind;
use std::alloc::{AllocError, Global};
use std::convert::AsStr;
use tox_arguments::{Argument, COMMANDS, CommandForm, Environment};
use tox_defs::Toxic;
use tox_text::VisibleName;

/// The lines below the refusal of a command line, each indented by two spaces. The first argument is the program's name.
pub fn advise<S: AsStr>(
    alloc: Global,
    arguments: &[S],
    kind: ErrorKind,
    environment: &Environment,
) -> Result<String, AllocError> {
    let mut text = String::new(alloc);
    let Some(place) = place_of_command(arguments) else {
        return Ok(text);
    };
    let name = at(arguments, place).unwrap_or("");
    let Some(form) = COMMANDS.iter().copied().find(|form| form.name == name) else {
        add_foreign_command(&mut text, name)?;
        return Ok(text);
    };
    for behind in place.saturating_add(1)..arguments.len() {
        add_option_advice(&mut text, alloc, form, arguments, behind)?;
    }
    if kind == ErrorKind::UnknownArgument && takes(form, "down") {
        add_lone_toxic(&mut text, arguments, place)?;
    }
    if kind == ErrorKind::MissingRequiredArgument && lacks_seed(form, arguments, environment) {
        add_seed(&mut text, form)?;
    }
    Ok(text)
}

/// The place of the command among the arguments.
fn place_of_command<S: AsStr>(arguments: &[S]) -> Option<usize> {
    (1..arguments.len()).find(|place| !at(arguments, *place).unwrap_or("").starts_with('-'))
}

/// The argument at a place.
fn at<S: AsStr>(arguments: &[S], place: usize) -> Option<&str> {
    match arguments.get(place) {
        Some(argument) => Some(argument.as_str()),
        None => None,
    }
}

/// Adds what the option at a place takes, if it takes a number and none stands there.
fn add_option_advice<S: AsStr>(
    text: &mut String,
    alloc: Global,
    form: &CommandForm,
    arguments: &[S],
    place: usize,
) -> Result<(), AllocError> {
    let Some(written) = at(arguments, place).and_then(|written| written.strip_prefix("--")) else {
        return Ok(());
    };
    let (name, value) = match written.split_once('=') {
        Some((name, value)) => (name, value),
        None => (
            written,
            at(arguments, place.saturating_add(1)).unwrap_or(""),
        ),
    };
    match argument_of(form, name) {
        Some(argument) => add_number_advice(text, alloc, form, argument, value),
        None => Ok(()),
    }
}

/// The option of a name.
pub(crate) fn argument_of<'a>(form: &CommandForm, name: &str) -> Option<&'a Argument> {
    form.arguments
        .iter()
        .find(|argument| argument.dashed && argument.name == name)
}

/// Whether a command takes an option.
pub(crate) fn takes(form: &CommandForm, name: &str) -> bool {
    argument_of(form, name).is_some()
}

/// Adds how a toxic is given that stands alone behind the command.
fn add_lone_toxic<S: AsStr>(
    text: &mut String,
    arguments: &[S],
    place: usize,
) -> Result<(), AllocError> {
    for behind in place.saturating_add(1)..arguments.len() {
        let argument = at(arguments, behind).unwrap_or("");
        let before = at(arguments, behind.saturating_sub(1)).unwrap_or("");
        let (name, _) = argument.split_once(':').unwrap_or((argument, ""));
        if Toxic::of_name(name).is_some() && !before.starts_with("--") {
            let toxic = VisibleName(argument);
            return write!(
                text,
                "  write `--down {toxic}` for what the client gets, or `--up {toxic}` for what it sends\n"
            );
        }
    }
    Ok(())
}

/// Whether a command needs a seed, and neither the command line nor the environment gives it.
fn lacks_seed<S: AsStr>(form: &CommandForm, arguments: &[S], environment: &Environment) -> bool {
    match argument_of(form, "seed") {
        Some(seed) if !environment.has(seed) => !arguments.iter().any(|argument| {
            let argument = argument.as_str();
            argument == "--any-seed" || argument == "--seed" || argument.starts_with("--seed=")
        }),
        _ => false,
    }
}

/// Adds what a seed is, and how it needn't be given.
fn add_seed(text: &mut String, form: &CommandForm) -> Result<(), AllocError> {
    text.push_str("  the same seed gives the same faults: --seed 1, or another whole number")?;
    text.push_str(if takes(form, "any-seed") {
        "; --any-seed draws one and prints it\n"
    } else {
        ", as `toxi serve` was given it or printed it\n"
    })
}

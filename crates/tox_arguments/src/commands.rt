//! The program's command line, as it is given to `clap`.
use crate::argument::{Argument, FLAG};
use crate::argument_help::{CommandLines, HelpLines};
use crate::check::CHECK;
use crate::command::CommandForm;
use crate::environment::Environment;
use crate::forecast::FORECAST;
use crate::help;
use crate::link::{DRAW, DRY, PLAN, STAGES};
use crate::migrate::MIGRATE;
use crate::pick::PICK;
use crate::replay::REPLAY;
use crate::report::REPORT;
use crate::serve::SERVE;
use crate::table::ARGUMENTS;
use crate::topics::HELP;
use crate::wait::WAIT;
use clap::{ArgAction, ArgMatches, Command};
use std::alloc::{AllocError, Global};

/// The version, and the kit that proves and builds it.
pub const VERSION: &str = "0.8.0 (rattle-kit-13f logic dac8208d650f15bf)";

const EXPLAIN: Argument = Argument {
    name: "explain",
    help: "Explains a fault below its line, which is done on a terminal anyway",
    environment: "TOXI_EXPLAIN",
    shared: true,
    ..FLAG
};

/// The program, with the options that stand before a command.
pub const PROGRAM: CommandForm = CommandForm {
    name: "toxi",
    about: "A TCP proxy that adds scripted faults",
    usage: "",
    examples: help::PROGRAM,
    arguments: &[
        EXPLAIN,
        Argument {
            name: "help",
            short: "h",
            help: "Print help",
            action: ArgAction::Help,
            shared: true,
            ..FLAG
        },
        Argument {
            name: "version",
            short: "V",
            help: "Print version",
            action: ArgAction::Version,
            ..FLAG
        },
    ],
};

/// The commands, in the order of the help.
pub const COMMANDS: [&CommandForm; 13] = [
    &DRY, &DRAW, &PLAN, &STAGES, &CHECK, &PICK, &FORECAST, &MIGRATE, &SERVE, &WAIT, &REPLAY,
    &REPORT, &HELP,
];

/// Whether faults are to be explained. The option may stand before the command or behind it.
pub(crate) fn explain_of(given: &ArgMatches<'_>) -> bool {
    let behind = match given.subcommand() {
        Some((_, others)) => others.get_flag(EXPLAIN.name),
        None => false,
    };
    behind || given.get_flag(EXPLAIN.name)
}

/// The program's command line, with the lines of help where they may be shown.
pub(crate) fn toxi<'a>(
    alloc: Global,
    lines: Option<&'a HelpLines>,
    environment: &Environment,
) -> Result<Command<'a>, AllocError> {
    let own = match lines {
        Some(lines) => Some(&lines.program),
        None => None,
    };
    let mut toxi = command_of(alloc, &PROGRAM, own, environment)?
        .bin_name(PROGRAM.name)?
        .version(VERSION)
        .disable_help_flag(true)
        .disable_version_flag(true)
        .disable_help_subcommand(true)
        .subcommand_required(true);
    for (place, form) in COMMANDS.iter().enumerate() {
        let lines = lines.and_then(|lines| lines.commands.get(place));
        toxi = toxi.subcommand(command_of(alloc, form, lines, environment)?)?;
    }
    Ok(toxi)
}

/// The program's command line with the hidden command, for words that ask for it. Where a command is missing, `clap` lists the hidden
/// ones too.
pub(crate) fn toxi_with_arguments<'a>(
    alloc: Global,
    lines: Option<&'a HelpLines>,
    environment: &Environment,
) -> Result<Command<'a>, AllocError> {
    let arguments = command_of(alloc, &ARGUMENTS, None, environment)?.hide(true);
    toxi(alloc, lines, environment)?.subcommand(arguments)
}

/// A command with its arguments.
fn command_of<'a>(
    alloc: Global,
    form: &CommandForm,
    lines: Option<&'a CommandLines>,
    environment: &Environment,
) -> Result<Command<'a>, AllocError> {
    let arguments = arguments_of(alloc, form)?;
    form.command(alloc, &arguments, lines, environment)
}

/// The arguments of a command, and behind them those of the program that each command has.
pub(crate) fn arguments_of(alloc: Global, form: &CommandForm) -> Result<Vec<Argument>, AllocError> {
    let mut arguments = Vec::from_slice(alloc, form.arguments)?;
    if form.name == PROGRAM.name {
        return Ok(arguments);
    }
    for argument in PROGRAM.arguments {
        if argument.shared {
            arguments.push(*argument)?;
        }
    }
    Ok(arguments)
}

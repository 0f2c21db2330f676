//! The command `check` and its options.
use crate::argument::{Argument, FLAG};
use crate::arguments::{CONFIG, SCRIPT, files_of};
use crate::command::CommandForm;
use crate::command_line::{Task, incomplete};
use crate::help;
use clap::{ArgMatches, Error};
use std::alloc::Global;
use tox_proxy::CheckRequest;

pub(crate) const CHECK: CommandForm = CommandForm {
    name: "check",
    about: "Prints which rules and toxics of a script have no effect",
    usage: "",
    examples: help::CHECK,
    arguments: &[
        CONFIG,
        SCRIPT,
        Argument {
            name: "strict",
            help: "Ends with V1 and status 1 where a line was printed",
            ..FLAG
        },
        Argument {
            name: "verbose",
            help: "Prints the numbers of proxies, rules and toxics too",
            ..FLAG
        },
    ],
};

/// The task of `check`.
pub(crate) fn check_task<'a>(alloc: Global, given: &ArgMatches<'a>) -> Result<Task<'a>, Error> {
    let Some((config, script)) = files_of(given) else {
        return Err(incomplete(alloc));
    };
    Ok(Task::Check(CheckRequest {
        config,
        script,
        strict: given.get_flag("strict"),
        verbose: given.get_flag("verbose"),
    }))
}

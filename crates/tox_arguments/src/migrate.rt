//! The command `migrate`.
use crate::arguments::SCRIPT;
use crate::command::CommandForm;
use crate::command_line::{Task, incomplete};
use crate::help;
use clap::{ArgMatches, Error};
use std::alloc::Global;

pub(crate) const MIGRATE: CommandForm = CommandForm {
    name: "migrate",
    about: "Prints a script of version 1 as a script of version 2",
    usage: "",
    examples: help::MIGRATE,
    arguments: &[SCRIPT],
};

/// The task of `migrate`.
pub(crate) fn migrate_task<'a>(alloc: Global, given: &ArgMatches<'a>) -> Result<Task<'a>, Error> {
    match given.get_str("script") {
        Some(script) => Ok(Task::Migrate(script)),
        None => Err(incomplete(alloc)),
    }
}

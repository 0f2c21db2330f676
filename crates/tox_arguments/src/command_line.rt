//! The command line, as `clap` reads it: which task it asks for, and how it is refused.
use crate::argument_help::HelpLines;
use crate::check::check_task;
use crate::commands::{explain_of, toxi, toxi_with_arguments};
use crate::environment::Environment;
use crate::forecast::forecast_task;
use crate::link::{DrawArguments, LinkArguments, draw_task, link_task};
use crate::migrate::migrate_task;
use crate::pick::pick_task;
use crate::replay::{ReplayArguments, replay_task};
use crate::report::{ReportArguments, report_task};
use crate::serve::{InlineArguments, ServeArguments, serve_task};
use crate::table::ARGUMENTS;
use crate::topic::HelpText;
use crate::topics::help_task;
use crate::wait::{WaitArguments, wait_task};
use clap::error::ErrorKind;
use clap::{ArgMatches, Error};
use std::alloc::Global;
use std::convert::AsStr;
use tox_proxy::{CheckRequest, ForecastRequest, PickRequest};
use tox_time::Cap;

/// What the command line asks for.
#[derive(Debug, Drop)]
pub enum Task<'a> {
    Dry(LinkArguments<'a>),
    Draw(DrawArguments<'a>),
    Plan(LinkArguments<'a>),
    Stages(Cap, LinkArguments<'a>),
    Check(CheckRequest<'a>),
    Pick {
        request: PickRequest<'a>,
        verbose: bool,
    },
    Forecast(ForecastRequest<'a>),
    /// The name of a script file.
    Migrate(&'a str),
    Serve(ServeArguments<'a>),
    /// What `serve` would be given in files, and the folder that gets them.
    PrintFiles(InlineArguments<'a>, &'a str),
    Wait(WaitArguments<'a>),
    Replay(ReplayArguments<'a>),
    Help(HelpText),
    Report(ReportArguments<'a>),
    /// The table of all arguments.
    Arguments,
}

/// A command line that was read.
#[derive(Debug, Drop)]
pub struct CommandLine<'a> {
    pub task: Task<'a>,
    /// Whether faults are to be explained, also where standard error is no terminal.
    pub explain: bool,
}

/// Reads the command line, and for `serve` the environment. An error is `clap`'s own text, help too.
#[inline(never)]
pub fn read<'a, S: AsStr>(
    alloc: Global,
    words: &'a [S],
    lines: &'a HelpLines,
    environment: &'a Environment,
) -> Result<CommandLine<'a>, Error> {
    let matches = matches_of(alloc, words, lines, environment)?;
    Ok(CommandLine {
        task: task_of(alloc, &matches, lines, environment)?,
        explain: explain_of(&matches),
    })
}

/// The task of a command with its options.
fn task_of<'a>(
    alloc: Global,
    matches: &ArgMatches<'a>,
    lines: &HelpLines,
    environment: &'a Environment,
) -> Result<Task<'a>, Error> {
    let Some((name, given)) = matches.subcommand() else {
        return Err(incomplete(alloc));
    };
    match name {
        "dry" | "plan" | "stages" => link_task(alloc, name, given),
        "draw" => draw_task(alloc, given),
        "check" => check_task(alloc, given),
        "pick" => pick_task(alloc, given),
        "forecast" => forecast_task(alloc, given),
        "migrate" => migrate_task(alloc, given),
        "serve" => serve_task(alloc, given, environment),
        "wait" => wait_task(alloc, given),
        "replay" => replay_task(alloc, given),
        "report" => report_task(alloc, given),
        "help" => help_task(alloc, given, lines, environment),
        "arguments" => Ok(Task::Arguments),
        _ => Err(incomplete(alloc)),
    }
}

/// The words by the rules of the program's command line.
pub(crate) fn matches_of<'a, S: AsStr>(
    alloc: Global,
    words: &'a [S],
    lines: &'a HelpLines,
    environment: &Environment,
) -> Result<ArgMatches<'a>, Error> {
    let toxi = if asks_for_table(words) {
        toxi_with_arguments(alloc, Some(lines), environment)?
    } else {
        toxi(alloc, Some(lines), environment)?
    };
    toxi.try_get_matches_from(words)
}

/// Whether the hidden command is asked for.
fn asks_for_table<S: AsStr>(words: &[S]) -> bool {
    match words.get(1) {
        Some(word) => word.as_str() == ARGUMENTS.name,
        None => false,
    }
}

/// The refusal of a command line without a command or without an option that it needs. `clap` has
/// rejected each of them.
pub(crate) fn incomplete(alloc: Global) -> Error {
    refusal(
        alloc,
        ErrorKind::MissingRequiredArgument,
        "a command with its options is required",
    )
}

/// A refusal in `clap`'s form, with the program's usage.
pub(crate) fn refusal(alloc: Global, kind: ErrorKind, why: &str) -> Error {
    let refusal = match toxi(alloc, None, &Environment::new(alloc)) {
        Ok(mut toxi) => toxi.error(kind, why),
        Err(fault) => Err(fault),
    };
    match refusal {
        Ok(refusal) => refusal,
        Err(fault) => fault.into(),
    }
}

//! The command `replay` and its options.
use crate::argument::{Argument, FLAG, OPTIONS};
use crate::arguments::{FILES, JSON, strs_of};
use crate::command::CommandForm;
use crate::command_line::{Task, refusal};
use crate::help;
use crate::value_kind::ValueKind;
use clap::error::ErrorKind;
use clap::{ArgMatches, Error};
use std::alloc::{AllocError, Global};

/// What `replay` prints.
#[derive(Debug, Drop)]
pub enum ReplayMode<'a> {
    /// A line for each log: its verdict.
    Verdicts,
    /// What the log heard, as an arrivals text.
    Arrivals,
    /// The words of the log.
    Words,
    /// What the log's chain means for what was heard, or a chain of these toxics.
    Result(Vec<&'a str>),
}

/// What `replay` is given.
#[derive(Debug, Drop)]
pub struct ReplayArguments<'a> {
    pub mode: ReplayMode<'a>,
    /// The names of the logs, or `-` for names on standard input.
    pub files: Vec<&'a str>,
    /// Whether each verdict is a JSON object.
    pub json: bool,
}

/// The name that stands for names on standard input.
pub const NAMES_ON_INPUT: &str = "-";

/// Why a command line is refused.
const ONE_FILE: &str = "--arrivals, --words and --result take one FILE";

pub(crate) const REPLAY: CommandForm = CommandForm {
    name: "replay",
    about: "Says whether each log of `serve` is faithful, and how late it was",
    usage: "",
    examples: help::REPLAY,
    arguments: &[
        Argument {
            name: "arrivals",
            help: "Prints what the log heard as the arrivals of `dry`, its bytes as zeros",
            without: &["words", "result"],
            ..FLAG
        },
        Argument {
            name: "words",
            help: "Prints the log's random words, for `dry --words`",
            without: &["result"],
            ..FLAG
        },
        Argument {
            name: "result",
            help: "Prints what the toxics mean for what the log heard, with lengths for the bytes",
            ..FLAG
        },
        Argument {
            name: "as",
            value: "TOXIC",
            kind: ValueKind::Toxic,
            help: "With --result: a toxic in place of the log's; may be repeated",
            beside: &["result"],
            ..OPTIONS
        },
        Argument {
            without: &["arrivals", "words", "result"],
            ..JSON
        },
        FILES,
    ],
};

/// The task of `replay`, unless it is given more logs than it takes.
pub(crate) fn replay_task<'a>(alloc: Global, given: &ArgMatches<'a>) -> Result<Task<'a>, Error> {
    if lacks_one_file(given) {
        return Err(refusal(alloc, ErrorKind::TooManyValues, ONE_FILE));
    }
    Ok(Task::Replay(ReplayArguments {
        mode: mode_of(alloc, given)?,
        files: strs_of(alloc, given, "files")?,
        json: given.get_flag("json"),
    }))
}

/// Whether one log is asked for, and it isn't named so.
fn lacks_one_file(given: &ArgMatches<'_>) -> bool {
    match given.get_strs("files") {
        Some([file]) if *file != NAMES_ON_INPUT => false,
        _ => given.get_flag("arrivals") || given.get_flag("words") || given.get_flag("result"),
    }
}

fn mode_of<'a>(alloc: Global, given: &ArgMatches<'a>) -> Result<ReplayMode<'a>, AllocError> {
    if given.get_flag("arrivals") {
        return Ok(ReplayMode::Arrivals);
    }
    if given.get_flag("words") {
        return Ok(ReplayMode::Words);
    }
    if given.get_flag("result") {
        return Ok(ReplayMode::Result(strs_of(alloc, given, "as")?));
    }
    Ok(ReplayMode::Verdicts)
}

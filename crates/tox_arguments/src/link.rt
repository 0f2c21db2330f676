//! The commands that are given a link: `dry`, `draw`, `plan` and `stages`.
use crate::argument::{Argument, OPTION, PLACES};
use crate::arguments::strs_of;
use crate::command::CommandForm;
use crate::command_line::Task;
use crate::help;
use crate::takes::{Absent, NumberRange, Takes};
use crate::value_kind::ValueKind;
use clap::{ArgMatches, Error};
use std::alloc::{AllocError, Global};
use tox_time::{Cap, MAX_CAP};
use tox_words::Lanes;

/// The room of each ring without `--cap`, in items.
const DEFAULT_CAP: usize = 4;

/// What `dry`, `plan` and `stages` are given.
#[derive(Debug, Drop)]
pub struct LinkArguments<'a> {
    pub lanes: Lanes,
    pub words: Option<&'a str>,
    pub toxics: Vec<&'a str>,
}

/// What `draw` is given.
#[derive(Debug, Drop)]
pub enum DrawArguments<'a> {
    /// A link whose arrivals are on standard input.
    Link(LinkArguments<'a>),
    /// The name of a log.
    Log(&'a str),
}

pub(crate) const DRY: CommandForm = CommandForm {
    name: "dry",
    about: "Prints when each byte would leave, and how the link would end",
    usage: "",
    examples: help::DRY,
    arguments: &[LANES, WORDS, TOXICS],
};

pub(crate) const DRAW: CommandForm = CommandForm {
    name: "draw",
    about: "Prints a picture of what arrives, leaves and is held between",
    usage: "",
    examples: help::DRAW,
    arguments: &[LOG, LANES, WORDS, TOXICS],
};

pub(crate) const PLAN: CommandForm = CommandForm {
    name: "plan",
    about: "Prints what the toxics are compiled into",
    usage: "",
    examples: help::PLAN,
    arguments: &[LANES, WORDS, TOXICS],
};

pub(crate) const STAGES: CommandForm = CommandForm {
    name: "stages",
    about: "Prints what `dry` prints, by a thread for each toxic",
    usage: "",
    examples: help::STAGES,
    arguments: &[CAP, LANES, WORDS, TOXICS],
};

const LANES: Argument = Argument {
    name: "lanes",
    value: "L",
    help: "How many lanes share the random words: 16 or 32",
    takes: Takes::Names(&["16", "32"]),
    absent: Absent::Number(16),
    ..OPTION
};

const WORDS: Argument = Argument {
    name: "words",
    value: "W",
    help: "The random words: 1 to 4096 numbers up to 4294967295, separated by commas",
    absent: Absent::Number(0),
    ..OPTION
};

const TOXICS: Argument = Argument {
    name: "toxics",
    value: "TOXIC",
    kind: ValueKind::Toxic,
    help: "The toxics that the link meets, in order, at most one for each lane",
    ..PLACES
};

const LOG: Argument = Argument {
    name: "log",
    value: "FILE",
    kind: ValueKind::File,
    help: "Draws the log of a stream of `serve` instead: what was due beside what was written",
    without: &["lanes", "words", "toxics"],
    ..OPTION
};

const CAP: Argument = Argument {
    name: "cap",
    value: "N",
    help: "The room of each ring, in items",
    takes: Takes::Number(NumberRange {
        least: 1,
        most: MAX_CAP as u64,
        unit: "items",
    }),
    absent: Absent::Number(DEFAULT_CAP as u64),
    ..OPTION
};

/// The task of `dry`, `plan` or `stages`.
pub(crate) fn link_task<'a>(
    alloc: Global,
    name: &str,
    given: &ArgMatches<'a>,
) -> Result<Task<'a>, Error> {
    let link = link_of(alloc, given)?;
    Ok(match name {
        "dry" => Task::Dry(link),
        "plan" => Task::Plan(link),
        _ => Task::Stages(cap_of(given), link),
    })
}

/// The task of `draw`, which is given a log or a link. `clap` has rejected both.
pub(crate) fn draw_task<'a>(alloc: Global, given: &ArgMatches<'a>) -> Result<Task<'a>, Error> {
    Ok(Task::Draw(match given.get_str("log") {
        Some(log) => DrawArguments::Log(log),
        None => DrawArguments::Link(link_of(alloc, given)?),
    }))
}

/// The lanes, words and toxics that a command is given.
fn link_of<'a>(alloc: Global, given: &ArgMatches<'a>) -> Result<LinkArguments<'a>, AllocError> {
    Ok(LinkArguments {
        lanes: lanes_of(given),
        words: given.get_str("words"),
        toxics: strs_of(alloc, given, "toxics")?,
    })
}

/// The lanes of the chain. `clap` has rejected other values.
fn lanes_of(given: &ArgMatches<'_>) -> Lanes {
    match given.get_one::<u8>("lanes") {
        Some(32) => Lanes::ThirtyTwo,
        _ => Lanes::Sixteen,
    }
}

/// The room of each ring. `clap` has rejected other values.
fn cap_of(given: &ArgMatches<'_>) -> Cap {
    Cap::new(given.get_one::<usize>("cap").unwrap_or(DEFAULT_CAP))
}

//! The command `report` and its options.
use crate::argument::{Argument, OPTION};
use crate::arguments::{FILES, strs_of};
use crate::command::CommandForm;
use crate::command_line::Task;
use crate::help;
use crate::takes::{Absent, NumberRange, Takes};
use clap::{ArgMatches, Error};
use std::alloc::Global;

/// The title of a page unless `--title` tells.
const DEFAULT_TITLE: &str = "Toxi report";

/// How many links of a page have pictures unless `--pictures` tells.
const DEFAULT_PICTURES: usize = 100;

/// The most pictures that a page may be given.
const MAX_PICTURES: u64 = 1_000_000;

/// What `report` is given.
#[derive(Debug, Drop)]
pub struct ReportArguments<'a> {
    /// The title of the page.
    pub title: &'a str,
    /// How many of the first links have conversations, with their pictures.
    pub pictures: usize,
    /// The names of the logs, or `-` for names on standard input.
    pub files: Vec<&'a str>,
}

pub(crate) const REPORT: CommandForm = CommandForm {
    name: "report",
    about: "Prints a page of a run: its links, with their pictures",
    usage: "",
    examples: help::REPORT,
    arguments: &[
        Argument {
            name: "title",
            value: "TEXT",
            help: "The title of the page",
            absent: Absent::Words(DEFAULT_TITLE),
            ..OPTION
        },
        Argument {
            name: "pictures",
            value: "N",
            help: "How many of the first links have pictures",
            takes: Takes::Number(NumberRange {
                least: 0,
                most: MAX_PICTURES,
                unit: "links",
            }),
            absent: Absent::Number(DEFAULT_PICTURES as u64),
            ..OPTION
        },
        FILES,
    ],
};

/// The task of `report`.
pub(crate) fn report_task<'a>(alloc: Global, given: &ArgMatches<'a>) -> Result<Task<'a>, Error> {
    Ok(Task::Report(ReportArguments {
        title: given.get_str("title").unwrap_or(DEFAULT_TITLE),
        pictures: given
            .get_one::<usize>("pictures")
            .unwrap_or(DEFAULT_PICTURES),
        files: strs_of(alloc, given, "files")?,
    }))
}

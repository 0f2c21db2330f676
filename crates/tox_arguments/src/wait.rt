//! The command `wait` and its options.
use crate::argument::{Argument, OPTION, PLACE};
use crate::arguments::MAX_CONNECT_TIMEOUT;
use crate::command::CommandForm;
use crate::command_line::{Task, incomplete};
use crate::help;
use crate::takes::{Absent, NumberRange, Takes};
use clap::{ArgMatches, Error};
use std::alloc::Global;

/// How many milliseconds a wait may take unless `--within` tells.
const DEFAULT_WITHIN: u32 = 10_000;

/// What `wait` is given.
#[derive(Clone, Copy, Debug)]
pub struct WaitArguments<'a> {
    pub address: &'a str,
    /// How many milliseconds the wait may take, 1 to 600,000.
    pub within: u32,
}

pub(crate) const WAIT: CommandForm = CommandForm {
    name: "wait",
    about: "Waits until an address accepts a connection",
    usage: "",
    examples: help::WAIT,
    arguments: &[
        Argument {
            name: "address",
            value: "ADDRESS",
            help: "The address: a host and a port",
            needed: true,
            ..PLACE
        },
        Argument {
            name: "within",
            value: "MS",
            help: "How many milliseconds it may take",
            takes: Takes::Number(NumberRange {
                least: 1,
                most: MAX_CONNECT_TIMEOUT,
                unit: "milliseconds",
            }),
            absent: Absent::Number(DEFAULT_WITHIN as u64),
            ..OPTION
        },
    ],
};

/// The task of `wait`. `clap` has rejected numbers that are too large.
pub(crate) fn wait_task<'a>(alloc: Global, given: &ArgMatches<'a>) -> Result<Task<'a>, Error> {
    let Some(address) = given.get_str("address") else {
        return Err(incomplete(alloc));
    };
    Ok(Task::Wait(WaitArguments {
        address,
        within: given.get_one::<u32>("within").unwrap_or(DEFAULT_WITHIN),
    }))
}

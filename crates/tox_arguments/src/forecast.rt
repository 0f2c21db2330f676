//! The command `forecast` and its options.
use crate::argument::{Argument, OPTION};
use crate::arguments::{CONFIG, CONNECTIONS, JSON, PROXY, SCRIPT, SEED, proxy_of};
use crate::command::CommandForm;
use crate::command_line::{Task, incomplete};
use crate::help;
use crate::value_kind::ValueKind;
use clap::{ArgMatches, Error};
use std::alloc::Global;
use tox_proxy::ForecastRequest;

/// How it is called. In one line this is too long for the help.
const USAGE: &str = "\
toxi forecast --config <FILE> --script <FILE> --proxy <NAME> --links <N>
                     --seed <N> [OPTIONS]";

pub(crate) const FORECAST: CommandForm = CommandForm {
    name: "forecast",
    about: "Prints what connections will meet, and how often toxics are applied",
    usage: USAGE,
    examples: help::FORECAST,
    arguments: &[
        CONFIG,
        SCRIPT,
        PROXY,
        Argument {
            name: "links",
            help: "The number of connections",
            needed: true,
            ..CONNECTIONS
        },
        SEED,
        Argument {
            name: "stream",
            value: "STREAM",
            kind: ValueKind::Stream,
            help: "Only lines of this stream [possible values: upstream, downstream]",
            ..OPTION
        },
        Argument {
            name: "where",
            value: "NAME",
            help: "Only lines with an applied toxic of this name",
            ..OPTION
        },
        JSON,
    ],
};

/// The task of `forecast`.
pub(crate) fn forecast_task<'a>(alloc: Global, given: &ArgMatches<'a>) -> Result<Task<'a>, Error> {
    let Some(asked) = proxy_of(given, "links") else {
        return Err(incomplete(alloc));
    };
    Ok(Task::Forecast(ForecastRequest {
        config: asked.config,
        script: asked.script,
        proxy: asked.proxy,
        links: asked.number,
        stream: given.get_str("stream"),
        named: given.get_str("where"),
        seed: asked.seed,
        json: given.get_flag("json"),
    }))
}

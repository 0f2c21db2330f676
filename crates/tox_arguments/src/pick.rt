//! The command `pick` and its options.
use crate::argument::{Argument, FLAG, OPTION};
use crate::arguments::{CONFIG, CONNECTIONS, PROXY, SCRIPT, SEED, proxy_of};
use crate::command::CommandForm;
use crate::command_line::{Task, incomplete};
use crate::help;
use crate::value_kind::ValueKind;
use clap::{ArgMatches, Error};
use std::alloc::Global;
use tox_proxy::PickRequest;

/// How it is called. In one line this is too long for the help.
const USAGE: &str = "\
toxi pick --config <FILE> --script <FILE> --proxy <NAME> --conn <N>
                 --stream <STREAM> --seed <N> [OPTIONS]";

pub(crate) const PICK: CommandForm = CommandForm {
    name: "pick",
    about: "Prints what one connection meets, from the files and the seed",
    usage: USAGE,
    examples: help::PICK,
    arguments: &[
        CONFIG,
        SCRIPT,
        PROXY,
        Argument {
            name: "conn",
            help: "The number of the connection",
            needed: true,
            ..CONNECTIONS
        },
        Argument {
            name: "stream",
            value: "STREAM",
            kind: ValueKind::Stream,
            help: "The stream [possible values: upstream, downstream]",
            needed: true,
            ..OPTION
        },
        SEED,
        Argument {
            name: "verbose",
            help: "Tells on standard error what each toxicity is in percent",
            ..FLAG
        },
    ],
};

/// The task of `pick`.
pub(crate) fn pick_task<'a>(alloc: Global, given: &ArgMatches<'a>) -> Result<Task<'a>, Error> {
    let Some((asked, stream)) = proxy_of(given, "conn").zip(given.get_str("stream")) else {
        return Err(incomplete(alloc));
    };
    let request = PickRequest {
        config: asked.config,
        script: asked.script,
        proxy: asked.proxy,
        conn: asked.number,
        stream,
        seed: asked.seed,
    };
    Ok(Task::Pick {
        request,
        verbose: given.get_flag("verbose"),
    })
}

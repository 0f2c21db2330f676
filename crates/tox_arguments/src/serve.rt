//! The command `serve` and its options.
use crate::argument::{Argument, FLAG, OPTION, OPTIONS};
use crate::arguments::{CONFIG, CONNECTIONS, JSON, MAX_CONNECT_TIMEOUT, SCRIPT, SEED};
use crate::command::CommandForm;
use crate::command_line::{Task, incomplete};
use crate::environment::{Environment, UsedVariable, number_of, text_of};
use crate::help;
use crate::takes::{Absent, NumberRange, Takes};
use crate::value_kind::ValueKind;
use clap::{ArgMatches, Error};
use std::alloc::{AllocError, Global};
use tox_proxy::{Inline, InlineToxic, LineForm, LogLimits, ServeOptions};
use tox_time::Stream;

/// The most threads that drive all links.
const MAX_WORKERS: u64 = 64;

/// The most bytes that a log may be given.
const MAX_LOG_BYTES: u64 = 1 << 40;

/// How many links of each proxy are logged unless `--log-links` tells.
const DEFAULT_LOG_LINKS: u64 = 10_000;

/// How many bytes a log has at most unless `--log-bytes` tells.
const DEFAULT_LOG_BYTES: u64 = 67_108_864;

/// What `serve` is given.
#[derive(Debug, Drop)]
pub struct ServeArguments<'a> {
    pub source: ServeSource<'a>,
    /// None: one is drawn.
    pub seed: Option<u64>,
    /// The folder of logs, where links are logged.
    pub folder: Option<&'a str>,
    /// Whether what `check` finds isn't reported on standard error.
    pub quiet: bool,
    /// Whether the end of standard input tells it to end.
    pub until_eof: bool,
    /// The variables of the environment that stand in for options.
    pub variables: Vec<UsedVariable<'a>>,
    pub options: ServeOptions<'a>,
}

/// What is served.
#[derive(Debug, Drop)]
pub enum ServeSource<'a> {
    /// The names of a populate file and of a script file.
    Files { config: &'a str, script: &'a str },
    /// One proxy and its toxics, on the command line.
    Inline(InlineArguments<'a>),
}

/// One proxy and its toxics, on the command line.
#[derive(Debug, Drop)]
pub struct InlineArguments<'a> {
    /// Where the proxy listens.
    pub listen: &'a str,
    /// What it connects to.
    pub upstream: &'a str,
    /// The toxics of both streams, in the order typed.
    pub toxics: Vec<InlineToxic<'a>>,
}

impl<'a> InlineArguments<'a> {
    /// What is to be set up.
    pub fn inline(&self) -> Inline<'_> {
        Inline {
            listen: self.listen,
            upstream: self.upstream,
            toxics: &self.toxics,
        }
    }
}

/// A toxic, and the number of its word on the command line.
#[derive(Clone, Copy)]
struct PlacedToxic<'a> {
    place: usize,
    toxic: InlineToxic<'a>,
}

/// How it is called: with files, or with one proxy.
const USAGE: &str = "\
toxi serve --config <FILE> --script <FILE> --seed <N> [OPTIONS]
       toxi serve --listen <ADDRESS> --upstream <ADDRESS> --seed <N> [OPTIONS]";

/// The headings of its options.
const SERVED: &str = "What is served";

const SERVING: &str = "How links are served";

const PRINTED: &str = "What is printed and logged";

/// The options that a variable of the environment may stand in for.
const SERVE_CONFIG: Argument = Argument {
    heading: SERVED,
    needed: false,
    unless: &["listen"],
    environment: "TOXI_CONFIG",
    ..CONFIG
};

const SERVE_SCRIPT: Argument = Argument {
    heading: SERVED,
    needed: false,
    unless: &["listen"],
    environment: "TOXI_SCRIPT",
    ..SCRIPT
};

const SERVE_SEED: Argument = Argument {
    heading: SERVED,
    needed: false,
    unless: &["any-seed"],
    environment: "TOXI_SEED",
    ..SEED
};

const WORKERS: Argument = Argument {
    name: "workers",
    heading: SERVING,
    value: "N",
    help: "How many threads drive all links",
    takes: Takes::Number(NumberRange {
        least: 1,
        most: MAX_WORKERS,
        unit: "threads",
    }),
    absent: Absent::Words("each link has four of its own"),
    environment: "TOXI_WORKERS",
    ..OPTION
};

pub const SERVE: CommandForm = CommandForm {
    name: "serve",
    about: "Listens for each proxy and carries its connections under toxics",
    usage: USAGE,
    examples: help::SERVE,
    arguments: &[
        SERVE_CONFIG,
        SERVE_SCRIPT,
        SERVE_SEED,
        Argument {
            name: "any-seed",
            heading: SERVED,
            help: "In place of --seed: draws a seed, and prints it on standard error",
            without: &["seed"],
            ..FLAG
        },
        Argument {
            name: "listen",
            heading: SERVED,
            value: "ADDRESS",
            help: "In place of the files: the address of one proxy, `default`",
            beside: &["upstream"],
            without: &["config", "script"],
            ..OPTION
        },
        Argument {
            name: "upstream",
            heading: SERVED,
            value: "ADDRESS",
            help: "With --listen: the address of the server behind it",
            beside: &["listen"],
            ..OPTION
        },
        Argument {
            name: "down",
            heading: SERVED,
            value: "TOXIC",
            kind: ValueKind::Toxic,
            help: "With --listen: a toxic from the server to the client; may be repeated",
            beside: &["listen"],
            ..OPTIONS
        },
        Argument {
            name: "up",
            heading: SERVED,
            value: "TOXIC",
            kind: ValueKind::Toxic,
            help: "With --listen: a toxic from the client to the server; may be repeated",
            beside: &["listen"],
            ..OPTIONS
        },
        Argument {
            name: "print-files",
            heading: SERVED,
            value: "DIR",
            kind: ValueKind::Folder,
            help: "With --listen: writes proxies.json and script.toml that mean the same, and ends",
            beside: &["listen"],
            ..OPTION
        },
        Argument {
            name: "links",
            heading: SERVING,
            help: "After how many connections each proxy stops listening",
            absent: Absent::Words("it goes on to 1000000"),
            ..CONNECTIONS
        },
        Argument {
            name: "connect-timeout",
            heading: SERVING,
            value: "MS",
            help: "How many milliseconds a connect to an upstream may take",
            takes: Takes::Number(NumberRange {
                least: 1,
                most: MAX_CONNECT_TIMEOUT,
                unit: "milliseconds",
            }),
            absent: Absent::Words("the system's"),
            ..OPTION
        },
        Argument {
            name: "ready",
            heading: SERVING,
            value: "ADDRESS",
            help: "An address for probes, which listens once all proxies do, and whose connections don't count",
            ..OPTION
        },
        WORKERS,
        Argument {
            name: "until-eof",
            heading: SERVING,
            help: "Reads and drops standard input, and ends at its end as at SIGTERM",
            ..FLAG
        },
        Argument {
            name: "log",
            heading: PRINTED,
            value: "DIR",
            kind: ValueKind::Folder,
            help: "The folder that gets a log of each stream; it is made, or must be empty",
            ..OPTION
        },
        Argument {
            name: "log-links",
            heading: PRINTED,
            help: "How many links of each proxy are logged",
            absent: Absent::Number(DEFAULT_LOG_LINKS),
            beside: &["log"],
            ..CONNECTIONS
        },
        Argument {
            name: "log-bytes",
            heading: PRINTED,
            value: "N",
            help: "How many bytes a log has at most",
            takes: Takes::Number(NumberRange {
                least: 1,
                most: MAX_LOG_BYTES,
                unit: "bytes",
            }),
            absent: Absent::Number(DEFAULT_LOG_BYTES),
            beside: &["log"],
            ..OPTION
        },
        Argument {
            name: "verbose",
            heading: PRINTED,
            help: "Prints what `check` says at the start, and a line for each stream of a link as its upstream is reached",
            ..FLAG
        },
        Argument {
            name: "quiet",
            heading: PRINTED,
            help: "Leaves out what `check` says at the start on standard error",
            ..FLAG
        },
        Argument {
            heading: PRINTED,
            ..JSON
        },
    ],
};

/// The task of `serve` with files or with one proxy. `clap` has rejected both. Where a proxy is typed, no file comes from the environment.
pub(crate) fn serve_task<'a>(
    alloc: Global,
    given: &ArgMatches<'a>,
    environment: &'a Environment,
) -> Result<Task<'a>, Error> {
    if given.get_str("listen").is_some() {
        return inline_task(alloc, given, environment);
    }
    let mut used: Vec<UsedVariable<'a>> = Vec::new(alloc);
    let config = text_of(alloc, given, environment, &SERVE_CONFIG, &mut used)?;
    let script = text_of(alloc, given, environment, &SERVE_SCRIPT, &mut used)?;
    match config.zip(script) {
        Some((config, script)) => {
            let source = ServeSource::Files { config, script };
            serving(alloc, given, environment, source, used)
        }
        None => Err(incomplete(alloc)),
    }
}

/// The task of `serve` with one proxy: to serve it, or to print the files that mean the same.
fn inline_task<'a>(
    alloc: Global,
    given: &ArgMatches<'a>,
    environment: &'a Environment,
) -> Result<Task<'a>, Error> {
    let Some((listen, upstream)) = given.get_str("listen").zip(given.get_str("upstream")) else {
        return Err(incomplete(alloc));
    };
    let inline = InlineArguments {
        listen,
        upstream,
        toxics: toxics_of(alloc, given)?,
    };
    match given.get_str("print-files") {
        Some(folder) => Ok(Task::PrintFiles(inline, folder)),
        None => {
            let source = ServeSource::Inline(inline);
            serving(alloc, given, environment, source, Vec::new(alloc))
        }
    }
}

/// The task to serve, with the variables that told what is served.
fn serving<'a>(
    alloc: Global,
    given: &ArgMatches<'a>,
    environment: &'a Environment,
    source: ServeSource<'a>,
    used: Vec<UsedVariable<'a>>,
) -> Result<Task<'a>, Error> {
    let mut used = used;
    let seed = if given.get_flag("any-seed") {
        None
    } else {
        number_of(alloc, given, environment, &SERVE_SEED, &mut used)?
    };
    let workers = number_of(alloc, given, environment, &WORKERS, &mut used)?;
    Ok(Task::Serve(ServeArguments {
        source,
        seed,
        folder: given.get_str("log"),
        quiet: given.get_flag("quiet"),
        until_eof: given.get_flag("until-eof"),
        variables: used,
        options: options_of(given, workers),
    }))
}

/// The options of serving. Numbers that are too large were rejected.
fn options_of<'a>(given: &ArgMatches<'a>, workers: Option<u64>) -> ServeOptions<'a> {
    ServeOptions {
        links: given.get_one::<u64>("links"),
        connect_timeout: given.get_one::<u32>("connect-timeout"),
        ready: given.get_str("ready"),
        workers: workers.and_then(|workers| u32::try_from(workers).ok()),
        logs: limits_of(given),
        verbose: given.get_flag("verbose"),
        form: if given.get_flag("json") {
            LineForm::Json
        } else {
            LineForm::Words
        },
    }
}

/// How much is logged, where links are.
fn limits_of(given: &ArgMatches<'_>) -> Option<LogLimits> {
    if given.get_str("log").is_none() {
        return None;
    }
    Some(LogLimits {
        links: given
            .get_one::<u64>("log-links")
            .unwrap_or(DEFAULT_LOG_LINKS),
        bytes: given
            .get_one::<u64>("log-bytes")
            .unwrap_or(DEFAULT_LOG_BYTES),
    })
}

/// The toxics of both streams, in the order typed.
fn toxics_of<'a>(
    alloc: Global,
    given: &ArgMatches<'a>,
) -> Result<Vec<InlineToxic<'a>>, AllocError> {
    let mut placed = Vec::new(alloc);
    add_toxics(&mut placed, given, "down", Stream::Downstream)?;
    add_toxics(&mut placed, given, "up", Stream::Upstream)?;
    placed.sort_by_key(|toxic| toxic.place)?;
    let mut toxics = Vec::new(alloc);
    for typed in &placed {
        toxics.push(typed.toxic)?;
    }
    Ok(toxics)
}

/// Adds the toxics of an option, each with the number of its word.
fn add_toxics<'a>(
    placed: &mut Vec<PlacedToxic<'a>>,
    given: &ArgMatches<'a>,
    name: &str,
    stream: Stream,
) -> Result<(), AllocError> {
    let Some((texts, places)) = given.get_strs(name).zip(given.indices_of(name)) else {
        return Ok(());
    };
    for (short, place) in texts.iter().zip(places) {
        let toxic = InlineToxic { stream, short };
        placed.push(PlacedToxic {
            place: *place,
            toxic,
        })?;
    }
    Ok(())
}

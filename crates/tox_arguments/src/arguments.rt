//! The arguments that several commands take, and what reads them.
ghost use Rattle.std.specs.Prelude.{◌≤◌};

use crate::argument::{Argument, FLAG, OPTION, PLACES};
use crate::takes::{NumberRange, Takes};
use crate::value_kind::ValueKind;
use clap::ArgMatches;
use std::alloc::{AllocError, Global};
use tox_words::MAX_CONNECTIONS;

pub(crate) const CONFIG: Argument = Argument {
    name: "config",
    value: "FILE",
    kind: ValueKind::File,
    help: "The populate file: the proxies, in JSON",
    needed: true,
    ..OPTION
};

pub(crate) const SCRIPT: Argument = Argument {
    name: "script",
    value: "FILE",
    kind: ValueKind::File,
    help: "The script: the toxics of connections, in TOML",
    needed: true,
    ..OPTION
};

pub(crate) const PROXY: Argument = Argument {
    name: "proxy",
    value: "NAME",
    help: "The proxy's name",
    needed: true,
    ..OPTION
};

pub(crate) const SEED: Argument = Argument {
    name: "seed",
    value: "N",
    help: "What the random words are made from",
    takes: Takes::Number(NumberRange {
        least: 0,
        most: u64::MAX,
        unit: "",
    }),
    needed: true,
    ..OPTION
};

/// The longest time that a connect, or a wait for one, may be given, in milliseconds.
pub(crate) const MAX_CONNECT_TIMEOUT: u64 = 600_000;

/// An option with a number of connections.
pub(crate) const CONNECTIONS: Argument = Argument {
    value: "N",
    takes: Takes::Number(NumberRange {
        least: 1,
        most: MAX_CONNECTIONS,
        unit: "connections",
    }),
    ..OPTION
};

pub(crate) const JSON: Argument = Argument {
    name: "json",
    help: "Prints each line as one JSON object",
    ..FLAG
};

/// The logs of a command.
pub(crate) const FILES: Argument = Argument {
    name: "files",
    value: "FILE",
    kind: ValueKind::File,
    help: "The logs; - takes their names from standard input, one a line",
    fewest: 1,
    needed: true,
    ..PLACES
};

/// The names of the populate file and of the script file, where both are given.
pub(crate) fn files_of<'a>(given: &ArgMatches<'a>) -> Option<(&'a str, &'a str)> {
    given.get_str("config").zip(given.get_str("script"))
}

/// The proxy that `pick` or `forecast` asks about, with its files, the seed and a number.
#[derive(Clone, Copy)]
pub(crate) struct ProxyArguments<'a> {
    pub(crate) config: &'a str,
    pub(crate) script: &'a str,
    pub(crate) proxy: &'a str,
    pub(crate) seed: u64,
    /// The number of a connection, or of connections, 1 to 1,000,000.
    pub(crate) number: u64,
    pub(crate) ghost numbered: { (1 ≤ number) × (number ≤ 1_000_000) },
}

/// What `pick` or `forecast` is asked, where each option that it needs is there.
pub(crate) fn proxy_of<'a>(given: &ArgMatches<'a>, number: &str) -> Option<ProxyArguments<'a>> {
    let files = files_of(given).zip(given.get_str("proxy"));
    let numbers = given
        .get_one::<u64>("seed")
        .zip(given.get_one::<u64>(number));
    let Some((((config, script), proxy), (seed, number))) = files.zip(numbers) else {
        return None;
    };
    // `clap` has rejected other numbers.
    if number < 1 || MAX_CONNECTIONS < number {
        return None;
    }
    Some(ProxyArguments {
        config,
        script,
        proxy,
        seed,
        number,
    })
}

/// The values of an argument, none if it is absent.
pub(crate) fn strs_of<'a>(
    alloc: Global,
    given: &ArgMatches<'a>,
    name: &str,
) -> Result<Vec<&'a str>, AllocError> {
    Vec::from_slice(alloc, given.get_strs(name).unwrap_or(&[]))
}
